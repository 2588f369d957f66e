//! Laws of the definitions. Each function does nothing: its contract is the law.

ghost use Rattle.aud_cert.specs.Laws.{AcceptedReadsBack, CertificatesReadBack};

/// What is written of lines within the limits reads as them.
pub fn certificates_read_back()
    ensures { CertificatesReadBack }
{}

/// Each line of an accepted certificate of a history within the limits is within the limits itself, so that what is written of the
/// certificate reads as it.
pub fn accepted_reads_back()
    ensures { AcceptedReadsBack }
{}
