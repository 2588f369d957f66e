//! Certificates as findings, and headers that are none. What is said of certificates after their records `tests/certificates` asks.

use crate::fixtures::shape_of;
use aud_cert::{CertTextFault, finding_of, read_cert};
use aud_event::Dup;
use aud_know::{Item, Knowledge, Verdict};
use cert_accept::laws::accepted_is_refuted;
use std::alloc::Global;
use std::sync::Arc;
use test_worked::{TORN_READ_THEN_ABORT, Unread};

/// Why the text is refused, if it is: the line and the number of the fault.
fn fault_of(alloc: Global, text: &str) -> Option<(usize, u32)> {
    match read_cert(alloc, text.as_bytes()) {
        Ok(_) => None,
        Err(CertTextFault { line, fault }) => Some((line, fault.number())),
    }
}

/// Where such a header stands after records, it is refused as one of these.
#[test]
fn headers_are_refused(rt: HostRuntime) {
    assert!(rt; fault_of(rt.alloc(), "[]") == Some((1, 3)));
    assert!(rt; fault_of(rt.alloc(), "\n{\"cert\":") == Some((2, 2)));
    assert!(rt; fault_of(rt.alloc(), "{\"cert\":0}") == None);
}

/// The bytes of the torn read. A static, of which no proof has to know them.
static TORN: &str = TORN_READ_THEN_ABORT;

/// A certificate of it.
const KIDS: &str = r#"{"cert":2}
{"by":"kids","p":"1c"}
{"by":"kids","p":"none"}
"#;

/// Whether a Knowledge of nothing says that no order shows the torn read once it took the finding of the certificate, if it is accepted.
fn refutes(alloc: Global, text: &str) -> Result<Option<bool>, Unread> {
    let Ok(cert) = read_cert(alloc, text.as_bytes()) else {
        return Err(Unread::Unsealed);
    };
    let shape = Arc::new(alloc, shape_of(alloc, TORN)?)?;
    let plan = Arc::new(alloc, shape.plan().dup()?)?;
    let Some(finding) = finding_of(alloc, shape, &cert)? else {
        return Ok(None);
    };
    let mut knowledge = Knowledge::empty(alloc, plan)?;
    if knowledge.take(&Item::Finding(finding)).is_err() {
        return Err(Unread::OutOfMemory);
    }
    Ok(Some(matches!(knowledge.verdict()?, Verdict::NotOpaque)))
}

#[test]
fn an_accepted_certificate_is_a_finding(rt: HostRuntime) {
    assert!(rt; refutes(rt.alloc(), KIDS) == Ok(Some(true)));
    assert!(rt; refutes(rt.alloc(), "{\"cert\":0}") == Ok(None));
    accepted_is_refuted::<Global>();
}
