//! Laws of the definitions. A function here does nothing but call other laws: its contract is the law.

ghost use Rattle.cert_accept.specs.Laws.{AcceptedIsRefuted};

use aud_order::laws::{configurations_decide, silent_moves_forward};
use aud_witness::laws::shows_is_full_and_good;
use std::alloc::Allocator;

/// Where a certificate of a well-formed history is accepted, no completion and serial order shows the history opaque, whoever
/// made the certificate.
pub fn accepted_is_refuted<A: Allocator>()
    ensures { AcceptedIsRefuted A }
{
    shows_is_full_and_good();
    silent_moves_forward();
    configurations_decide();
}
