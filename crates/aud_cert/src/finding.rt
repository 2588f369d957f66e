//! What an accepted certificate finds.

ghost use Rattle.std.specs.Prelude.{IfOk};
ghost use Rattle.aud_cert.specs.Certified.{IsFoundBy};

use aud_event::OutOfMemory;
use aud_know::Finding;
use aud_order::Shape;
use aud_witness::Prefix;
use cert_accept::{Cert, check_cert};
use std::alloc::Allocator;
use std::sync::Arc;

/// The finding that the empty prefix is refuted, exactly where the certificate is accepted.
pub fn finding_of<A: Allocator + Copy>(
    alloc: A,
    shape: Arc<Shape<A>, A>,
    cert: &Cert<A>,
) -> Result<Option<Finding<A>>, OutOfMemory>
    ensures { IfOk result (IsFoundBy shape.value cert.now.lines.items) }
{
    if !check_cert(alloc, &shape, cert)? {
        return Ok(None);
    }
    Ok(Some(Finding::refuted(shape, Prefix::empty(alloc))))
}
