//! A certificate of a history that no order shows.

ghost use Rattle.std.specs.Prelude.{IfOk};
ghost use Rattle.aud_cert.specs.Certified.{IsCertified};

use crate::lines::Lines;
use aud_event::OutOfMemory;
use aud_order::Shape;
use cert_accept::Cert;
use search_prefix::{Searched, search_with};
use std::alloc::Allocator;

/// None where some order shows the history, and else an accepted certificate that none does.
///
/// It comes out of the search that decides the history: a line for each good prefix that it refutes, and none for any other.
pub fn make_cert<A: Allocator + Copy>(
    alloc: A,
    shape: &Shape<A>,
) -> Result<Option<Cert<A>>, OutOfMemory>
    ensures { IfOk result (IsCertified shape.now) }
{
    match search_with(alloc, shape, Lines::none(alloc, shape))? {
        Searched::Opaque(_) => Ok(None),
        Searched::NotOpaque(lines, last) => Ok(Some(lines.up_to(last))),
    }
}
