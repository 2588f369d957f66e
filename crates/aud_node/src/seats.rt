//! The passes of a node by their seats.

ghost use Rattle.std.specs.Prelude.{◌≡◌, ◌<◌, ◌≢◌, [], Any, IfErr, IfNone, IfOk, IfSome, MatchBool, map};
ghost use Rattle.aud_node.specs.Logs.{upto};
ghost use Rattle.aud_node.specs.Meanings.{first_pass};
ghost use Rattle.aud_node.specs.Faults.{AreAt, HasSeat, HasSeats, IsFirstForeign, IsMissing};

use crate::book::Fleet;
use crate::fault::StartFault;
use crate::pass::Pass;
use crate::published::{Held, Named, Published};
use left_right::reader::Factory;
use std::alloc::Global;

/// A pass for each seat, with the empty view.
pub(crate) fn seated<J: Fleet>(
    alloc: Global,
    factory: &Factory<Published, (), Named<J>>,
    held: &Held<J>,
    seats: u32,
) -> Result<Vec<Pass<J>>, StartFault>
    requires { held.now.latest.front.log ≡ [] }
    ensures passes { IfOk result (λ v. v.items ≡ map (first_pass held.now.latest.front.number) (upto seats)) }
    ensures fault { IfErr result (λ e. e ≢ StartFault.SeatRange) }
{
    let mut passes = Vec::new(alloc);
    for seat in 0..seats {
        let pass = Pass::fresh(factory, held, seat)?;
        match passes.push(pass) {
            Ok(()) => {}
            Err(_) => return Err(StartFault::OutOfMemory),
        }
    }
    Ok(passes)
}

// Whether a pass has the seat at the node of the number.
fn is_there<J: Fleet>(number: u32, seat: u32, passes: &[Pass<J>]) -> bool
    ensures { MatchBool result (Any (HasSeat number seat) passes.now) (IsMissing number seat passes.now) }
{
    for pass in passes {
        if pass.number() == number && pass.seat() == seat {
            return true;
        }
    }
    false
}

/// The least seat, of so many, whose pass is not there.
pub(crate) fn missing<J: Fleet>(number: u32, seats: u32, passes: &[Pass<J>]) -> Option<u32>
    ensures none { IfNone result (HasSeats number seats passes.now) }
    ensures least { IfSome result (λ s. (s < seats) × HasSeats number s passes.now) }
    ensures missing { IfSome result (λ s. IsMissing number s passes.now) }
{
    for seat in 0..seats {
        if !is_there(number, seat, passes) {
            return Some(seat);
        }
    }
    None
}

/// The first pass that is not of the node of the number.
pub(crate) fn foreign<J: Fleet>(number: u32, passes: &[Pass<J>]) -> Option<usize>
    ensures none { IfNone result (AreAt number passes.now) }
    ensures some { IfSome result (λ index. IsFirstForeign number passes.now index) }
{
    for (index, pass) in passes.iter().enumerate() {
        if pass.number() != number {
            return Some(index);
        }
    }
    None
}
