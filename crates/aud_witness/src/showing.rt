//! Whether an order shows a history, and what is wrong with it where it does not.

ghost use Rattle.std.specs.Prelude.{◌≡◌, ◌↔◌, None, Some, IfOk, IsOk, MatchResult};
ghost use Rattle.aud_history.specs.WellFormed.{IsWellFormed};
ghost use Rattle.aud_witness.specs.Orders.{Shows};
ghost use Rattle.aud_witness.specs.OrderFaults.{ReportsOrderFault};
ghost use Rattle.aud_witness.specs.Walks.{walk_fault};

use crate::agenda::Agenda;
use crate::decision::{Decision, Prefix};
use crate::fault::OrderFault;
use crate::placing::Placing;
use aud_event::OutOfMemory;
use aud_history::History;
use std::alloc::Allocator;

/// Places the decisions one after another, and reports the first that cannot be placed, or else what they leave out.
fn place_all<A: Allocator + Copy>(
    placing: &mut Placing<A>,
    decisions: &[Decision],
) -> Result<Result<(), OrderFault>, OutOfMemory>
    ensures { IfOk result (λ r. MatchResult r
        (λ _. walk_fault placing.old.agenda.rows placing.old.configuration decisions.now ≡ None)
        (λ fault. walk_fault placing.old.agenda.rows placing.old.configuration decisions.now ≡ Some fault)) }
{
    for decision in decisions {
        match placing.place(*decision)? {
            Ok(()) => {}
            Err(fault) => return Ok(Err(fault)),
        }
    }
    match placing.least_unplaced() {
        Some(tx) => Ok(Err(OrderFault::Missing(tx))),
        None => Ok(Ok(())),
    }
}

/// Whether the order shows the well-formed history: it names each transaction once, with a fate that a completion may give
/// it, keeps real time, and each transaction sees answers that it can get. If not, the fault at the first wrong place, by
/// the least number; a missing transaction is reported after the last place, the least one.
///
/// It takes O(n + m log m + k) time for n events of m transactions and an order of k decisions.
pub fn shows<A: Allocator + Copy>(
    alloc: A,
    history: &History<A>,
    order: &Prefix<A>,
) -> Result<Result<(), OrderFault>, OutOfMemory>
    requires { IsWellFormed history.now.events }
    ensures fault { IfOk result (ReportsOrderFault history.now.plan.objects history.now.events order.now) }
    ensures shown { IfOk result (λ r. IsOk r ↔ Shows history.now.plan.objects history.now.events order.now) }
{
    let _sound = history.events();
    let agenda = Agenda::of(alloc, history)?;
    let mut placing = Placing::root(alloc, history.plan(), &agenda)?;
    place_all(&mut placing, order.decisions())
}
