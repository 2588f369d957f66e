//! Transactions that no other transaction can see.

ghost use Rattle.std.specs.Prelude.{◌≡◌};
ghost use Rattle.std.specs.List.{list_all};
ghost use Rattle.aud_event.specs.Objects.{is_observing};
ghost use Rattle.aud_order.specs.Silent.{silent_row};

use aud_history::TxRow;
use aud_object::Execution;
use aud_witness::{Fate, allows};
use std::alloc::Allocator;

fn all_observe(executions: &[Execution]) -> bool
    ensures { result ≡ list_all (λ x. is_observing x.op) executions.now }
{
    executions.iter().all(|x| x.op.observes())
}

/// The fate with which the row's transaction changes no object, if it is one that never does.
pub(crate) fn silent_of<A: Allocator>(row: &TxRow<A>) -> Option<Fate>
    ensures { result ≡ silent_row row.now }
{
    if !allows(row.status(), Fate::C) {
        return Some(Fate::A);
    }
    if all_observe(row.block().executions()) {
        return Some(Fate::C);
    }
    None
}
