//! What is read of a history before its orders are searched.

ghost use Rattle.std.specs.Prelude.{◌≡◌, IfOk};
ghost use Rattle.aud_history.specs.WellFormed.{IsWellFormed};
ghost use Rattle.aud_history.specs.FirstFault.{IsWithinLimits};
ghost use Rattle.aud_history.specs.Table.{table_of};
ghost use Rattle.aud_order.specs.Shapes.{plan_of, history_of};
ghost use Rattle.aud_order.specs.Silent.{silent_fate};

use crate::silent::silent_of;
use aud_event::{OutOfMemory, Plan};
use aud_facts::Sealed;
use aud_history::{History, TxTable};
use aud_witness::{Agenda, Fate};
use std::alloc::{Allocator, Global};
use std::marker::Model;
use std::sync::Arc;

/// A sealed set of facts with a well-formed history, and what the search reads of it: the fates and the real-time
/// predecessors of its transactions.
#[derive(Drop)]
pub struct Shape<A: Allocator + Copy = Global> {
    sealed: Arc<Sealed<A>, A>,
    agenda: Agenda<A>,
}

impl<A: Allocator + Copy> Model for Shape<A> {
    ghost use Rattle.std.specs.Prelude.{◌≡◌};
    ghost use Rattle.aud_history.specs.Table.{table_of};
    ghost use Rattle.aud_history.specs.WellFormed.{IsWellFormed};
    ghost use Rattle.aud_order.specs.Shapes.{ShapeOf};

    ghost Value = { ShapeOf };

    ghost view = { λ s. record { sealed = s.sealed.value } };

    ghost invariant = { λ s. (s.agenda.rows ≡ table_of s.sealed.value.history) × IsWellFormed s.sealed.value.history };
}

impl<A: Allocator + Copy> Shape<A> {
    /// The shape of a sealed set whose history is well-formed, in O(n + m log m) time for n events of m transactions.
    pub fn of(alloc: A, sealed: Arc<Sealed<A>, A>) -> Result<Shape<A>, OutOfMemory>
        requires { IsWellFormed sealed.value.history }
        ensures { IfOk result (λ shape. shape ≡ record { sealed = sealed.value }) }
    {
        let agenda = Agenda::of(alloc, sealed.history())?;
        Ok(Shape { sealed, agenda })
    }

    /// The sealed set of facts.
    pub fn sealed(&self) -> &Sealed<A>
        ensures { result.now ≡ self.now.sealed }
    {
        &self.sealed
    }

    /// The history.
    pub fn history(&self) -> &History<A>
        ensures history { result.now ≡ record { plan = plan_of self.now; events = history_of self.now } }
        ensures sound { IsWellFormed (history_of self.now) }
    {
        self.sealed.history()
    }

    /// The plan.
    pub fn plan(&self) -> &Plan<A>
        ensures plan { result.now ≡ plan_of self.now }
        ensures sound { IsWithinLimits (plan_of self.now) (history_of self.now) }
    {
        let history = self.history();
        let _within = history.events();
        history.plan()
    }

    /// The table of the transactions, by their first events.
    pub fn table(&self) -> &TxTable<A>
        ensures { result.now ≡ table_of (history_of self.now) }
    {
        self.agenda.table()
    }

    /// The silent fate of the transaction, if it is one that no other can see: A where every completion aborts it, C where it
    /// may commit and all its operations are observing. It does not allocate.
    pub fn silent(&self, tx: u32) -> Option<Fate>
        ensures { result ≡ silent_fate (history_of self.now) tx }
    {
        let _sound = self.history();
        let table = self.table();
        match table.place(tx) {
            Some(place) => silent_of(&table.rows()[place]),
            None => None,
        }
    }

    pub(crate) fn agenda(&self) -> &Agenda<A>
        ensures { result.now.rows ≡ table_of (history_of self.now) }
    {
        &self.agenda
    }
}
