//! What steps are checked against: a history, its table, and the atoms by number.

ghost use Rattle.std.specs.Prelude.{◌≡◌, ℕ, ◌<◌, true, false, IfOk, IfSome, IsTrue, slice_get};
ghost use Rattle.aud_history.specs.Histories.{is_in, is_before};
ghost use Rattle.aud_history.specs.Table.{RowOf, row_of, table_of};
ghost use Rattle.aud_history.specs.WellFormed.{IsWellFormed};
ghost use Rattle.aud_history.specs.FirstFault.{IsWithinLimits};
ghost use Rattle.aud_witness.specs.Orders.{is_allowed};
ghost use Rattle.aud_witness.specs.Configurations.{is_ended};
ghost use Rattle.judge_clauses.specs.Clauses.{atom_at};
ghost use Rattle.judge_clauses.specs.Touching.{mentions};

use crate::clause::Atom;
use crate::touched::marks_of_rows;
use aud_event::OutOfMemory;
use aud_history::{History, Status, TxRow};
use aud_witness::{Agenda, Fate, allows};
use base_bits::Marks;
use std::alloc::{Allocator, Global};
use std::marker::Model;

/// What is known of a history when a clause is judged: that it is well-formed, its table, and the atoms by number.
#[derive(Drop)]
pub struct KnownFacts<'a, A: Allocator + Copy = Global> {
    history: &'a History<A>,
    agenda: Agenda<A>,
    touched: Vec<Marks<A>, A>,
    atoms: &'a [Atom],
}

impl<'a, A: Allocator + Copy> Model for KnownFacts<'a, A> {
    ghost use Rattle.std.specs.Prelude.{◌≡◌};
    ghost use Rattle.aud_history.specs.Table.{table_of};
    ghost use Rattle.aud_history.specs.WellFormed.{IsWellFormed};
    ghost use Rattle.judge_clauses.specs.Clauses.{KnownFactsOf};
    ghost use Rattle.judge_clauses.specs.Touching.{AreMarked};

    ghost Value = { KnownFactsOf };

    ghost view = { λ f. record { plan = f.history.now.plan; history = f.history.now.events; atoms = f.atoms.now } };

    ghost invariant = { λ f. (f.agenda.rows ≡ table_of f.history.now.events)
        × (IsWellFormed f.history.now.events × AreMarked (table_of f.history.now.events) f.touched.items) };
}

/// Whether a transaction of that status is completed.
fn has_ended(status: Status) -> bool
    ensures { result ≡ is_ended status }
{
    match status {
        Status::Committed | Status::Aborted => true,
        Status::CommitPending | Status::Live => false,
    }
}

impl<'a, A: Allocator + Copy> KnownFacts<'a, A> {
    /// Those of the history, with the atoms.
    pub fn of(
        alloc: A,
        history: &'a History<A>,
        atoms: &'a [Atom],
    ) -> Result<KnownFacts<'a, A>, OutOfMemory>
        requires { IsWellFormed history.now.events }
        ensures { IfOk result (λ f. f ≡ record { plan = history.entry.now.plan; history = history.entry.now.events; atoms = atoms.entry.now }) }
    {
        let agenda = Agenda::of(alloc, history)?;
        let objects = history.plan().objects().len();
        let touched = marks_of_rows(alloc, objects, agenda.table().rows())?;
        Ok(KnownFacts {
            history,
            agenda,
            touched,
            atoms,
        })
    }

    /// The history.
    pub fn history(&self) -> &History<A>
        ensures history { result.now ≡ record { plan = self.now.plan; events = self.now.history } }
        ensures sound { IsWellFormed self.now.history }
        ensures within { IsWithinLimits self.now.plan self.now.history }
    {
        let _within = self.history.events();
        self.history
    }

    /// The rows of the table.
    pub fn rows(&self) -> &[TxRow<A>]
        ensures { result.now ≡ table_of self.now.history }
    {
        self.agenda.table().rows()
    }

    /// The place of the transaction's row, if the history has it.
    pub fn place(&self, tx: u32) -> Option<usize>
        ensures { IfSome result (λ k. slice_get (table_of self.now.history) k ≡ Some (row_of self.now.history tx)) }
    {
        self.agenda.table().place(tx)
    }

    /// The row of the transaction, if the history has it.
    pub fn row(&self, tx: u32) -> Option<&TxRow<A>>
        ensures { IfSome result (λ row. (row.now ≡ row_of self.now.history tx) × (is_in self.now.history tx ≡ true)) }
    {
        let table = self.agenda.table();
        let Some(place) = table.place(tx) else {
            return None;
        };
        let rows = table.rows();
        Some(&rows[place])
    }

    /// Whether the row of the place may have executions on the object. It looks at none of them.
    pub fn touches(&self, place: usize, object: u16) -> bool
        ensures { result ≡ false → (row : RowOf) → slice_get (table_of self.now.history) place ≡ Some row →
            mentions object row.block.executions ≡ false }
    {
        let object = usize::from(object);
        match self.touched.get(place) {
            Some(marks) => object >= marks.len() || marks.has(object),
            None => true,
        }
    }

    /// Whether the history has the transaction.
    pub fn is_there(&self, tx: u32) -> bool
        ensures { IsTrue result → is_in self.now.history tx ≡ true }
    {
        match self.row(tx) {
            Some(_) => true,
            None => false,
        }
    }

    /// The stamp of the transaction's last event, if it ended: it stands before each that began later.
    pub fn ended(&self, tx: u32) -> Option<u32>
        ensures { IfSome result (λ stamp. (u : ℕ) → is_in self.now.history u ≡ true → stamp < (row_of self.now.history u).first →
            is_before self.now.history tx u ≡ true) }
    {
        let row = self.row(tx)?;
        if has_ended(row.status()) {
            Some(row.last())
        } else {
            None
        }
    }

    /// Whether the first transaction ended before the second one began.
    pub fn is_before(&self, first: u32, second: u32) -> bool
        ensures { IsTrue result → is_before self.now.history first second ≡ true }
    {
        let Some(row) = self.row(first) else {
            return false;
        };
        let Some(other) = self.row(second) else {
            return false;
        };
        has_ended(row.status()) && row.last() < other.first()
    }

    /// Whether the transaction is in the history and cannot have the fate.
    pub fn cannot(&self, tx: u32, fate: Fate) -> bool
        ensures { IsTrue result → (is_in self.now.history tx ≡ true) × (is_allowed self.now.history tx fate ≡ false) }
    {
        let _sound = &self.history;
        let Some(row) = self.row(tx) else {
            return false;
        };
        !allows(row.status(), fate)
    }

    /// The atom of the number, if there is one.
    pub(crate) fn atom(&self, number: u32) -> Option<Atom>
        ensures { IfSome result (λ atom. atom_at self.now.atoms number ≡ atom) }
    {
        match self.atoms.get(number as usize) {
            Some(atom) => Some(*atom),
            None => None,
        }
    }
}
