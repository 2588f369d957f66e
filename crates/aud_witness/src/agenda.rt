//! What is read of a history before transactions are placed.

ghost use Rattle.std.specs.Prelude.{◌≡◌, IfOk};
ghost use Rattle.aud_history.specs.WellFormed.{IsWellFormed};
ghost use Rattle.aud_history.specs.Table.{table_of};
ghost use Rattle.aud_witness.specs.Configurations.{is_ended, status_allows};
ghost use Rattle.aud_witness.specs.Agendas.{ends_from, AreEnds};

use crate::decision::Fate;
use crate::end::End;
use aud_event::OutOfMemory;
use aud_history::{History, Status, TxRow, TxTable};
use std::alloc::{Allocator, Global};
use std::marker::Model;

/// The table of a history's transactions, with the order in which they ended.
#[derive(Drop)]
pub struct Agenda<A: Allocator + Copy = Global> {
    table: TxTable<A>,
    ends: Vec<End, A>,
}

impl<A: Allocator + Copy> Model for Agenda<A> {
    ghost use Rattle.aud_witness.specs.Agendas.{AgendaOf, AreEnds};

    ghost Value = { AgendaOf };

    ghost view = { λ a. record { rows = a.table; ends = a.ends.items } };

    ghost invariant = { λ a. AreEnds a.table a.ends.items };
}

/// Whether a transaction of the status is committed or aborted.
fn has_ended(status: Status) -> bool
    ensures { result ≡ is_ended status }
{
    match status {
        Status::Committed | Status::Aborted => true,
        Status::CommitPending | Status::Live => false,
    }
}

/// Whether a completion may give the fate to a transaction of the status.
pub fn allows(status: Status, fate: Fate) -> bool
    ensures { result ≡ status_allows status fate }
{
    match (status, fate) {
        (Status::Committed, Fate::C) => true,
        (Status::Committed, Fate::A) => false,
        (Status::Aborted, Fate::C) => false,
        (Status::Aborted, Fate::A) => true,
        (Status::CommitPending, _) => true,
        (Status::Live, Fate::C) => false,
        (Status::Live, Fate::A) => true,
    }
}

/// The ends of the rows that ended, by the rows' places.
fn ends_of<A: Allocator>(alloc: A, rows: &[TxRow<A>]) -> Result<Vec<End, A>, OutOfMemory>
    ensures { IfOk result (λ ends. ends.items ≡ ends_from 0 rows.now) }
{
    let mut ends = Vec::new(alloc);
    for (place, row) in rows.iter().enumerate() {
        if has_ended(row.status()) {
            ends.push(End {
                last: row.last(),
                row: place,
            })?;
        }
    }
    Ok(ends)
}

impl<A: Allocator + Copy> Agenda<A> {
    /// The agenda of a well-formed history, in O(n + m log m) time for n events of m transactions.
    pub fn of(alloc: A, history: &History<A>) -> Result<Agenda<A>, OutOfMemory>
        requires { IsWellFormed history.now.events }
        ensures { IfOk result (λ agenda. agenda.rows ≡ table_of history.now.events) }
    {
        let table = TxTable::of(alloc, history)?;
        let mut ends = ends_of(alloc, table.rows())?;
        ends.sort()?;
        Ok(Agenda { table, ends })
    }

    /// The table of the transactions.
    pub fn table(&self) -> &TxTable<A>
        ensures { result.now ≡ self.now.rows }
    {
        &self.table
    }

    /// The ends of the transactions that ended, the earliest first.
    pub(crate) fn ends(&self) -> &[End]
        ensures ends { result.now ≡ self.now.ends }
        ensures sound { AreEnds self.now.rows self.now.ends }
    {
        &self.ends
    }
}
