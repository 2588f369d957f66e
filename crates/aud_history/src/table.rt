//! The transactions of a history in the order of their first events, each with what it did.

ghost use Rattle.std.specs.Prelude.{◌≡◌, ◌<◌, ℕ, None, IfOk, OnOk, OnErr, length, nat_eq, map, slice_index_or};
ghost use Rattle.std.specs.List.{position};
ghost use Rattle.aud_history.specs.WellFormed.{IsWellFormed};
ghost use Rattle.aud_history.specs.Table.{table_of, with_event, fresh_row, rows_with};

use crate::history::History;
use crate::status::Status;
use aud_event::limits::TRANSACTIONS;
use aud_event::{Event, OutOfMemory};
use aud_object::{Block, Invocation};
use indexmap::IndexSet;
use std::alloc::{Allocator, Global};
use std::hash::{BuildHasherDefault, FoldHasher};
use std::marker::Model;

/// What one transaction did: its executions and the invocation that still waits, what became of it, and the stamps of
/// its first and last events.
#[derive(Debug, Drop)]
pub struct TxRow<A: Allocator = Global> {
    tx: u32,
    block: Block<A>,
    status: Status,
    first: u32,
    last: u32,
}

impl<A: Allocator> Model for TxRow<A> {
    ghost use Rattle.aud_history.specs.Table.{RowOf};

    ghost Value = { RowOf };

    ghost view = { λ r. record { tx = r.tx; block = r.block; status = r.status; first = r.first; last = r.last } };
}

impl<A: Allocator> TxRow<A> {
    /// The transaction's number.
    pub fn tx(&self) -> u32
        ensures { result ≡ self.now.tx }
    {
        self.tx
    }

    /// What it did on objects.
    pub fn block(&self) -> &Block<A>
        ensures { result.now ≡ self.now.block }
    {
        &self.block
    }

    /// What became of it.
    pub fn status(&self) -> Status
        ensures { result ≡ self.now.status }
    {
        self.status
    }

    /// The stamp of its first event.
    pub fn first(&self) -> u32
        ensures { result ≡ self.now.first }
    {
        self.first
    }

    /// The stamp of its last event.
    pub fn last(&self) -> u32
        ensures { result ≡ self.now.last }
    {
        self.last
    }

    /// The row of a transaction whose first event is still to come, at the stamp.
    fn fresh(alloc: A, tx: u32, stamp: u32) -> TxRow<A>
        ensures { result ≡ fresh_row tx stamp }
    {
        TxRow {
            tx,
            block: Block::empty(alloc),
            status: Status::Live,
            first: stamp,
            last: 0,
        }
    }

    /// Adds the transaction's event at the stamp. A refused growth leaves the row.
    fn add(&mut self, stamp: u32, event: Event) -> Result<(), OutOfMemory>
        ensures ok { OnOk result (self.new ≡ with_event self.old stamp event) }
        ensures err { OnErr result (self.new ≡ self.old) }
    {
        match event {
            Event::Inv(object, op) => self.block.invoke(Invocation { object, op }),
            Event::Ret(_, _, answer) => self.block.answer(answer)?,
            Event::TryC => self.status = Status::CommitPending,
            Event::TryA => {}
            Event::Commit => self.status = Status::Committed,
            Event::Abort => self.status = Status::Aborted,
        }
        self.last = stamp;
        Ok(())
    }
}

/// A set of numbers in the order in which they came.
type Numbers<A> = IndexSet<u32, BuildHasherDefault<FoldHasher>, A>;

/// The rows of all transactions of a history, by their first events. Beside them stands at each number the place of its
/// transaction's row, so that a step of a search, which asks for it, costs no hash.
#[derive(Drop)]
pub struct TxTable<A: Allocator + Copy = Global> {
    places: Vec<Option<usize>, A>,
    rows: Vec<TxRow<A>, A>,
}

impl<A: Allocator + Copy> Model for TxTable<A> {
    ghost use Rattle.std.specs.Prelude.{List, map};
    ghost use Rattle.aud_history.specs.Table.{RowOf, ArePlacesOf};

    ghost Value = { List RowOf };

    ghost view = { λ t. t.rows.items };

    ghost invariant = { λ t. ArePlacesOf (map (λ r. r.tx) t.rows.items) t.places.items };
}

/// Adds an event to its transaction's row, or to a row of its own after the others.
fn add_event<A: Allocator + Copy>(
    alloc: A,
    numbers: &mut Numbers<A>,
    rows: &mut Vec<TxRow<A>, A>,
    stamp: u32,
    tx: u32,
    event: Event,
) -> Result<(), OutOfMemory>
    requires { numbers.old.keys ≡ map (λ r. r.tx) rows.old.items }
    ensures keys { OnOk result (numbers.new.keys ≡ map (λ r. r.tx) rows.new.items) }
    ensures rows { OnOk result (rows.new.items ≡ rows_with rows.old.items tx stamp event) }
{
    match numbers.get_index_of(&tx) {
        Some(place) => rows[place].add(stamp, event),
        None => {
            let mut row = TxRow::fresh(alloc, tx, stamp);
            row.add(stamp, event)?;
            numbers.insert(tx)?;
            rows.push(row)?;
            Ok(())
        }
    }
}

/// At each number that a transaction may have its place in the set.
fn places_of<A: Allocator + Copy>(
    alloc: A,
    numbers: &Numbers<A>,
) -> Result<Vec<Option<usize>, A>, OutOfMemory>
    ensures count { IfOk result (λ places. length places.items ≡ TRANSACTIONS) }
    ensures places { IfOk result (λ places. (t : ℕ) → t < TRANSACTIONS →
        slice_index_or places.items t None ≡ position (nat_eq t) numbers.now.keys) }
{
    let mut places = Vec::with_capacity(alloc, TRANSACTIONS as usize)?;
    for number in 0..TRANSACTIONS {
        places.push(numbers.get_index_of(&number))?;
    }
    Ok(places)
}

impl<A: Allocator + Copy> TxTable<A> {
    /// The table of a well-formed history, in one pass over its events.
    pub fn of(alloc: A, history: &History<A>) -> Result<TxTable<A>, OutOfMemory>
        requires { IsWellFormed history.now.events }
        ensures { IfOk result (λ table. table ≡ table_of history.now.events) }
    {
        let mut numbers = IndexSet::new(alloc);
        let mut rows = Vec::new(alloc);
        for (stamp, (tx, event)) in history.events().iter().enumerate() {
            add_event(alloc, &mut numbers, &mut rows, stamp as u32, *tx, *event)?;
        }
        let places = places_of(alloc, &numbers)?;
        Ok(TxTable { places, rows })
    }

    /// The rows, by the first events of their transactions.
    pub fn rows(&self) -> &[TxRow<A>]
        ensures { result.now ≡ self.now }
    {
        &self.rows
    }

    /// The place of a transaction's row, if the history has the transaction.
    pub fn place(&self, tx: u32) -> Option<usize>
        ensures { result ≡ position (nat_eq tx) (map (λ r. r.tx) self.now) }
    {
        match self.places.get(tx as usize) {
            Some(place) => *place,
            None => None,
        }
    }
}
