//! A cursor over the good prefixes of a history.

ghost use Rattle.std.specs.Prelude.{◌≡◌, ◌≢◌, ◌↔◌, ◌<◌, ◌-◌, ◌++◌, [], ◌∷◌, true, false, length, take, map, filter, IsTrue, IfOk, OnOk, OnErr};
ghost use Rattle.aud_kinds.specs.Objects.{opening_of};
ghost use Rattle.aud_object.specs.Executions.{states_after};
ghost use Rattle.aud_history.specs.Table.{table_of, transactions};
ghost use Rattle.aud_witness.specs.Orders.{is_named, kept, IsFull, IsGood};
ghost use Rattle.aud_witness.specs.OrderFaults.{is_enabled};
ghost use Rattle.aud_order.specs.Shapes.{objects_of, history_of};
ghost use Rattle.aud_order.specs.Cursors.{cursor_back, cursor_with, is_good_at, pushed_at, transaction_at, ArePlaced, IsCursorAfter, IsGoodAt};
ghost use Rattle.aud_order.specs.Kids.{AreKids, goods_at};

use crate::pushed::Pushed;
use crate::shape::Shape;
use aud_event::OutOfMemory;
use aud_object::Store;
use aud_witness::{Decision, Fate, Placing};
use base_bits::Marks;
use std::alloc::{Allocator, Global};
use std::marker::Model;

/// A good prefix of a history, with the states of all objects after what is kept of it.
///
/// A step forward costs what the block of its transaction touches, and so does a step back.
#[derive(Drop)]
pub struct Cursor<'a, A: Allocator + Copy = Global> {
    shape: &'a Shape<A>,
    placing: Placing<'a, A>,
    first_open: usize,
}

impl<'a, A: Allocator + Copy> Model for Cursor<'a, A> {
    ghost use Rattle.aud_order.specs.Cursors.{CursorOf, IsAt};

    ghost Value = { CursorOf };

    ghost view = { λ c. record { shape = c.shape.now; path = c.placing.path } };

    ghost invariant = { λ c. IsAt c.shape.now c.placing c.first_open };
}

/// How many rows are placed from the first one on, where the first `from` are.
fn open_from<A: Allocator + Copy>(placing: &Placing<A>, from: usize, count: usize) -> usize
    requires { ArePlaced placing.now.configuration.placed from }
    ensures { ArePlaced placing.now.configuration.placed result }
{
    let mut open = from;
    while open < count && placing.has_row(open) {
        open += 1;
    }
    open
}

impl<'a, A: Allocator + Copy> Cursor<'a, A> {
    /// A cursor at the empty prefix.
    pub fn root(alloc: A, shape: &'a Shape<A>) -> Result<Cursor<'a, A>, OutOfMemory>
        ensures { IfOk result (λ cursor. cursor ≡ record { shape = shape.entry.now; path = [] }) }
    {
        let placing = Placing::root(alloc, shape.plan(), shape.agenda())?;
        let _sound = shape.history();
        Ok(Cursor {
            shape,
            placing,
            first_open: 0,
        })
    }

    /// A cursor at the prefix, where it is good.
    pub fn after(
        alloc: A,
        shape: &'a Shape<A>,
        decisions: &[Decision],
    ) -> Result<Option<Cursor<'a, A>>, OutOfMemory>
        ensures { IfOk result (IsCursorAfter shape.entry.now decisions.now) }
    {
        let mut cursor = Cursor::root(alloc, shape)?;
        for decision in decisions {
            if !cursor.push(*decision)?.is_good() {
                return Ok(None);
            }
        }
        let _good = cursor.prefix();
        Ok(Some(cursor))
    }

    /// The decisions placed so far, in their order: they are good.
    pub fn prefix(&self) -> &[Decision]
        ensures prefix { result.now ≡ self.now.path }
        ensures good { IsGood (objects_of self.now.shape) (history_of self.now.shape) self.now.path }
    {
        self.placing.path()
    }

    /// The states of all objects after the blocks with fate C.
    pub fn store(&self) -> &Store<A>
        ensures { result.now.now ≡
            states_after (map opening_of (objects_of self.now.shape)) (kept (history_of self.now.shape) self.now.path) }
    {
        self.placing.store()
    }

    /// For each row of the table whether its transaction is placed.
    pub fn placed(&self) -> &Marks<A>
        ensures { result.now ≡ map (is_named self.now.path) (transactions (history_of self.now.shape)) }
    {
        self.placing.placed()
    }

    /// Whether the transaction is placed.
    pub fn has(&self, tx: u32) -> bool
        ensures { result ≡ is_named self.now.path tx }
    {
        match self.shape.table().place(tx) {
            Some(place) => self.placing.has_row(place),
            None => false,
        }
    }

    /// Whether every transaction of the history is placed.
    pub fn full(&self) -> bool
        ensures { IsTrue result ↔ IsFull (history_of self.now.shape) self.now.path }
    {
        self.placing.path().len() == self.shape.table().rows().len()
    }

    /// Places a decision after the others if it is good there, or reports the first thing that is wrong with it. Only where
    /// it is good the cursor changes.
    pub fn push(&mut self, decision: Decision) -> Result<Pushed, OutOfMemory>
        ensures reported { IfOk result (λ pushed. pushed ≡ pushed_at self.old decision) }
        ensures good { IfOk result (λ pushed. (pushed ≡ Pushed.Good) ↔ IsGoodAt self.old decision) }

        // Only a good decision moves the cursor.
        ensures goes { IfOk result (λ pushed. pushed ≡ Pushed.Good → self.new ≡ cursor_with self.old decision) }
        ensures stays { IfOk result (λ pushed. pushed ≢ Pushed.Good → self.new ≡ self.old) }
        ensures err { OnErr result (self.new ≡ self.old) }
    {
        let count = self.shape.table().rows().len();
        match self.placing.place(decision)? {
            Ok(()) => {
                self.first_open = open_from(&self.placing, self.first_open, count);
                Ok(Pushed::Good)
            }
            Err(fault) => Ok(Pushed::of_fault(fault)),
        }
    }

    /// Takes the last decision back; at the empty prefix it changes nothing and answers false. It does not allocate.
    pub fn pop(&mut self) -> bool
        ensures root { result ≡ false → (self.old.path ≡ []) × (self.new ≡ self.old) }
        ensures back { result ≡ true → (self.old.path ≢ []) × (self.new ≡ cursor_back self.old) }
    {
        let Some(row) = self.placing.take_back() else {
            return false;
        };
        self.first_open = self.first_open.min(row);
        true
    }

    /// Whether the decision is good there. The cursor stays as it is.
    fn is_good(&mut self, decision: Decision) -> Result<bool, OutOfMemory>
        ensures good { IfOk result (λ good. good ≡ is_good_at self.old decision) }
        ensures stays { self.new ≡ self.old }
    {
        match self.placing.place(decision)? {
            Ok(()) => {
                let _ = self.placing.take_back();
                Ok(true)
            }
            Err(_) => Ok(false),
        }
    }

    /// Adds the decision if it is good there. The cursor stays as it is.
    fn add_kid(
        &mut self,
        kids: &mut Vec<Decision, A>,
        decision: Decision,
    ) -> Result<(), OutOfMemory>
        ensures added { OnOk result (kids.new.items ≡ kids.old.items ++ filter (is_good_at self.old) (decision ∷ [])) }
        ensures stays { self.new ≡ self.old }
    {
        if self.is_good(decision)? {
            kids.push(decision)?;
        }
        Ok(())
    }

    /// Adds the decisions on the transaction of the row at the place that are good there.
    fn add_row(
        &mut self,
        kids: &mut Vec<Decision, A>,
        place: usize,
        tx: u32,
    ) -> Result<(), OutOfMemory>
        requires inside { place < length (table_of (history_of self.old.shape)) }
        requires row { tx ≡ transaction_at self.old place }
        ensures added { OnOk result (kids.new.items ≡ kids.old.items ++ goods_at self.old (tx ∷ [])) }
        ensures stays { self.new ≡ self.old }
    {
        if self.placing.has_row(place) {
            return Ok(());
        }
        let commit = Decision { tx, fate: Fate::C };
        self.add_kid(kids, commit)?;
        let abort = Decision { tx, fate: Fate::A };
        self.add_kid(kids, abort)?;
        Ok(())
    }

    /// Whether all that ended before the transaction of the row at the place began are placed.
    pub fn is_enabled(&self, place: usize) -> bool
        requires { place < length (table_of (history_of self.now.shape)) }
        ensures { result ≡ is_enabled (history_of self.now.shape) self.now.path (transaction_at self.now place) }
    {
        let row = &self.shape.table().rows()[place];
        self.placing.are_earlier_placed(row.first())
    }

    /// The first row that may be not placed.
    fn first_open(&self) -> usize
        ensures { goods_at self.now (take result (transactions (history_of self.now.shape))) ≡ [] }
    {
        self.first_open
    }

    /// The decisions that are good there, the least first. It costs what the blocks of the transactions cost that are
    /// ready, and looks at no row after the first that began too late. The cursor stays as it is.
    pub fn kids(&mut self, alloc: A) -> Result<Vec<Decision, A>, OutOfMemory>
        ensures kids { IfOk result (λ kids. AreKids (objects_of self.old.shape) (history_of self.old.shape) self.old.path kids.items) }
        ensures stays { self.new ≡ self.old }
    {
        let rows = self.shape.table().rows();
        let mut kids = Vec::new(alloc);
        let mut place = self.first_open();
        'rows: while place < rows.len() && self.is_enabled(place) {
            self.add_row(&mut kids, place, rows[place].tx())?;
            place += 1;
        }
        kids.sort()?;
        Ok(kids)
    }
}
