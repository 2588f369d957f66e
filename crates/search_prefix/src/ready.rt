//! Which choices may be good, by what is placed.

ghost use Rattle.std.specs.Prelude.{◌≡◌, ◌<◌, length, Some, None, IfOk, MatchOption, slice_set};
ghost use Rattle.base_bits.specs.Marked.{IsNextMark};
ghost use Rattle.aud_order.specs.Shapes.{history_of};
ghost use Rattle.search_memo.specs.Choices.{AreChoices};
ghost use Rattle.search_prefix.specs.Readiness.{chosen, HasRows, HoldsBack, IsReady, IsReadyAfter, IsReadyBefore, IsRowMarked};

use aud_event::OutOfMemory;
use aud_order::{Cursor, Shape};
use aud_witness::{Decision, Fate};
use base_bits::Marks;
use search_memo::Choice;
use std::alloc::{Allocator, Global};
use std::marker::Model;

/// The places of a row's choices, by their fates.
#[derive(Clone, Copy)]
pub(crate) struct RowChoices {
    pub commit: Option<usize>,
    pub abort: Option<usize>,
}

/// A mark for each choice of a transaction that is not placed and that no transaction before it in real-time order keeps
/// waiting.
///
/// The rows stand by their first events, so those that need not wait are the first so many. A step forward or back moves
/// that boundary, and costs what it passes.
#[derive(Drop)]
pub(crate) struct Ready<'a, A: Allocator + Copy = Global> {
    shape: &'a Shape<A>,
    choices: &'a [Choice],
    rows: Vec<RowChoices, A>,
    marks: Marks<A>,
    begun: usize,
}

impl<'a, A: Allocator + Copy> Model for Ready<'a, A> {
    ghost use Rattle.std.specs.Prelude.{◌≡◌, length};
    ghost use Rattle.aud_order.specs.Shapes.{history_of};
    ghost use Rattle.search_memo.specs.Choices.{AreChoices};
    ghost use Rattle.search_prefix.specs.Readiness.{ReadyOf, HasRows};

    ghost Value = { ReadyOf };

    ghost view = { λ r. record { shape = r.shape.now; choices = r.choices.now; marks = r.marks; begun = r.begun } };

    ghost invariant = { λ r. AreChoices (history_of r.shape.now) r.choices.now
        × HasRows r.choices.now (length r.choices.now) r.rows.items
        × (length r.marks ≡ length r.choices.now) };
}

impl RowChoices {
    /// With the place of the choice with the fate.
    fn with(self, fate: Fate, place: usize) -> RowChoices
        ensures own { chosen result fate ≡ Some place }
        ensures other { (f : _) → (f ≡ fate → ⊥) → chosen result f ≡ chosen self f }
    {
        match fate {
            Fate::C => RowChoices {
                commit: Some(place),
                abort: self.abort,
            },
            Fate::A => RowChoices {
                commit: self.commit,
                abort: Some(place),
            },
        }
    }
}

/// The places of the choices of each of so many rows.
fn rows_of<A: Allocator + Copy>(
    alloc: A,
    shape: &Shape<A>,
    choices: &[Choice],
) -> Result<Vec<RowChoices, A>, OutOfMemory>
    requires { AreChoices (history_of shape.now) choices.now }
    ensures { IfOk result (λ rows. HasRows choices.now (length choices.now) rows.items) }
{
    let none = RowChoices {
        commit: None,
        abort: None,
    };
    let mut rows = vec![in alloc; none; shape.table().rows().len()]?;
    for (place, choice) in choices.iter().enumerate() {
        rows[choice.place] = rows[choice.place].with(choice.decision.fate, place);
    }
    Ok(rows)
}

/// Writes the mark of a place, if there is one.
fn set_mark<A: Allocator + Copy>(marks: &mut Marks<A>, place: Option<usize>, mark: bool)
    requires { MatchOption place (Unit {0}) (λ k. k < length marks.old) }
    ensures { MatchOption place (marks.new ≡ marks.old) (λ k. marks.new ≡ slice_set marks.old k mark) }
{
    match place {
        None => {}
        Some(place) => {
            if mark {
                marks.put(place);
            } else {
                marks.clear(place);
            }
        }
    }
}

impl<'a, A: Allocator + Copy> Ready<'a, A> {
    /// The marks at the cursor's prefix.
    pub(crate) fn at(
        alloc: A,
        shape: &'a Shape<A>,
        choices: &'a [Choice],
        cursor: &Cursor<A>,
    ) -> Result<Ready<'a, A>, OutOfMemory>
        requires choices { AreChoices (history_of shape.now) choices.now }
        requires shape { shape.now ≡ cursor.now.shape }
        ensures ready { IfOk result (λ ready. IsReady ready cursor.now) }
        ensures choices { IfOk result (λ ready. ready.choices ≡ choices.entry.now) }
    {
        let rows = rows_of(alloc, shape, choices)?;
        let marks = Marks::none(alloc, choices.len())?;
        let mut ready = Ready {
            shape,
            choices,
            rows,
            marks,
            begun: 0,
        };
        ready.begin_rows(cursor);
        Ok(ready)
    }

    /// The first choice from a place on that may be good.
    pub(crate) fn next(&self, from: usize) -> Option<usize>
        ensures next { IsNextMark self.now.marks from result }
        ensures inside { MatchOption result (Unit {0}) (λ k. k < length self.now.choices) }
    {
        self.marks.next(from)
    }

    /// Writes the marks of the row's choices.
    fn set_row(&mut self, row: usize, mark: bool)
        ensures { IsRowMarked self.old self.new row mark }
    {
        if row >= self.rows.len() {
            return;
        }
        let places = self.rows[row];
        set_mark(&mut self.marks, places.commit, mark);
        set_mark(&mut self.marks, places.abort, mark);
    }

    /// Marks the choices of the rows that need no longer wait.
    fn begin_rows(&mut self, cursor: &Cursor<A>)
        requires { HoldsBack self.old cursor.now }
        ensures ready { IsReady self.new cursor.now }
        ensures choices { self.new.choices ≡ self.old.choices }
    {
        let count = self.shape.table().rows().len();
        while self.begun < count && cursor.is_enabled(self.begun) {
            let is_open = !cursor.placed().has(self.begun);
            self.set_row(self.begun, is_open);
            self.begun += 1;
        }
    }

    /// The cursor went one decision further.
    pub(crate) fn go_on(&mut self, decision: Decision, cursor: &Cursor<A>)
        requires { IsReadyAfter self.old cursor.now decision }
        ensures ready { IsReady self.new cursor.now }
        ensures choices { self.new.choices ≡ self.old.choices }
    {
        if let Some(row) = self.shape.table().place(decision.tx) {
            self.set_row(row, false);
        }
        self.begin_rows(cursor);
    }

    /// The cursor went back by the decision.
    pub(crate) fn backtrack(&mut self, decision: Decision, cursor: &Cursor<A>)
        requires { IsReadyBefore self.old cursor.now decision }
        ensures ready { IsReady self.new cursor.now }
        ensures choices { self.new.choices ≡ self.old.choices }
    {
        if let Some(row) = self.shape.table().place(decision.tx) {
            self.set_row(row, true);
        }
        while self.begun > 0 && !cursor.is_enabled(self.begun - 1) {
            self.begun -= 1;
            self.set_row(self.begun, false);
        }
    }
}
