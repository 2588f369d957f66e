//! Orders that a search found, and their trial.

use crate::closure::{Closure, is_before};
use crate::encoding::{Clauses, LITERALS, Origin, add_clause};
use crate::engine::Ranking;
use crate::known::{Antecedent, Known, assign};
use crate::literals::{FALSE, NONE, Table, neg, short};
use crate::solver::{Solver, backjump};
use crate::spans::{Span, before, instant, span_of};
use crate::watches::watch_both;
use aud_event::OutOfMemory;
use aud_order::{Cursor, Shape};
use aud_witness::{Decision, Fate};
use std::alloc::Global;

/// The order that was tried last, as rows and as decisions; of each row how many of those stand before it that are not placed yet; the
/// clause of an order that was tried in vain; and the rows in the order of an instant.
#[derive(Drop)]
pub(crate) struct Trial {
    rows: Table<usize>,
    pub order: Table<Decision>,
    counts: Table<u32>,
    blocked: Table<u32>,
    pub ranking: Ranking,
}

pub(crate) const NO_DECISION: Decision = Decision {
    tx: 0,
    fate: Fate::A,
};

impl Trial {
    /// Of no order yet. It does not allocate.
    pub(crate) fn empty(alloc: Global) -> Trial {
        Trial {
            rows: Table::new(alloc, 0),
            order: Table::new(alloc, NO_DECISION),
            counts: Table::new(alloc, NONE),
            blocked: Table::new(alloc, FALSE),
            ranking: Ranking::empty(alloc),
        }
    }

    /// Whether some growth was refused.
    pub(crate) fn is_short(&self) -> bool {
        self.rows.is_short()
            | self.order.is_short()
            | self.counts.is_short()
            | self.blocked.is_short()
            | self.ranking.is_short()
    }
}

/// The next row of a topological order: of those that are not placed and wait for no row, the one that took effect first; or the number of
/// rows, where there is none.
fn first_free(spans: &[Span], counts: &Table<u32>) -> usize {
    let mut best = 0;
    let mut found = spans.len();
    for row in 0..spans.len() {
        if counts.at(row) == 0 {
            let key = instant(span_of(spans, row), 15);
            if found == spans.len() || key < best {
                best = key;
                found = row;
            }
        }
    }
    found
}

/// Of each row how many stand before it.
fn count_before(counts: &mut Table<u32>, closure: &Closure, rows: usize) {
    let words = closure.words;
    counts.clear();
    for row in 0..rows {
        let from = row.wrapping_mul(words);
        let mut count: u32 = 0;
        for place in from..from.wrapping_add(words) {
            count = count.wrapping_add(closure.before.at(place).count_ones());
        }
        counts.add(count);
    }
}

/// The row is placed: those after it wait for one row less.
fn place_row(counts: &mut Table<u32>, closure: &Closure, row: usize) {
    counts.set(row, NONE);
    for other in 0..counts.len() {
        if is_before(closure, row, other) {
            let count = counts.at(other);
            counts.set(other, count.wrapping_sub(1));
        }
    }
}

/// Lists the rows in a topological order.
fn list_rows(rows: &mut Table<usize>, counts: &mut Table<u32>, spans: &[Span], closure: &Closure) {
    count_before(counts, closure, spans.len());
    rows.clear();
    for _ in 0..spans.len() {
        let row = first_free(spans, counts);
        place_row(counts, closure, row);
        rows.add(row);
    }
}

/// Lists what is decided of the rows.
fn list_decisions(order: &mut Table<Decision>, rows: &Table<usize>, spans: &[Span], known: &Known) {
    order.clear();
    for place in 0..rows.len() {
        let span = span_of(spans, rows.at(place));
        let mut fate = Fate::A;
        if known.value(span.commits) == 1 {
            fate = Fate::C;
        }
        order.add(Decision { tx: span.tx, fate });
    }
}

/// Lists the rows in a topological order, and what is decided of them.
fn list_order(trial: &mut Trial, spans: &[Span], closure: &Closure, known: &Known) {
    let rows = &mut trial.rows;
    list_rows(rows, &mut trial.counts, spans, closure);
    list_decisions(&mut trial.order, rows, spans, known);
}

/// Puts the rows in an order that the search found, a topological one, and notes their decisions.
pub(crate) fn order_rows(solver: &Solver<'_>, trial: &mut Trial) {
    let spans = &solver.problem.spans[..];
    list_order(trial, spans, solver.closure, solver.known);
}

/// The place of the first decision that is not good after those of the cursor, if there is one.
fn first_refused(
    cursor: &mut Cursor<'_>,
    decisions: &[Decision],
) -> Result<Option<usize>, OutOfMemory> {
    for place in 0..decisions.len() {
        if !cursor.push(decisions[place])?.is_good() {
            return Ok(Some(place));
        }
    }
    if cursor.full() {
        return Ok(None);
    }
    Ok(Some(decisions.len()))
}

/// The place of the first decision that is not good, if there is one.
pub(crate) fn first_bad(
    alloc: Global,
    shape: &Shape,
    decisions: &[Decision],
) -> Result<Option<usize>, OutOfMemory> {
    let mut cursor = Cursor::root(alloc, shape)?;
    first_refused(&mut cursor, decisions)
}

/// Adds the literals that those that commit before the place do not stand there in this order.
fn deny_before(
    blocked: &mut Table<u32>,
    rows: &Table<usize>,
    spans: &[Span],
    known: &Known,
    place: usize,
) {
    if place >= rows.len() {
        return;
    }
    let mut last = NONE as usize;
    for index in 0..place.saturating_add(1) {
        let row = rows.at(index);
        let commits = span_of(spans, row).commits;
        let is_last = index == place;
        if is_last | (known.value(commits) == 1) {
            if last != NONE as usize {
                blocked.add(before(spans, row, last));
            }
            if !is_last {
                blocked.add(neg(commits));
            }
            last = row;
        }
    }
}

/// Adds the literals that another one commits and stands before the row at the place.
fn deny_after(
    blocked: &mut Table<u32>,
    rows: &Table<usize>,
    spans: &[Span],
    known: &Known,
    place: usize,
) {
    let row = rows.at(place);
    for index in 0..rows.len() {
        let other = rows.at(index);
        let commits = span_of(spans, other).commits;
        let holds = known.value(commits) == 1;
        if (index > place) & holds & (commits != FALSE) {
            blocked.add(before(spans, other, row));
        }
        if (index != place) & !holds & (commits != FALSE) {
            blocked.add(commits);
        }
    }
}

/// Puts those literals first that do not fail, and gives how many.
fn put_open_first(blocked: &mut Table<u32>, known: &Known) -> usize {
    let mut open: usize = 0;
    for index in 0..blocked.len() {
        let literal = blocked.at(index);
        if known.value(literal) != -1 {
            blocked.set(index, blocked.at(open));
            blocked.set(open, literal);
            open = open.wrapping_add(1);
        }
    }
    open
}

/// Adds the clause of the literals, of which the first ones do not fail, so many. Where that is one it holds.
fn add_blocked(clauses: &mut Clauses, known: &mut Known, blocked: &[u32], open: usize) {
    let number = short(clauses.arena.len());
    add_clause(clauses, Origin::Tried, blocked);
    watch_both(clauses.arena.items_mut(), clauses.heads.items_mut(), number);
    if open == 1 {
        let first = clauses.arena.at((number as usize).wrapping_add(LITERALS));
        assign(known, first, Antecedent::Clause(number));
    }
}

/// Lists the literals of which one is to hold, as the row at the place is not legal after exactly those that commit before it, in this order.
fn list_blocked(trial: &mut Trial, spans: &[Span], known: &Known, place: usize) {
    let (blocked, rows) = (&mut trial.blocked, &trial.rows);
    blocked.clear();
    deny_before(blocked, rows, spans, known, place);
    deny_after(blocked, rows, spans, known, place);
}

/// Adds the clause of the listed literals. False where each of them fails.
fn add_listed(clauses: &mut Clauses, known: &mut Known, blocked: &mut Table<u32>) -> bool {
    let open = put_open_first(blocked, known);
    add_blocked(clauses, known, blocked.items(), open);
    open > 0
}

/// The row at the place is not legal after exactly those that commit before it, in this order: the search goes on without that. False
/// where nothing is left. Those literals of its clause come first that do not fail.
pub(crate) fn block(solver: &mut Solver<'_>, trial: &mut Trial, place: usize) -> bool {
    list_blocked(trial, &solver.problem.spans, solver.known, place);
    backjump(solver, 0);
    let clauses = &mut solver.problem.clauses;
    add_listed(clauses, solver.known, &mut trial.blocked)
}
