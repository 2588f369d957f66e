//! Runs that only count: what their rows do with cells, and an order of them by a beam.

use crate::literals::{FALSE, NONE, TRUE, Table, at};
use crate::problem::Problem;
use crate::spans::{Span, instant, span_of};
use aud_event::OutOfMemory;
use aud_witness::{Decision, Fate};
use search_counts::{Breadth, Row, Touch, WEIGHTS, find};
use std::alloc::Global;

/// What the rows do with counters and elements of sets, each a cell, as far as it is read; and whether they touch nothing else. Where they do
/// not, the rows, as a beam asks for them, and when each takes effect, if that is in the middle of its time, in order.
#[derive(Drop)]
pub(crate) struct Counting {
    pub touches: Table<Touch>,
    pub openings: Table<i64>,
    pub is_all: bool,
    rows: Table<Row>,
    middles: Table<u64>,
}

impl Counting {
    /// Of nothing yet. It does not allocate.
    pub(crate) fn empty(alloc: Global) -> Counting {
        Counting {
            touches: Table::new(alloc, NO_TOUCH),
            openings: Table::new(alloc, 0),
            is_all: true,
            rows: Table::new(alloc, NO_ROW),
            middles: Table::new(alloc, 0),
        }
    }

    /// Whether some growth was refused.
    pub(crate) fn is_short(&self) -> bool {
        self.touches.is_short()
            | self.openings.is_short()
            | self.rows.is_short()
            | self.middles.is_short()
    }
}

const NO_TOUCH: Touch = Touch {
    row: 0,
    cell: 0,
    need: None,
    gain: 0,
};

const NO_ROW: Row = Row {
    end: 0,
    due: 0,
    has_ended: false,
    may_commit: false,
    may_abort: false,
};

/// How many of the sorted numbers are less.
fn count_less(numbers: &[u64], number: u64) -> usize {
    let mut low = 0;
    let mut high = numbers.len();
    for _ in 0..64 {
        if low >= high {
            break;
        }
        let middle = low.midpoint(high);
        if at(numbers, middle, 0) >= number {
            high = middle;
        } else {
            low = middle.saturating_add(1);
        }
    }
    low
}

/// Puts what the rows do in order, and lists them for a beam, if they touch nothing but counters and elements of sets.
pub(crate) fn list_rows(counting: &mut Counting, spans: &[Span]) {
    if !counting.is_all {
        return;
    }
    counting.touches.items_mut().sort_unstable();
    for span in spans {
        counting.middles.add(instant(*span, 10));
    }
    counting.middles.items_mut().sort_unstable();
    for span in spans {
        let end = u64::from(span.last).wrapping_mul(20);
        counting.rows.add(Row {
            end: span.end,
            due: count_less(counting.middles.items(), end),
            has_ended: span.last != NONE,
            may_commit: span.commits != FALSE,
            may_abort: span.commits != TRUE,
        });
    }
}

/// Puts an order by the beam of that number, if it finds one within so much work and so many bytes. It gives whether it does, and how much it did: a
/// look at a row is some units. The beam is twice as wide once all weights were tried; a row of each beginning takes some bytes.
pub(crate) fn find_order(
    alloc: Global,
    problem: &Problem,
    order: &mut Table<Decision>,
    number: usize,
    most: u64,
    bytes: usize,
) -> Result<(bool, u64), OutOfMemory> {
    let counting = &problem.counting;
    let doubled = (number / WEIGHTS.len()).min(32) as u32;
    let width = 256usize.wrapping_shl(doubled);
    if width.saturating_mul(counting.rows.len()).saturating_mul(64) > bytes {
        return Ok((false, 0));
    }
    let weights = at(&WEIGHTS, number % WEIGHTS.len(), WEIGHTS[0]);
    let most = most / 4;
    let breadth = Breadth { width, most };
    let found = find(
        alloc,
        counting.rows.items(),
        counting.touches.items(),
        counting.openings.items(),
        weights,
        breadth,
    )?;
    let work = found.work.saturating_mul(4);
    let Some(placed) = &found.order else {
        return Ok((false, work));
    };
    order.clear();
    for step in placed.iter() {
        let tx = span_of(&problem.spans, step.row).tx;
        let fate = if step.commits { Fate::C } else { Fate::A };
        order.add(Decision { tx, fate });
    }
    Ok((true, work))
}
