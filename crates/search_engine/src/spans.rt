//! When transactions ran, and the variables of the pairs that real time leaves open.

use crate::literals::{FALSE, NONE, TRUE, at, neg, push, short};
use aud_event::OutOfMemory;
use aud_history::{Status, TxRow};

/// When a transaction ran.
#[derive(Clone, Copy)]
pub(crate) struct Span {
    pub tx: u32,
    pub first: u32,
    /// The stamp of its end, or the greatest number where it did not end.
    pub last: u32,
    /// The stamp of its last event.
    pub until: u32,
    /// The first row that began after it ended.
    pub end: usize,
    /// The variable of the pair with the next row. Those with the rows after it follow.
    pub base: usize,
    /// The literal that it commits.
    pub commits: u32,
}

/// A transaction that does not matter.
pub(crate) const NOBODY: Span = Span {
    tx: 0,
    first: 0,
    last: 0,
    until: 0,
    end: 0,
    base: 0,
    commits: FALSE,
};

/// The row's span at the place, or one that does not matter.
pub(crate) fn span_of(spans: &[Span], row: usize) -> Span {
    at(spans, row, NOBODY)
}

/// The literal that the row stands before a later one.
fn before_later(spans: &[Span], row: usize, later: usize) -> u32 {
    let found = span_of(spans, row);
    if later >= found.end {
        return TRUE;
    }
    let gap = later.wrapping_sub(row).wrapping_sub(1);
    short(found.base.wrapping_add(gap)).wrapping_mul(2)
}

/// The literal that the one row stands before the other.
pub(crate) fn before(spans: &[Span], row: usize, other: usize) -> u32 {
    if row < other {
        before_later(spans, row, other)
    } else if other < row {
        neg(before_later(spans, other, row))
    } else {
        FALSE
    }
}

/// The literal that the row, whose span is given, stands before the other.
pub(crate) fn before_by(spans: &[Span], found: Span, row: usize, other: usize) -> u32 {
    if other > row && other < found.end {
        let gap = other.wrapping_sub(row).wrapping_sub(1);
        short(found.base.wrapping_add(gap)).wrapping_mul(2)
    } else {
        before(spans, row, other)
    }
}

/// The first row that began after the stamp.
fn first_after(spans: &[Span], stamp: u32) -> usize {
    let mut low = 0;
    let mut high = spans.len();
    for _ in 0..64 {
        if low >= high {
            break;
        }
        let middle = low.midpoint(high);
        if span_of(spans, middle).first > stamp {
            high = middle;
        } else {
            low = middle.saturating_add(1);
        }
    }
    low
}

/// When the row ran. Its pairs are not numbered yet, and the literal that it commits is still none, if its fate is open.
fn read_span(row: &TxRow) -> Span {
    let mut span = NOBODY;
    span.tx = row.tx();
    span.first = row.first();
    span.last = row.last();
    span.until = row.last();
    match row.status() {
        Status::Committed => span.commits = TRUE,
        Status::Aborted => {}
        Status::CommitPending => {
            span.last = NONE;
            span.commits = NONE;
        }
        Status::Live => span.last = NONE,
    }
    span
}

/// Reads the rows' spans. The literals that those commit whose fates are open are still none.
pub(crate) fn read_spans(spans: &mut Vec<Span>, rows: &[TxRow]) -> Result<(), OutOfMemory> {
    for row in 0..rows.len() {
        push(spans, read_span(&rows[row]))?;
    }
    number_pairs(spans);
    Ok(())
}

/// Finds which pairs are open, and numbers them from 1.
fn number_pairs(spans: &mut [Span]) {
    let mut base: usize = 1;
    for row in 0..spans.len() {
        let end = first_after(spans, spans[row].last);
        spans[row].end = end;
        spans[row].base = base;
        base = base.wrapping_add(end.saturating_sub(row.wrapping_add(1)));
    }
}

/// How many pairs are open.
pub(crate) fn count_pairs(spans: &[Span]) -> usize {
    match spans.last() {
        Some(last) => last.base.wrapping_sub(1),
        None => 0,
    }
}

/// When a transaction takes effect, if that is after so many twentieths of each one's time.
pub(crate) fn instant(found: Span, twentieths: u64) -> u64 {
    let first = u64::from(found.first);
    let time = u64::from(found.until)
        .saturating_sub(first)
        .wrapping_mul(twentieths);
    first.wrapping_mul(20).wrapping_add(time)
}
