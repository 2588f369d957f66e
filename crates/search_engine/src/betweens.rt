//! Between a source and its reader nobody writes.

use crate::cells::{CellOf, CellUse, Cells};
use crate::known::{Antecedent, Conflict, Known, assign};
use crate::literals::{FALSE, NONE, TRUE, neg, short};
use crate::spans::{Span, before, span_of};
use search_model::{Need, meets};

/// The literal that the other row stands before that one, or that never holds, if that one is none, as of the opening.
fn before_row(spans: &[Span], other: usize, row: u32) -> u32 {
    if row == NONE {
        FALSE
    } else {
        before(spans, other, row as usize)
    }
}

/// The clause of a source and another writer of its cell: it is not the source, or the other one does not commit, does not stand before the
/// reader, or stands before the source. Where the other one is the reader or the source it holds in any case.
pub(crate) fn clause_of(cells: &Cells, spans: &[Span], source: u32, writer: u32) -> [u32; 4] {
    let found = cells.sources.at(source as usize);
    let reader = cells.readers.at(found.reader as usize).row;
    let other = cells.writers.at(writer as usize);
    if (other.row == reader) | (found.writer == writer) {
        return [TRUE; 4];
    }
    let last = before_row(spans, other.row, found.row);
    let stands = before(spans, other.row, reader);
    [neg(found.literal), neg(other.commits), neg(stands), last]
}

/// Follows the clause of the source and the other writer: where all of its literals fail but one that is open, that one holds. It gives whether
/// there is one that does not fail.
fn follow(known: &mut Known, source: u32, writer: u32, clause: [u32; 4]) -> bool {
    known.work = known.work.wrapping_add(1);
    let mut open = FALSE;
    for place in 0..4 {
        let literal = clause[place];
        let found = known.value(literal);
        if (found == 1) | ((found == 0) & (open != FALSE)) {
            return true;
        }
        if found == 0 {
            open = literal;
        }
    }
    if open == FALSE {
        return false;
    }
    assign(known, open, Antecedent::Between(source, writer));
    true
}

/// The source holds: no other writer stands between. Those are looked at from the last one on that began before the reader ended, as
/// long as one may end after the source began.
pub(crate) fn propagate_source(
    known: &mut Known,
    cells: &Cells,
    spans: &[Span],
    source: u32,
) -> Option<Conflict> {
    let found = cells.sources.at(source as usize);
    let reader = cells.readers.at(found.reader as usize);
    let cell = cells.cells.at(reader.cell as usize);
    let mut began = 0;
    if found.writer != NONE {
        began = span_of(spans, found.row as usize).first;
    }
    let to = writers_before(cells, cell, span_of(spans, reader.row).end);
    for step in 0..to.saturating_sub(cell.writers) {
        let number = to.wrapping_sub(1).wrapping_sub(step);
        let writer = cells.writers.at(number);
        if writer.latest < began {
            break;
        }
        if !meets(reader.need, writer.value) {
            let other = short(number);
            let clause = clause_of(cells, spans, source, other);
            if !follow(known, source, other, clause) {
                return Some(Conflict::Between(source, other));
            }
        }
    }
    None
}

/// The first of the cell's writers that is no row before that one, or the end of them.
fn writers_before(cells: &Cells, cell: CellOf, row: usize) -> usize {
    let mut low = cell.writers;
    let mut high = cell.writers_end;
    for _ in 0..64 {
        if low >= high {
            break;
        }
        let middle = low.midpoint(high);
        if cells.writers.at(middle).row >= row {
            high = middle;
        } else {
            low = middle.saturating_add(1);
        }
    }
    low
}

/// Looks at the sources of the reader that do not fail, beside the writer.
fn propagate_reader(
    known: &mut Known,
    cells: &Cells,
    spans: &[Span],
    reader: u32,
    writer: u32,
) -> Option<Conflict> {
    let found = cells.readers.at(reader as usize);
    let other = cells.writers.at(writer as usize);
    let commits = known.value(other.commits);
    if (commits == -1) | (other.row == found.row) | meets(found.need, other.value) {
        return None;
    }
    let stands = before(spans, other.row, found.row);
    if known.value(stands) == -1 {
        return None;
    }
    for number in found.sources..found.sources_end {
        let source = cells.sources.at(number);
        let holds = known.value(source.literal);
        if (holds == -1) | ((holds == 0) & (commits == 0)) {
            continue;
        }
        let last = before_row(spans, other.row, source.row);
        let clause = [neg(source.literal), neg(other.commits), neg(stands), last];
        if !follow(known, short(number), writer, clause) {
            return Some(Conflict::Between(short(number), writer));
        }
    }
    None
}

/// Looks at those that read from the one writer, beside the other writer.
fn propagate_writers(
    known: &mut Known,
    cells: &Cells,
    spans: &[Span],
    writer: u32,
    other: u32,
) -> Option<Conflict> {
    let one = cells.writers.at(writer as usize);
    let two = cells.writers.at(other as usize);
    let commits = known.value(two.commits);
    if commits == -1 {
        return None;
    }
    let last = before(spans, two.row, one.row);
    for place in one.feeds..one.feeds_end {
        let feed = cells.feeds.at(place as usize);
        let holds = known.value(feed.literal);
        if (holds == -1) | ((holds == 0) & (commits == 0)) {
            continue;
        }
        let reader = cells.readers.at(feed.reader as usize);
        if (reader.row == two.row) | meets(reader.need, two.value) {
            continue;
        }
        let stands = before(spans, two.row, reader.row);
        let clause = [neg(feed.literal), neg(two.commits), neg(stands), last];
        if !follow(known, feed.source, other, clause) {
            return Some(Conflict::Between(feed.source, other));
        }
    }
    None
}

/// The one row stands before the other: looks at a cell that both touch.
fn propagate_uses(
    known: &mut Known,
    cells: &Cells,
    spans: &[Span],
    one: CellUse,
    other: CellUse,
) -> Option<Conflict> {
    if one.writer == NONE {
        return None;
    }
    if other.reader != NONE {
        let conflict = propagate_reader(known, cells, spans, other.reader, one.writer);
        if conflict.is_some() {
            return conflict;
        }
    }
    if other.writer != NONE {
        return propagate_writers(known, cells, spans, one.writer, other.writer);
    }
    None
}

/// The one row stands before the other: looks at the cells that both touch.
pub(crate) fn propagate_pair(
    known: &mut Known,
    cells: &Cells,
    spans: &[Span],
    row: usize,
    other: usize,
) -> Option<Conflict> {
    if cells.marks.at(row).writes & cells.marks.at(other).touches == 0 {
        return None;
    }
    let mut one = cells.starts.at(row);
    let one_end = cells.starts.at(row.wrapping_add(1));
    let mut two = cells.starts.at(other);
    let two_end = cells.starts.at(other.wrapping_add(1));
    for _ in 0..cells.uses.len().saturating_mul(2) {
        if (one >= one_end) | (two >= two_end) {
            break;
        }
        let mine = cells.uses.at(one);
        let theirs = cells.uses.at(two);
        if mine.cell == theirs.cell {
            let conflict = propagate_uses(known, cells, spans, mine, theirs);
            if conflict.is_some() {
                return conflict;
            }
        }
        if mine.cell <= theirs.cell {
            one = one.wrapping_add(1);
        }
        if theirs.cell <= mine.cell {
            two = two.wrapping_add(1);
        }
    }
    None
}

/// The row commits: looks at all readers of the cells that it writes.
pub(crate) fn check_commits(
    known: &mut Known,
    cells: &Cells,
    spans: &[Span],
    row: usize,
) -> Option<Conflict> {
    let from = cells.starts.at(row);
    let to = cells.starts.at(row.wrapping_add(1));
    for place in from..to {
        let cell_use = cells.uses.at(place);
        if cell_use.writer == NONE {
            continue;
        }
        let cell = cells.cells.at(cell_use.cell as usize);
        for reader in cell.readers..cell.readers_end {
            let conflict = propagate_reader(known, cells, spans, short(reader), cell_use.writer);
            if conflict.is_some() {
                return conflict;
            }
        }
    }
    None
}
