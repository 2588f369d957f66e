//! Beginnings of orders: which rows are placed, and what the cells hold after them.

use crate::board::{Board, Line, Part};
use search_lists::{at, set};

/// Of a beginning: how many of the rows in the order of their ends are placed before the first that is not, how many rows are placed, and a key of
/// which ones, with their fates.
#[derive(Clone, Copy)]
pub(crate) struct Mark {
    pub low: usize,
    pub placed: usize,
    pub key: u64,
}

pub(crate) const EMPTY: Mark = Mark {
    low: 0,
    placed: 0,
    key: 0,
};

/// The bits of a number spread over a word (Steele, Lea and Flood, Fast splittable pseudorandom number generators, 2014).
fn spread(number: u64) -> u64 {
    let one = number.wrapping_mul(0x9e37_79b9_7f4a_7c15);
    let two = (one ^ (one >> 30)).wrapping_mul(0xbf58_476d_1ce4_e5b9);
    two ^ (two >> 27)
}

/// The row as a part of a key.
fn key_of(row: usize, commits: bool) -> u64 {
    spread(
        (row as u64)
            .wrapping_mul(2)
            .wrapping_add(u64::from(commits)),
    )
}

/// Whether the row is placed.
fn is_placed(bits: &[u64], row: usize) -> bool {
    (at(bits, row / 64, 0) >> (row % 64)) & 1 == 1
}

/// The first word that has a row which is not placed.
pub(crate) fn first_word(bits: &[u64]) -> usize {
    for word in 0..bits.len() {
        if bits[word] != u64::MAX {
            return word;
        }
    }
    bits.len()
}

/// The rows of the word before the limit that are not placed.
pub(crate) fn open_in(bits: &[u64], word: usize, limit: usize) -> u64 {
    let open = !at(bits, word, u64::MAX);
    let first = word.wrapping_mul(64);
    let count = limit.saturating_sub(first);
    if count < 64 {
        open & (1u64 << count).wrapping_sub(1)
    } else {
        open
    }
}

/// The row of the word that the lowest of its bits stands for.
pub(crate) fn row_in(word: usize, open: u64) -> usize {
    word.wrapping_mul(64)
        .wrapping_add(open.trailing_zeros() as usize)
}

/// Before which row all stand that may be placed next: those that began before the first end of a row that is not placed.
pub(crate) fn limit_of(board: &Board, low: usize) -> usize {
    if low < board.by_end.len() {
        board.lines.at(board.by_end.at(low).row).row.end
    } else {
        board.lines.len()
    }
}

/// The parts of the row.
pub(crate) fn parts_of(board: &Board, line: Line) -> &[Part] {
    board.parts.range(line.from as usize, line.to as usize)
}

/// Whether the cells hold what the row sees.
pub(crate) fn fits(board: &Board, line: Line, values: &[i64]) -> bool {
    for part in parts_of(board, line) {
        if let Some(need) = part.need {
            if at(values, part.cell as usize, 0) != need {
                return false;
            }
        }
    }
    true
}

/// Marks the row as placed.
fn mark_row(bits: &mut [u64], mark: &mut Mark, row: usize, commits: bool) {
    let word = at(bits, row / 64, 0);
    set(bits, row / 64, word | (1u64 << (row % 64)));
    mark.placed = mark.placed.wrapping_add(1);
    mark.key ^= key_of(row, commits);
}

/// Places the row with that fate.
pub(crate) fn place(
    board: &Board,
    bits: &mut [u64],
    values: &mut [i64],
    mark: &mut Mark,
    row: usize,
    commits: bool,
) {
    mark_row(bits, mark, row, commits);
    if commits {
        for part in parts_of(board, board.lines.at(row)) {
            let cell = part.cell as usize;
            let now = at(values, cell, 0);
            set(values, cell, now.wrapping_add(part.gain));
        }
    }
}

/// Places of the rows in the word before the limit those that change nothing and see what is there. False where there is none.
fn place_silent(
    board: &Board,
    bits: &mut [u64],
    values: &[i64],
    mark: &mut Mark,
    (word, limit): (usize, usize),
) -> bool {
    let mut open = open_in(bits, word, limit);
    let mut is_any = false;
    for _ in 0..64 {
        if open == 0 {
            break;
        }
        let row = row_in(word, open);
        open &= open.wrapping_sub(1);
        let line = board.lines.at(row);
        if !line.is_mover && fits(board, line, values) {
            mark_row(bits, mark, row, line.row.may_commit);
            is_any = true;
        }
    }
    is_any
}

/// Goes over the rows that are placed, in the order of their ends.
fn go_on(board: &Board, bits: &[u64], mark: &mut Mark) {
    for place in mark.low..board.by_end.len() {
        if !is_placed(bits, board.by_end.at(place).row) {
            break;
        }
        mark.low = place.wrapping_add(1);
    }
}

/// Places all rows that change nothing and see what is there. They take nothing away from others, so that is no choice.
pub(crate) fn settle(board: &Board, bits: &mut [u64], values: &[i64], mark: &mut Mark) {
    for _ in 0..board.lines.len() {
        go_on(board, bits, mark);
        let limit = limit_of(board, mark.low);
        let mut is_any = false;
        for word in first_word(bits)..limit.div_ceil(64) {
            if place_silent(board, bits, values, mark, (word, limit)) {
                is_any = true;
            }
        }
        if !is_any {
            break;
        }
    }
}
