//! Who stands before whom: with each pair all that follow from it.

use crate::known::{Antecedent, Conflict, Known, assign};
use crate::literals::{Table, short};
use crate::spans::{Span, before_by, span_of};
use std::alloc::Global;

/// For each row the rows after it and those before it, as bits.
#[derive(Drop)]
pub(crate) struct Closure {
    /// How many words a row has.
    pub words: usize,
    pub after: Table<u64>,
    pub before: Table<u64>,
}

impl Closure {
    /// Of no rows. It does not allocate.
    pub(crate) fn empty(alloc: Global) -> Closure {
        Closure {
            words: 0,
            after: Table::new(alloc, 0),
            before: Table::new(alloc, 0),
        }
    }

    /// Whether some growth was refused.
    pub(crate) fn is_short(&self) -> bool {
        self.after.is_short() | self.before.is_short()
    }
}

/// Sets or clears the bit of the row in the bits that begin there.
fn set_bit(bits: &mut Table<u64>, from: usize, row: usize, to: bool) {
    let place = from.wrapping_add(row / 64);
    let word = bits.at(place);
    let bit = 1u64 << (row % 64);
    bits.set(place, if to { word | bit } else { word & !bit });
}

/// Sets the bits in the word.
fn add_bits(bits: &mut Table<u64>, place: usize, more: u64) {
    bits.set(place, bits.at(place) | more);
}

/// Whether the one row is known to stand before the other.
pub(crate) fn is_before(closure: &Closure, row: usize, other: usize) -> bool {
    let place = row.wrapping_mul(closure.words).wrapping_add(other / 64);
    (closure.after.at(place) >> (other % 64)) & 1 == 1
}

/// Sets the bits of the rows before and after each one by real time: of those that had ended before it began, and of those that began after
/// it ended.
pub(crate) fn close_spans(closure: &mut Closure, spans: &[Span]) {
    let (rows, words) = (spans.len(), spans.len().div_ceil(64));
    closure.words = words;
    closure.before.fill(rows.saturating_mul(words));
    for (row, span) in spans.iter().enumerate() {
        for word in 0..words {
            let beyond = bits_from(rows, word);
            closure.after.add(bits_from(span.end, word) & !beyond);
        }
        if span.end < rows {
            set_bit(&mut closure.before, span.end.wrapping_mul(words), row, true);
        }
    }
    for place in words..closure.before.len() {
        let earlier = closure.before.at(place.wrapping_sub(words));
        add_bits(&mut closure.before, place, earlier);
    }
}

/// The bits of that word that stand for the rows from that one on.
fn bits_from(row: usize, word: usize) -> u64 {
    let first = row / 64;
    if word < first {
        0
    } else if word > first {
        u64::MAX
    } else {
        u64::MAX << (row % 64)
    }
}

/// Those rows of the word that the first of the two has on its side, and it itself, but not those that the second has.
fn fresh_in(bits: &Table<u64>, words: usize, rows: (usize, usize), word: usize) -> u64 {
    let (one, other) = rows;
    let wanted = bits.at(one.wrapping_mul(words).wrapping_add(word));
    let known = bits.at(other.wrapping_mul(words).wrapping_add(word));
    let own = if one / 64 == word {
        1u64 << (one % 64)
    } else {
        0
    };
    (wanted | own) & !known
}

/// The row stands before the rows of the bits in that word. `through` are the two rows of the pair that this follows from.
fn join_word(
    known: &mut Known,
    closure: &mut Closure,
    spans: &[Span],
    row: usize,
    through: (usize, usize),
    (word, bits): (usize, u64),
) -> Option<Conflict> {
    let (from, to) = through;
    let found = span_of(spans, row);
    let mut fresh = bits;
    for _ in 0..64 {
        if fresh == 0 {
            break;
        }
        let other = word
            .wrapping_mul(64)
            .wrapping_add(fresh.trailing_zeros() as usize);
        let literal = before_by(spans, found, row, other);
        match known.value(literal) {
            0 => assign(known, literal, Antecedent::Circle(short(from), short(to))),
            1 => {}
            _ => {
                let place = row.wrapping_mul(closure.words).wrapping_add(word);
                add_bits(&mut closure.after, place, bits ^ fresh);
                return Some(Conflict::Circle(row, from, to, other));
            }
        }
        fresh &= fresh.wrapping_sub(1);
        set_bit(
            &mut closure.before,
            other.wrapping_mul(closure.words),
            row,
            true,
        );
    }
    let place = row.wrapping_mul(closure.words).wrapping_add(word);
    add_bits(&mut closure.after, place, bits);
    None
}

/// The row stands before the other, and before all that this one does: `through` are the two rows of the pair that all follows from.
fn join(
    known: &mut Known,
    closure: &mut Closure,
    spans: &[Span],
    row: usize,
    through: (usize, usize),
) -> Option<Conflict> {
    let words = closure.words;
    for word in 0..words {
        let fresh = fresh_in(&closure.after, words, (through.1, row), word);
        if fresh != 0 {
            let conflict = join_word(known, closure, spans, row, through, (word, fresh));
            if conflict.is_some() {
                return conflict;
            }
        }
    }
    known.work = known.work.wrapping_add(words as u64);
    None
}

/// The one row stands before the other, and so do all that stand before it before all that the other stands before.
pub(crate) fn close(
    known: &mut Known,
    closure: &mut Closure,
    spans: &[Span],
    row: usize,
    other: usize,
) -> Option<Conflict> {
    let words = closure.words;
    if is_before(closure, row, other) {
        return None;
    }
    for word in 0..words {
        let mut fresh = fresh_in(&closure.before, words, (row, other), word);
        for _ in 0..64 {
            if fresh == 0 {
                break;
            }
            let earlier = word
                .wrapping_mul(64)
                .wrapping_add(fresh.trailing_zeros() as usize);
            fresh &= fresh.wrapping_sub(1);
            let conflict = join(known, closure, spans, earlier, (row, other));
            if conflict.is_some() {
                return conflict;
            }
        }
    }
    None
}

/// The one row is no longer known to stand before the other.
pub(crate) fn reopen(closure: &mut Closure, row: usize, other: usize) {
    let words = closure.words;
    set_bit(&mut closure.after, row.wrapping_mul(words), other, false);
    set_bit(&mut closure.before, other.wrapping_mul(words), row, false);
}
