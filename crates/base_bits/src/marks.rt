//! A list of marks.

ghost use Rattle.std.specs.Prelude.{◌≡◌, ◌↔◌, ◌<◌, true, false, length, replicate, IsTrue, IfOk, slice_set, slice_index_or};
ghost use Rattle.base_bits.specs.Marked.{is_marked, marks_of, IsBitWritten, IsNextMark, IsNextOfWord};

use base_values::OutOfMemory;
use std::alloc::{Allocator, Global};
use std::marker::Model;

/// For each of so many places whether it is marked. A place takes a bit.
#[derive(Drop)]
pub struct Marks<A: Allocator = Global> {
    words: Vec<u64, A>,
    count: usize,
}

impl<A: Allocator> Model for Marks<A> {
    ghost use Rattle.std.specs.Prelude.{Bool, List, ◌<◌, ◌≤◌, ◌*◌, ◌^◌, length};
    ghost use Rattle.base_bits.specs.Marked.{marks_of};

    ghost Value = { List Bool };

    ghost view = { λ m. marks_of m.words.items m.count };

    ghost invariant = { λ m. (m.count ≤ 64 * length m.words.items) × (m.count < 2 ^ 64) };
}

/// How many marks a word holds.
const WIDTH: usize = 64;

/// Whether the place is marked.
fn is_set(words: &[u64], place: usize) -> bool
    ensures { result ≡ is_marked words.now place }
{
    match words.get(place / WIDTH) {
        Some(word) => (*word >> (place % WIDTH)) & 1 == 1,
        None => false,
    }
}

/// The word with a mark at its place, from 0.
pub fn with_bit(word: u64, place: usize) -> u64
    requires { place < 64 }
    ensures { IsBitWritten word result place true }
{
    word | (1 << place)
}

/// The word without a mark at its place.
fn without_bit(word: u64, place: usize) -> u64
    requires { place < 64 }
    ensures { IsBitWritten word result place false }
{
    word & !(1 << place)
}

/// The first place of a word, from its own place `from` on, that is marked.
fn next_of_word(word: u64, from: u32) -> Option<u32>
    requires { from < 64 }
    ensures { IsNextOfWord word from result }
{
    let rest = word >> from;
    if rest == 0 {
        None
    } else {
        Some(from + rest.trailing_zeros())
    }
}

/// Whether the words are the same: what they mark is, then.
pub fn are_same(words: &[u64], others: &[u64]) -> bool
    ensures { IsTrue result ↔ (words.now ≡ others.now) }
{
    words == others
}

/// So many words that mark nothing.
fn no_words<A: Allocator>(alloc: A, count: usize) -> Result<Vec<u64, A>, OutOfMemory>
    ensures { IfOk result (λ words. words.items ≡ replicate count 0) }
{
    Ok(vec![in alloc; 0u64; count]?)
}

impl<A: Allocator> Marks<A> {
    /// So many places, none of them marked.
    pub fn none(alloc: A, count: usize) -> Result<Marks<A>, OutOfMemory>
        ensures { IfOk result (λ marks. marks ≡ replicate count false) }
    {
        let words = no_words(alloc, count / WIDTH + 1)?;
        Ok(Marks { words, count })
    }
}

impl<A: Allocator + Drop> Marks<A> {
    /// How many places there are.
    pub fn len(&self) -> usize
        ensures { result ≡ length self.now }
    {
        self.count
    }

    /// Whether the place is marked; one that is not there is not.
    pub fn has(&self, place: usize) -> bool
        ensures { result ≡ slice_index_or self.now place false }
    {
        place < self.count && is_set(&self.words, place)
    }

    /// Marks the place.
    pub fn put(&mut self, place: usize)
        requires { place < length self.old }
        ensures { self.new ≡ slice_set self.old place true }
    {
        let word = place / WIDTH;
        self.words[word] = with_bit(self.words[word], place % WIDTH);
    }

    /// Takes the mark of the place away, if it has one.
    pub fn clear(&mut self, place: usize)
        requires { place < length self.old }
        ensures { self.new ≡ slice_set self.old place false }
    {
        let word = place / WIDTH;
        self.words[word] = without_bit(self.words[word], place % WIDTH);
    }

    /// The first place from one on that is marked. It looks at 64 places in one step.
    pub fn next(&self, from: usize) -> Option<usize>
        ensures { IsNextMark self.now from result }
    {
        let mut place = from;
        while place < self.count {
            let first = place - place % WIDTH;
            if let Some(at) = next_of_word(self.words[place / WIDTH], (place % WIDTH) as u32) {
                let found = first + at as usize;
                return if found < self.count {
                    Some(found)
                } else {
                    None
                };
            }
            place = first.saturating_add(WIDTH);
        }
        None
    }

    /// Whether the same places are marked, of as many.
    pub fn same(&self, other: &Marks<A>) -> bool
        ensures { IsTrue result ↔ (self.now ≡ other.now) }
    {
        if self.count != other.count {
            return false;
        }
        if are_same(&self.words, &other.words) {
            return true;
        }
        for place in 0..self.count {
            if self.has(place) != other.has(place) {
                return false;
            }
        }
        true
    }

    /// The marks as words of 64, for a hash: marks of which these differ may be the same.
    pub fn words(&self) -> &[u64]
        ensures { self.now ≡ marks_of result.now (length self.now) }
    {
        &self.words
    }
}
