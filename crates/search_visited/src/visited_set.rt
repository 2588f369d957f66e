//! Configurations as words, all in one memory.

ghost use Rattle.std.specs.Prelude.{◌≡◌, ◌+◌, ◌<◌, ◌≤◌, ◌++◌, [], ◌∷◌, true, nat_eq, IfSome, IsTrue, MatchOption, length, take, drop, slice_index_or, if◌then◌else◌, ◌⊎◌, Some, vec_len};
ghost use Rattle.search_visited.specs.Visited.{IsKeptAs, with_place, WithPlace, IsConfiguration, IsPlaceOf, entries_over, entry};

use crate::index::{Index, Look, hash_of};
use crate::room::reserve;
use base_bits::{Marks, are_same, with_bit};
use std::alloc::{Allocator, Global};
use std::marker::Model;
use std::mem::size_of;

/// Configurations in the order in which they were kept, each as words: the number of the states, then the marks of the rows that are placed. All
/// have as many words.
#[derive(Drop)]
pub struct VisitedSet<A: Allocator + Copy = Global> {
    words: Vec<u64, A>,
    width: usize,
    count: usize,
    by_hash: Index<A>,
}

impl<A: Allocator + Copy> Model for VisitedSet<A> {
    ghost use Rattle.std.specs.Prelude.{◌≡◌, ◌<◌, ◌*◌, List, ℕ, length};
    ghost use Rattle.search_visited.specs.Visited.{chunks};

    ghost Value = { List (List ℕ) };

    ghost view = { λ s. chunks s.width s.words.items s.count };

    ghost invariant = { λ s. (0 < s.width) × (length s.words.items ≡ s.count * s.width) };
}

/// How many rows a word marks.
const WIDTH: usize = 64;

/// How many slots are looked at before a configuration counts as not found.
const LOOKS: usize = 64;

/// A hash of a configuration: the states have the number, and the rows are placed, with one further where there is one.
fn hash_configuration(states: usize, placed: &[u64], further: Option<usize>) -> u64 {
    let mut hash = hash_of(0x2545_F491_4F6C_DD1D, states as u64);
    for (at, word) in placed.iter().enumerate() {
        let word = match further {
            Some(place) if place / WIDTH == at => with_bit(*word, place % WIDTH),
            _ => *word,
        };
        hash = hash_of(hash, word);
    }
    hash
}

/// Whether the words mark what others mark, and the place.
fn is_with(words: &[u64], others: &[u64], place: usize) -> bool
    ensures { IsTrue result → WithPlace others.now words.now place }
{
    let at = place / WIDTH;
    if at >= others.len() || at >= words.len() {
        return false;
    }
    words[at] == with_bit(others[at], place % WIDTH)
        && are_same(&words[..at], &others[..at])
        && are_same(&words[at + 1..], &others[at + 1..])
}

/// The word with a mark at the place of a row, if it marks that row: it marks those at the first 64 places.
pub fn with_further(word: u64, place: usize) -> Option<u64>
    ensures { IfSome result (λ own. WithPlace (word ∷ []) (own ∷ []) place) }
{
    if place / WIDTH == 0 {
        Some(with_bit(word, place % WIDTH))
    } else {
        None
    }
}

/// Whether the words are of a configuration: the states have the number, and the rows are placed, with one further where there is one.
fn is_configuration(words: &[u64], states: usize, placed: &[u64], further: Option<usize>) -> bool
    ensures { IsTrue result → IsConfiguration words.now states placed.now further }
{
    let Some((first, marks)) = words.split_first() else {
        return false;
    };
    if *first != states as u64 {
        return false;
    }
    match further {
        None => are_same(marks, placed),
        Some(place) => is_with(marks, placed, place),
    }
}

/// Whether configurations of the width can come after so many of another.
fn is_width(count: usize, other: usize, width: usize) -> bool
    ensures { IsTrue result → (count ≡ 0) ⊎ (other ≡ width) }
{
    count == 0 || other == width
}

/// So many words from a place on.
fn part(words: &[u64], from: usize, width: usize) -> &[u64]
    requires { from + width ≤ length words.now }
    ensures { result.now ≡ take width (drop from words.now) }
{
    &words[from..from + width]
}

/// Puts the number and the marks after the words, if there is memory for them.
fn append<A: Allocator>(words: &mut Vec<u64, A>, states: usize, marks: &[u64]) -> bool
    ensures { words.new.items ≡ (if result then words.old.items ++ states ∷ marks.now else words.old.items) }
{
    let before = words.len();
    if words.push(states as u64).is_ok() && words.extend_from_slice(marks).is_ok() {
        return true;
    }
    words.truncate(before);
    false
}

/// Forgets so many of the first elements, and keeps their memory.
pub fn forget_first<T: Copy, A: Allocator>(list: &mut Vec<T, A>, count: usize)
    requires { count ≤ vec_len list.old }
    ensures { list.new.items ≡ drop count list.old.items }
{
    let rest = list.len() - count;
    list.rotate_left(count);
    list.truncate(rest);
}

/// Puts the places of the configurations under their hashes, each of so many words, in place of all that was there.
fn index_anew<A: Allocator + Copy>(by_hash: &mut Index<A>, words: &[u64], width: usize)
    requires { 0 < width }
{
    by_hash.clear();
    for (place, configuration) in words.chunks(width).enumerate() {
        if let Some((states, marks)) = configuration.split_first() {
            let hash = hash_configuration(*states as usize, marks, None);
            // As many slots as there were are enough.
            let _ = by_hash.put(hash, place, &mut 0);
        }
    }
}

impl<A: Allocator + Copy> VisitedSet<A> {
    /// No configurations. It does not allocate.
    pub fn new(alloc: A) -> VisitedSet<A>
        ensures { result ≡ [] }
    {
        VisitedSet {
            words: Vec::new(alloc),
            width: 1,
            count: 0,
            by_hash: Index::new(alloc),
        }
    }

    /// Whether there are none.
    pub fn is_empty(&self) -> bool
        ensures { result ≡ nat_eq (length self.now) 0 }
    {
        self.count == 0
    }

    /// The words of the configuration at the place.
    fn get(&self, place: usize) -> &[u64]
        requires { place < length self.now }
        ensures { result.now ≡ slice_index_or self.now place [] }
    {
        let words: &[u64] = &self.words;
        part(words, place * self.width, self.width)
    }

    /// The place of one of the configurations that has the number of the states, and the rows placed, with one further where there is
    /// one. It looks at so few of them that it may miss one, and does not allocate.
    pub fn find(&self, states: usize, placed: &Marks<A>, further: Option<usize>) -> Option<usize>
        requires { MatchOption further (Unit {0}) (λ k. k < length placed.now) }
        ensures { IsPlaceOf (entries_over placed.now self.now) (entry (with_place placed.now further) states) result }
    {
        let words = placed.words();
        let hash = hash_configuration(states, words, further);
        for step in 0..LOOKS {
            match self.by_hash.look(hash, step) {
                Look::Free => return None,
                Look::Other => {}
                Look::At(place) => {
                    if place < self.count
                        && is_configuration(self.get(place), states, words, further)
                    {
                        return Some(place);
                    }
                }
            }
        }
        None
    }

    /// Puts a configuration after the others, if it has as many words as they have and there is room and memory for it. It says whether it
    /// did, and takes from the room, in bytes, what it allocates.
    pub fn keep(&mut self, states: usize, placed: &Marks<A>, room: &mut usize) -> bool
        ensures { IsKeptAs (entries_over placed.now self.old) (entries_over placed.now self.new) (entry placed.now states) result }
    {
        let marks = placed.words();
        let width = marks.len() + 1;
        if !is_width(self.count, self.width, width) {
            return false;
        }
        if !reserve(room, &mut self.words, width, size_of::<u64>()) {
            return false;
        }
        let hash = hash_configuration(states, marks, None);
        if self.by_hash.put(hash, self.count, room).is_err() {
            return false;
        }
        if append(&mut self.words, states, marks) {
            self.width = width;
            self.count += 1;
            return true;
        }
        false
    }

    /// Forgets the older half of the configurations, and keeps its memory. It answers how many these are, and does not allocate.
    pub fn forget_older(&mut self) -> usize
        ensures fewer { result ≤ length self.old }
        ensures rest { self.new ≡ drop result self.old }
    {
        let rest = self.count / 2;
        let gone = self.count - rest;
        forget_first(&mut self.words, gone * self.width);
        self.count = rest;
        index_anew(&mut self.by_hash, &self.words, self.width);
        gone
    }
}
