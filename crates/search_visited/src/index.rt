//! Places found by hashes.
//!
//! What is found under a hash need not be what was put there: whoever looks compares. So nothing is promised of an index
//! but that each call ends, and only how fast a search is depends on it.

use crate::room::{give_back, take};
use base_values::OutOfMemory;
use std::alloc::{Allocator, Global};
use std::mem::size_of;

/// The upper half of a hash and a place, counted from 1; the place 0 says that the slot is free.
#[derive(Clone, Copy)]
struct Slot {
    hash: u32,
    place: u32,
}

/// What stands in a slot.
#[derive(Clone, Copy)]
pub enum Look {
    /// Nothing, nor in the slots after it.
    Free,
    /// Something under another hash.
    Other,
    /// A place under this hash.
    At(usize),
}

/// Places by hashes, in slots of which at most half are taken.
#[derive(Drop)]
pub struct Index<A: Allocator + Copy = Global> {
    alloc: A,
    slots: Vec<Slot, A>,
    taken: usize,
}

/// A slot in which nothing stands.
const FREE: Slot = Slot { hash: 0, place: 0 };

/// How many bytes a slot takes.
const SLOT: usize = size_of::<Slot>();

/// The fewest slots.
const FEWEST: usize = 64;

/// A hash of two numbers.
pub fn hash_of(a: u64, b: u64) -> u64 {
    let mixed = (a ^ b.wrapping_mul(0x9E37_79B9_7F4A_7C15)).wrapping_mul(0xD6E8_FEB8_6659_FD93);
    mixed ^ (mixed >> 32)
}

/// A number in which each bit of the word has its say, by the steps that end the generator SplitMix64.
pub fn spread(word: u64) -> u64 {
    let half = (word ^ (word >> 30)).wrapping_mul(0xBF58_476D_1CE4_E5B9);
    let whole = (half ^ (half >> 27)).wrapping_mul(0x94D0_49BB_1331_11EB);
    whole ^ (whole >> 31)
}

/// The half of a hash that a slot keeps.
fn half_of(hash: u64) -> u32 {
    (hash >> 32) as u32
}

/// The slot of the half hash, so many steps after its first.
fn slot_of(hash: u32, step: usize, count: usize) -> usize {
    (hash as usize).wrapping_add(step) & count.saturating_sub(1)
}

/// Puts the hash and the place into the first free slot of the hash.
fn put_into(slots: &mut [Slot], taken: Slot) {
    let count = slots.len();
    for step in 0..count {
        if let Some(slot) = slots.get_mut(slot_of(taken.hash, step, count)) {
            if slot.place == 0 {
                *slot = taken;
                return;
            }
        }
    }
}

impl<A: Allocator + Copy> Index<A> {
    /// An index of nothing. It does not allocate.
    pub fn new(alloc: A) -> Index<A> {
        Index {
            alloc,
            slots: Vec::new(alloc),
            taken: 0,
        }
    }

    /// What stands so many steps after the first slot of the hash.
    pub fn look(&self, hash: u64, step: usize) -> Look {
        let half = half_of(hash);
        match self.slots.get(slot_of(half, step, self.slots.len())) {
            None => Look::Free,
            Some(slot) => {
                if slot.place == 0 {
                    Look::Free
                } else if slot.hash == half {
                    Look::At((slot.place as usize).wrapping_sub(1))
                } else {
                    Look::Other
                }
            }
        }
    }

    /// How many bytes its slots take, which is what it took of room.
    pub fn size(&self) -> usize {
        self.slots.len().saturating_mul(SLOT)
    }

    /// Has so many slots, with what stands in the old ones, if there is memory for them.
    fn grow_to(&mut self, count: usize) -> Result<(), OutOfMemory> {
        let mut slots = vec![in self.alloc; FREE; count]?;
        for slot in &self.slots {
            if slot.place != 0 {
                put_into(&mut slots, *slot);
            }
        }
        self.slots = slots;
        Ok(())
    }

    /// Twice as many slots, if there is room and memory for them beside the old ones.
    fn grow(&mut self, room: &mut usize) -> Result<(), OutOfMemory> {
        let count = self.slots.len().saturating_mul(2).max(FEWEST);
        let (old, size) = (self.size(), count.saturating_mul(SLOT));
        if !take(room, size) {
            return Err(OutOfMemory);
        }
        let grown = self.grow_to(count);
        give_back(room, if grown.is_ok() { old } else { size });
        grown
    }

    /// Forgets all places, and keeps the slots.
    pub fn clear(&mut self) {
        for slot in self.slots.iter_mut() {
            *slot = FREE;
        }
        self.taken = 0;
    }

    /// Puts the place under the hash, if there is room and memory for it. It holds places below 2^32 - 1; any other is as memory
    /// that is wanting.
    pub fn put(&mut self, hash: u64, place: usize, room: &mut usize) -> Result<(), OutOfMemory> {
        let Ok(place) = u32::try_from(place.wrapping_add(1)) else {
            return Err(OutOfMemory);
        };
        if self.taken >= self.slots.len() / 2 {
            self.grow(room)?;
        }
        let hash = half_of(hash);
        put_into(&mut self.slots, Slot { hash, place });
        self.taken = self.taken.wrapping_add(1);
        Ok(())
    }
}
