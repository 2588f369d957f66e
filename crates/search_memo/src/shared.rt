//! What searches of one history in several threads have refuted, in slots that are each written once and read by all, without a
//! lock.

ghost use Rattle.std.specs.Prelude.{◌≡◌, ◌<◌, IfSome, IsTrue, MatchOption, length};
ghost use Rattle.aud_history.specs.Table.{transactions};
ghost use Rattle.aud_order.specs.Shapes.{history_of};
ghost use Rattle.search_visited.specs.Visited.{with_place};
ghost use Rattle.search_memo.specs.Known.{IsMarkedBy, IsRefutedAtWord, IsRefutedTo};

use crate::recorder::{Recorder, RefutedBy, Unnoted};
use crate::stored_states::size_of_shared;
use aud_event::OutOfMemory;
use aud_object::Store;
use aud_witness::Decision;
use base_bits::Marks;
use boxcar::slot::{OnceSlot, SlotRule};
use boxcar::tag::Tag;
use search_visited::{BOUND, hash_of, spread, with_further};
use std::alloc::{Allocator, Global};
use std::marker::{Brand, Model, PhantomData};
use std::mem::size_of;
use std::sync::Arc;
use std::sync::atomic::{AtomicU64, Ordering};

/// Which history the searches are of. A program picks it once: it calls a function that is generic in the scene with `Brand` for
/// it, whose member it gives there.
pub trait Scene {
    ghost use Rattle.aud_order.specs.Shapes.{ShapeOf};

    ghost shape: { ShapeOf };
}

impl Scene for Brand {
    ghost use Rattle.std.specs.Prelude.{[]};
    ghost use Rattle.aud_event.specs.Plans.{empty_plan};

    ghost shape = { record { sealed = record { facts = record { plan = empty_plan; facts = [] }; history = [] } } };
}

/// The rule of a slot asks for nothing: what is in it has an invariant of its own.
pub struct Any;

impl<T> SlotRule<T> for Any {
    ghost holds = { λ tag value. Unit {0} };
}

/// A prefix that was refuted: the one word that marks the rows that it placed, and the states after it.
#[derive(Drop)]
pub struct RefutedEntry<J: Scene, A: Allocator> {
    word: u64,
    states: Arc<Store<A>, A>,
    scene: PhantomData<J>,
}

impl<J: Scene, A: Allocator> Model for RefutedEntry<J, A> {
    ghost use Rattle.search_memo.specs.Known.{RefutedEntryOf, IsRefutedAtWord};

    ghost Value = { RefutedEntryOf };

    ghost view = { λ r. record { word = r.word; states = r.states.value.now } };

    ghost invariant = { λ r. IsRefutedAtWord J.shape r.states.value.now r.word };
}

/// Slots that follow one another, which are made when one of them is needed first.
#[derive(Drop)]
pub struct Part<J: Scene, A: Allocator> {
    slots: OnceSlot<Vec<OnceSlot<RefutedEntry<J, A>, Any>, A>, Any>,
}

/// How many rows one word of marks is enough for.
pub const ROWS_MAX: usize = 63;

/// How many slots a part has: a power of two.
const PART: usize = 1 << 12;

/// How many parts there are: a power of two.
const PARTS: usize = 1 << 12;

/// Among how many of the first slots those lie that are anywhere: a power of two, so small that few parts are made for them.
const ANYWHERE: usize = 1 << 20;

/// How many slots are looked at for a prefix.
const LOOKS: usize = 12;

/// How many of these are near those of prefixes that place almost the same rows.
const NEAR: usize = 4;

/// How much memory slots and the states that stand in them may take, in bytes: the memos of those who share have the rest.
const ROOM: usize = BOUND / 4 * 3;

/// How many bytes the slots of a part take.
const SLOTS: usize = PART * size_of::<OnceSlot<RefutedEntry<Brand, Global>, Any>>();

/// Refuted prefixes of one history of at most 63 transactions, of which all threads know that search it. Each stands in a slot that is
/// written once, so nobody waits for another. It takes memory as more is known. The memos of the searches and what they share here
/// take at most 1 GiB together.
#[derive(Drop)]
pub struct Shared<J: Scene, A: Allocator + Copy = Global> {
    alloc: A,
    parts: Vec<Part<J, A>, A>,
    searches: usize,
    taken: AtomicU64,
}

/// The word of the marks that is looked for, and where its slots are.
#[derive(Clone, Copy)]
pub struct Probe {
    word: u64,
    near: usize,
    far: usize,
}

/// The bits of the word, the last one first.
fn mirrored(word: u64) -> u64 {
    let bits = ((word >> 1) & 0x5555_5555_5555_5555) | ((word & 0x5555_5555_5555_5555) << 1);
    let pairs = ((bits >> 2) & 0x3333_3333_3333_3333) | ((bits & 0x3333_3333_3333_3333) << 2);
    let fours = ((pairs >> 4) & 0x0F0F_0F0F_0F0F_0F0F) | ((pairs & 0x0F0F_0F0F_0F0F_0F0F) << 4);
    let bytes = ((fours >> 8) & 0x00FF_00FF_00FF_00FF) | ((fours & 0x00FF_00FF_00FF_00FF) << 8);
    let halves = ((bytes >> 16) & 0x0000_FFFF_0000_FFFF) | ((bytes & 0x0000_FFFF_0000_FFFF) << 16);
    (halves >> 32) | (halves << 32)
}

/// Where prefixes stand that leave states of the digest and place the rows, of so many, that the word marks.
///
/// A search comes from a prefix mostly to those that differ in the last rows, so these are the lowest bits of a place: what is asked
/// for one after the other lies side by side in memory.
fn probe_of(digest: u64, word: u64, rows: usize) -> Probe
    ensures { result.word ≡ word }
{
    let last_first = mirrored(word).rotate_left((rows % 64) as u32);
    let near = last_first ^ (last_first >> 24) ^ (last_first >> 48);
    Probe {
        word,
        near: near as usize,
        far: spread(hash_of(digest, word)) as usize % ANYWHERE,
    }
}

/// The place of the slot that is looked at in the step.
fn place_at(probe: Probe, step: usize) -> usize {
    if step < NEAR {
        probe.near ^ step
    } else {
        probe.far ^ step
    }
}

/// The word that marks the rows, with one further where there is one, if it is one word.
fn word_of<A: Allocator + Drop>(placed: &Marks<A>, further: Option<usize>) -> Option<u64>
    requires { MatchOption further (Unit {0}) (λ k. k < length placed.now) }
    ensures { IfSome result (λ word. IsMarkedBy word (with_place placed.now further)) }
{
    let [word] = placed.words() else {
        return None;
    };
    match further {
        None => Some(*word),
        Some(place) => with_further(*word, place),
    }
}

/// So many free slots as a part has.
fn free_slots<J: Scene, A: Allocator + Copy>(
    alloc: A,
) -> Result<Vec<OnceSlot<RefutedEntry<J, A>, Any>, A>, OutOfMemory> {
    let tag = Tag::empty();
    let mut slots = Vec::with_capacity(alloc, PART)?;
    for _ in 0..PART {
        slots.push(OnceSlot::new(&tag))?;
    }
    Ok(slots)
}

impl<J: Scene, A: Allocator + Copy> RefutedEntry<J, A> {
    /// Whether it is of the rows that the word marks, and of the states.
    fn is_of(&self, word: u64, states: &Store<A>) -> bool
        ensures { IsTrue result → IsRefutedAtWord J.shape states.now.now word }
    {
        self.word == word && self.states.same(states)
    }
}

impl<J: Scene, A: Allocator + Copy> Part<J, A> {
    /// The slot at the place, if the slots are made.
    fn slot(&self, place: usize) -> Option<&OnceSlot<RefutedEntry<J, A>, Any>> {
        self.slots.get()?.get(place % PART)
    }

    /// Makes the slots, if there is memory for them. Where another thread was faster, its slots are taken.
    fn make(&self, alloc: A) -> bool {
        match free_slots(alloc) {
            Ok(slots) => match self.slots.set_written(slots) {
                Ok(_) => true,
                Err(_) => false,
            },
            Err(_) => false,
        }
    }
}

impl<J: Scene, A: Allocator + Copy> Shared<J, A> {
    /// Of nothing, for so many searches.
    pub fn new(alloc: A, searches: usize) -> Result<Shared<J, A>, OutOfMemory> {
        let tag = Tag::empty();
        let mut parts = Vec::with_capacity(alloc, PARTS)?;
        for _ in 0..PARTS {
            let slots = OnceSlot::new(&tag);
            parts.push(Part { slots })?;
        }
        Ok(Shared::of_parts(alloc, parts, searches))
    }

    /// Of nothing, in these parts.
    fn of_parts(alloc: A, parts: Vec<Part<J, A>, A>, searches: usize) -> Shared<J, A> {
        Shared {
            alloc,
            parts,
            searches,
            taken: AtomicU64::new(0),
        }
    }

    /// What so many searches share, where there are several. Where there is no memory for it they share nothing but the room that
    /// their memos may take.
    pub fn among(alloc: A, searches: usize) -> Option<Shared<J, A>> {
        if searches < 2 {
            return None;
        }
        match Shared::new(alloc, searches) {
            Ok(shared) => Some(shared),
            Err(_) => Some(Shared::of_parts(alloc, Vec::new(alloc), searches)),
        }
    }

    /// How much room the memo of each search has, in bytes, where they share what is refuted or the room alone.
    pub fn room_of_each(&self, is_sharing: bool) -> usize {
        let rest = if is_sharing { BOUND - ROOM } else { BOUND };
        rest / self.searches.max(1)
    }

    /// Takes room for slots, or for states that stand in them, if there is so much.
    fn take(&self, size: u64) -> bool {
        let before = self.taken.fetch_add(size, Ordering::SeqCst);
        if before.saturating_add(size) <= ROOM as u64 {
            return true;
        }
        self.give_back(size);
        false
    }

    /// Gives back room that was taken.
    fn give_back(&self, size: u64) {
        self.taken.fetch_sub(size, Ordering::SeqCst);
    }

    /// The part of the place.
    fn part(&self, place: usize) -> Option<&Part<J, A>> {
        self.parts.get(place / PART % PARTS)
    }

    /// What stands where a step looks.
    fn at(&self, probe: Probe, step: usize) -> Option<&RefutedEntry<J, A>> {
        let place = place_at(probe, step);
        self.part(place)?.slot(place)?.get()
    }

    /// Whether a refuted prefix is known that places the rows that the word marks, and leaves the states.
    fn has(&self, probe: Probe, states: &Store<A>) -> bool
        ensures { IsTrue result → IsRefutedAtWord J.shape states.now.now probe.word }
    {
        for step in 0..LOOKS {
            let Some(known) = self.at(probe, step) else {
                return false;
            };
            if known.is_of(probe.word, states) {
                return true;
            }
        }
        false
    }

    /// Whether a refuted prefix is known that places the rows that are marked, with one further where there is one, and leaves the
    /// states, which have the digest. It does not allocate.
    fn knows(
        &self,
        digest: u64,
        states: &Store<A>,
        placed: &Marks<A>,
        further: Option<usize>,
    ) -> bool
        requires rows { length placed.now ≡ length (transactions (history_of J.shape)) }
        requires further { MatchOption further (Unit {0}) (λ k. k < length placed.now) }
        ensures { IsTrue result → IsRefutedTo J.shape states.now.now (with_place placed.now further) }
    {
        let Some(word) = word_of(placed, further) else {
            return false;
        };
        self.has(probe_of(digest, word, placed.len()), states)
    }

    /// Makes the slots of the part, unless they are there, if there is room and memory for them.
    fn make(&self, part: &Part<J, A>) {
        if part.slots.get().is_some() || !self.take(SLOTS as u64) {
            return;
        }
        if !part.make(self.alloc) {
            self.give_back(SLOTS as u64);
        }
    }

    /// Puts the refuted prefix where a search looks for it, if there is a free slot and memory for it.
    fn put(&self, probe: Probe, entry: RefutedEntry<J, A>) -> bool {
        let mut left = entry;
        for step in 0..LOOKS {
            let place = place_at(probe, step);
            let Some(part) = self.part(place) else {
                return false;
            };
            self.make(part);
            let Some(slot) = part.slot(place) else {
                return false;
            };
            if slot.get().is_none() {
                match slot.set_written(left) {
                    Ok(_) => return true,
                    Err(back) => left = back,
                }
            }
        }
        false
    }

    /// Has all threads know of the refuted prefix, which places the rows that the word marks, if there is a free slot and memory for
    /// it.
    fn keep_at(&self, probe: Probe, states: &Arc<Store<A>, A>) -> bool
        requires { IsRefutedAtWord J.shape states.now.value.now probe.word }
    {
        let Ok(states) = Arc::try_clone(states) else {
            return false;
        };
        let entry = RefutedEntry {
            word: probe.word,
            states,
            scene: PhantomData,
        };
        self.put(probe, entry)
    }

    /// Has all threads know of the refuted prefix, if there is room and memory for it. Room is taken for its states where they stand
    /// in no slot yet.
    fn keep(&self, digest: u64, states: &Arc<Store<A>, A>, placed: &Marks<A>) -> bool
        requires { IsRefutedTo J.shape states.now.value.now placed.now }
    {
        let Some(word) = word_of(placed, None) else {
            return false;
        };
        let probe = probe_of(digest, word, placed.len());
        if Arc::strong_count(states) > 1 {
            return self.keep_at(probe, states);
        }
        let size = size_of_shared(states) as u64;
        if !self.take(size) {
            return false;
        }
        let is_kept = self.keep_at(probe, states);
        if !is_kept {
            self.give_back(size);
        }
        is_kept
    }
}

/// Notes nothing, and has the searches of other threads know what is refuted, where there are any.
#[derive(Drop)]
pub struct Sharing<'a, J: Scene, A: Allocator + Copy> {
    pub shared: Option<&'a Shared<J, A>>,
}

impl<'a, J: Scene, A: Allocator + Copy> Recorder<Unnoted, A> for Sharing<'a, J, A> {
    ghost use Rattle.std.specs.Prelude.{◌≡◌, IfOk};

    ghost is_for = { λ r shape. shape ≡ J.shape };

    ghost noted = { λ r note p. Unit {0} };

    ghost grows = { λ r s. Unit {0} };

    fn records_nothing(&self) -> bool {
        true
    }

    fn is_sharing(&self) -> bool {
        self.shared.is_some()
    }

    fn find(
        &self,
        digest: u64,
        states: &Store<A>,
        placed: &Marks<A>,
        further: Option<usize>,
    ) -> Option<Unnoted> {
        let shared = self.shared?;
        if shared.knows(digest, states, placed, further) {
            Some(Unnoted)
        } else {
            None
        }
    }

    fn keep(
        &self,
        digest: u64,
        states: &Arc<Store<A>, A>,
        placed: &Marks<A>,
        _note: Unnoted,
    ) -> bool {
        match self.shared {
            Some(shared) => shared.keep(digest, states, placed),
            None => false,
        }
    }

    fn note(
        &mut self,
        _prefix: &[Decision],
        _reason: RefutedBy<Unnoted>,
    ) -> Result<Unnoted, OutOfMemory>
        ensures noted { IfOk result (λ note. Unit {0}) }
        ensures grows { Unit {0} }
    {
        Ok(Unnoted)
    }

    ghost noted_stays = { λ r s note p on was. tt };

    ghost still_for = { λ r s shape on was. was };

    ghost grows_from_itself = { λ r. tt };

    ghost grows_onward = { λ r s t first second. tt };
}
