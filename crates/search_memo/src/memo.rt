//! What a search remembers: which transactions refuted prefixes placed and the states of all objects that they left, and to which states the
//! blocks of transactions lead. Of two good prefixes that placed the same transactions and left the same states, both are refuted or neither.

ghost use Rattle.std.specs.Prelude.{◌≡◌, ◌<◌, [], Some, List, IsTrue, IfSome, IfOk, MatchOption, length, slice_get};
ghost use Rattle.aud_witness.specs.declared.decision.Decision.{Decision};
ghost use Rattle.std.specs.List.{Contains};
ghost use Rattle.aud_witness.specs.declared.decision.Fate.TheVariants.{C};
ghost use Rattle.aud_witness.specs.Orders.{Refuted};
ghost use Rattle.aud_history.specs.Table.{transactions};
ghost use Rattle.aud_order.specs.Shapes.{history_of};
ghost use Rattle.search_visited.specs.Visited.{entry, with_place};
ghost use Rattle.search_memo.specs.StoredStates.{LeadsTo};
ghost use Rattle.search_memo.specs.Memos.{states_reached, Names, IsTransition, AreWith, IsGrown, IsReported, IsStep, IsNext, IsAfter, LeavesStates, IsRefutedEntry, IsRefutedAt, IsRefutedAfter};
ghost use Rattle.search_memo.specs.Recorders.{IsReason, IsNotedAlike, HasNote, IsNotedAfter};

use crate::choice::{Choice, Visibility};
use crate::recorder::{Recorder, RefutedBy};
use crate::stored_states::{BlockStep, Finder, StoredStates, keep_states, size_of_shared};
use aud_event::OutOfMemory;
use aud_object::Store;
use aud_order::{Cursor, Shape};
use aud_witness::{Decision, Fate};
use base_bits::Marks;
use search_visited::{Index, Look, VisitedSet, forget_first, give_back, hash_of, reserve, take};
use std::alloc::{Allocator, Global};
use std::marker::Model;
use std::mem::size_of;
use std::sync::Arc;

/// The block of the transaction leads from the states of one number to those of another.
#[derive(Clone, Copy)]
pub struct Transition {
    pub from: usize,
    pub tx: u32,
    pub to: usize,
}

/// States as others may have them, and their digest.
#[derive(Drop)]
pub struct Seen<A: Allocator> {
    states: Arc<Store<A>, A>,
    digest: u64,
}

/// Configurations of refuted prefixes of one shape, and where blocks lead. States that many of them share are kept once, under a number.
///
/// A configuration is which transactions a prefix placed, and the states that it leaves. It is kept as words: the number of the states,
/// then the marks of the rows that were placed. Each has the note of its prefix, and what notes the prefixes is kept here too.
///
/// A part of the room is for configurations: when it is used up the older half of them is forgotten. The other part is for states, with their
/// numbers, and for transitions: when it is used up the transitions are forgotten, and when states take it up alone the memo is full. It
/// then waits to be begun anew, as searches hold numbers of states; until then new states get none. Where memory is refused the
/// same is forgotten.
#[derive(Drop)]
pub struct Memo<'a, N: Copy, R: Recorder<N, A>, A: Allocator + Copy = Global> {
    alloc: A,
    shape: &'a Shape<A>,
    kept: Vec<StoredStates<A>, A>,
    finder: Finder<A>,
    transitions: Vec<Transition, A>,
    transitions_by_hash: Index<A>,
    visited: VisitedSet<A>,
    notes: Vec<N, A>,
    seen: Vec<Option<Seen<A>>, A>,
    recorder: R,
    room: usize,
    states_room: usize,
    visited_room: usize,
    is_short: bool,
    is_full: bool,
}

impl<'a, N: Copy, R: Recorder<N, A>, A: Allocator + Copy> Model for Memo<'a, N, R, A> {
    ghost use Rattle.aud_order.specs.Shapes.{history_of};
    ghost use Rattle.search_memo.specs.StoredStates.{states_of};
    ghost use Rattle.search_memo.specs.Memos.{MemoOf, entries_of, IsTrueMemo, AreSeen};

    ghost Value = { MemoOf R };

    ghost view = { λ m. record { shape = m.shape.now; states = states_of (history_of m.shape.now) m.kept.items; recorder = m.recorder } };

    ghost invariant = { λ m. IsTrueMemo m.shape.now (states_of (history_of m.shape.now) m.kept.items)
        (R.noted m.recorder) (entries_of (history_of m.shape.now) m.visited) m.notes.items m.transitions.items
        × R.is_for m.recorder m.shape.now
        × AreSeen (states_of (history_of m.shape.now) m.kept.items) m.seen.items };
}

/// Of how many numbers the largest states are that others may have.
pub const LARGEST_SEEN: usize = 32;

/// How many bytes a transition takes.
const TRANSITION: usize = size_of::<Transition>();

/// How many bytes states take as others may have them, beside these.
const SEEN: usize = size_of::<Option<Seen<Global>>>();

/// How many bytes the note of a recorder takes that keeps notes.
const NOTE: usize = size_of::<usize>();

/// How many slots are looked at before something counts as not found.
const LOOKS: usize = 64;

/// How much of the room is for states and transitions, and how much for configurations: where others know of what is refuted, few are
/// left to keep here.
fn parts_of(room: usize, is_sharing: bool) -> (usize, usize) {
    let visited = if is_sharing { room / 4 } else { room / 2 };
    (room.saturating_sub(visited), visited)
}

/// Where the transaction's block leads from the states of the number, if that is known.
fn find_transition<A: Allocator + Copy>(
    transitions: &[Transition],
    by_hash: &Index<A>,
    from: usize,
    tx: u32,
) -> Option<usize>
    ensures { MatchOption result (Unit {0}) (λ to. Contains transitions.now (record { from = from; tx = tx; to = to })) }
{
    let hash = hash_of(from as u64, tx as u64);
    for step in 0..LOOKS {
        match by_hash.look(hash, step) {
            Look::Free => return None,
            Look::Other => {}
            Look::At(place) => {
                if place < transitions.len()
                    && transitions[place].from == from
                    && transitions[place].tx == tx
                {
                    return Some(transitions[place].to);
                }
            }
        }
    }
    None
}

/// The note at the place, if there is one.
fn note_at<N: Copy>(notes: &[N], place: usize) -> Option<N>
    ensures { result ≡ slice_get notes.now place }
{
    notes.get(place).copied()
}

/// A copy of the states that several may have, if there is memory for it.
fn shared_copy<A: Allocator + Copy>(alloc: A, store: &Store<A>) -> Option<Arc<Store<A>, A>>
    ensures { IfSome result (λ states. states.value.now ≡ store.now.now) }
{
    let copy = store.present().ok()?;
    let states = Arc::new(alloc, copy).ok()?;
    Some(states)
}

/// The states as others may have them, if they are few and there is room and memory for them.
fn seen_of<A: Allocator + Copy>(
    alloc: A,
    finder: &mut Finder<A>,
    room: &mut usize,
    store: &Store<A>,
) -> Option<Seen<A>>
    ensures { IfSome result (λ seen. seen.states.value.now ≡ store.now.now) }
{
    if store.size() > LARGEST_SEEN {
        return None;
    }
    let digest = finder.digest(store)?;
    let size = size_of_shared(store);
    if !take(room, size) {
        return None;
    }
    let Some(states) = shared_copy(alloc, store) else {
        give_back(room, size);
        return None;
    };
    Some(Seen { states, digest })
}

/// The states of the number as others may have them, if they may.
fn seen_at<A: Allocator>(seen: &[Option<Seen<A>>], number: usize) -> Option<&Seen<A>>
    ensures { IfSome result (λ found. slice_get seen.now number ≡ Some (Some found.now)) }
{
    match seen.get(number) {
        Some(Some(found)) => Some(found),
        _ => None,
    }
}

/// Whether the choice leaves the states of all objects.
fn leaves_states(choice: &Choice) -> bool
    ensures { LeavesStates choice.now result }
{
    match choice.decision.fate {
        Fate::A => true,
        Fate::C => choice.visibility == Visibility::Silent,
    }
}

/// A transition comes after the others, if there is room and memory for it.
fn keep_transition<A: Allocator + Copy>(
    transitions: &mut Vec<Transition, A>,
    by_hash: &mut Index<A>,
    room: &mut usize,
    transition: Transition,
) -> Result<(), OutOfMemory>
    ensures { AreWith transitions.old.items transitions.new.items transition }
{
    if !reserve(room, transitions, 1, TRANSITION) {
        return Err(OutOfMemory);
    }
    by_hash.put(
        hash_of(transition.from as u64, transition.tx as u64),
        transitions.len(),
        room,
    )?;
    transitions.push(transition)?;
    Ok(())
}

impl<'a, N: Copy, R: Recorder<N, A>, A: Allocator + Copy> Memo<'a, N, R, A> {
    /// A memo of nothing, with so much room in bytes. It does not allocate.
    pub fn new(alloc: A, shape: &'a Shape<A>, recorder: R, room: usize) -> Memo<'a, N, R, A>
        requires { R.is_for recorder shape.now }
        ensures { result ≡ record { shape = shape.entry.now; states = []; recorder = recorder } }
    {
        let (states_room, visited_room) = parts_of(room, recorder.is_sharing());
        Memo {
            alloc,
            shape,
            kept: Vec::new(alloc),
            finder: Finder::new(alloc),
            transitions: Vec::new(alloc),
            transitions_by_hash: Index::new(alloc),
            visited: VisitedSet::new(alloc),
            notes: Vec::new(alloc),
            seen: Vec::new(alloc),
            recorder,
            room,
            states_room,
            visited_room,
            is_short: false,
            is_full: false,
        }
    }

    /// What noted the prefixes.
    pub fn into_recorder(self) -> R
        ensures recorder { result ≡ self.entry.recorder }
        ensures own { R.is_for result self.entry.shape }
    {
        self.recorder
    }

    /// Notes the cursor's prefix, which is refuted for the reason.
    pub fn note(&mut self, cursor: &Cursor<A>, reason: RefutedBy<N>) -> Result<N, OutOfMemory>
        requires shape { self.old.shape ≡ cursor.now.shape }
        requires reason { IsReason (R.noted self.old.recorder) cursor.now.shape cursor.now.path reason }
        ensures noted { IfOk result (λ note. R.noted self.new.recorder note cursor.now.path) }
        ensures reported { IsReported R.grows self.old self.new }
    {
        self.recorder.note(cursor.prefix(), reason)
    }

    /// Whether nothing needs to be noted.
    pub fn records_nothing(&self) -> bool
        ensures { IsTrue result → ((p : List Decision) → HasNote (R.noted self.now.recorder) p) }
    {
        self.recorder.records_nothing()
    }

    /// The number of the states where the cursor stands, which may be a new one, if there is room and memory for it.
    fn number(&mut self, step: Option<BlockStep>, cursor: &Cursor<A>) -> Option<usize>
        requires { LeadsTo (history_of self.old.shape) self.old.states step (states_reached cursor.now.shape cursor.now.path) }
        ensures grown { IsGrown self.old self.new }
        ensures named { Names self.new.states result (states_reached cursor.now.shape cursor.now.path) }
    {
        let known = self.kept.len();
        let number = keep_states(
            &mut self.kept,
            &mut self.finder,
            self.shape,
            &mut self.states_room,
            step,
            cursor.store(),
        );
        match number {
            Some(number) => {
                self.is_short = self.is_short && self.kept.len() == known;
                self.see(number, cursor.store());
            }
            None => self.run_short(),
        }
        number
    }

    /// Notes that there was no room for states: the transitions are forgotten, or where they were since the last new states the memo
    /// is full.
    fn run_short(&mut self)
        ensures { self.new ≡ self.old }
    {
        if self.is_short {
            self.is_full = true;
            return;
        }
        self.is_short = true;
        self.forget_transitions();
    }

    /// Forgets the transitions, and has their room again.
    fn forget_transitions(&mut self)
        ensures { self.new ≡ self.old }
    {
        let size = self.transitions.capacity().saturating_mul(TRANSITION);
        give_back(
            &mut self.states_room,
            size.saturating_add(self.transitions_by_hash.size()),
        );
        self.transitions = Vec::new(self.alloc);
        self.transitions_by_hash = Index::new(self.alloc);
    }

    /// Whether there is no room for new states.
    pub fn is_full(&self) -> bool {
        self.is_full
    }

    /// Forgets all, and has the whole room again. No states have a number then.
    pub fn begin_anew(&mut self)
        ensures { self.new ≡ record { shape = self.old.shape; states = []; recorder = self.old.recorder } }
    {
        self.visited = VisitedSet::new(self.alloc);
        self.notes = Vec::new(self.alloc);
        self.transitions = Vec::new(self.alloc);
        self.transitions_by_hash = Index::new(self.alloc);
        self.seen = Vec::new(self.alloc);
        self.kept = Vec::new(self.alloc);
        self.finder.forget(self.alloc);
        let (states_room, visited_room) = parts_of(self.room, self.recorder.is_sharing());
        self.states_room = states_room;
        self.visited_room = visited_room;
        self.is_short = false;
        self.is_full = false;
    }

    /// Has the states of the number as others may have them, where the recorder shares what it hears of.
    fn see(&mut self, number: usize, store: &Store<A>)
        requires { Names self.old.states (Some number) store.now.now }
        ensures { self.new ≡ self.old }
    {
        if number != self.seen.len() || !self.recorder.is_sharing() {
            return;
        }
        if !reserve(&mut self.states_room, &mut self.seen, 1, SEEN) {
            self.forget_transitions();
            return;
        }
        let seen = seen_of(self.alloc, &mut self.finder, &mut self.states_room, store);
        let is_short = seen.is_none() && store.size() <= LARGEST_SEEN;
        let _ = self.seen.push(seen);
        if is_short {
            self.forget_transitions();
        }
    }

    /// The note of a refuted prefix that others know of, which leaves the states of the number and places the rows that are marked,
    /// with one further where there is one. It does not allocate.
    fn find_shared(&self, number: usize, placed: &Marks<A>, further: Option<usize>) -> Option<N>
        requires rows { length placed.now ≡ length (transactions (history_of self.now.shape)) }
        requires further { MatchOption further (Unit {0}) (λ k. k < length placed.now) }
        ensures { IfSome result (λ note. IsRefutedEntry self.now.shape self.now.states (R.noted self.now.recorder note)
            (entry (with_place placed.now further) number)) }
    {
        let seen = seen_at(&self.seen, number)?;
        self.recorder
            .find(seen.digest, &seen.states, placed, further)
    }

    /// The note of a refuted prefix that is remembered here or that others know of, which leaves the states of the number and places
    /// the rows that are marked, with one further where there is one. It does not allocate.
    fn find_refuted(&self, number: usize, placed: &Marks<A>, further: Option<usize>) -> Option<N>
        requires rows { length placed.now ≡ length (transactions (history_of self.now.shape)) }
        requires further { MatchOption further (Unit {0}) (λ k. k < length placed.now) }
        ensures { IfSome result (λ note. IsRefutedEntry self.now.shape self.now.states (R.noted self.now.recorder note)
            (entry (with_place placed.now further) number)) }
    {
        if let Some(note) = self.find_shared(number, placed, further) {
            return Some(note);
        }
        let place = self.visited.find(number, placed, further)?;
        note_at(&self.notes, place)
    }

    /// The search begins at another prefix. What is remembered stays.
    pub fn move_away(&mut self)
        ensures { self.new ≡ self.old }
    {
        self.finder.move_away();
    }

    /// The search went on by the decision, or took it back.
    pub fn touch(&mut self, decision: Decision)
        ensures { self.new ≡ self.old }
    {
        match decision.fate {
            Fate::A => {}
            Fate::C => self.finder.touch(self.shape, decision.tx),
        }
    }

    /// Where the transaction's block leads from the states of the number, if that is known.
    fn transition(&self, from: usize, tx: u32) -> Option<usize>
        ensures { MatchOption result (Unit {0}) (λ to. IsTransition self.now.shape self.now.states (record { from = from; tx = tx; to = to })) }
    {
        find_transition(&self.transitions, &self.transitions_by_hash, from, tx)
    }

    /// The number of the states after a choice that is good where the states have the number, if that is known.
    fn after(&self, before: usize, choice: &Choice) -> Option<usize>
        ensures { MatchOption result (choice.now.decision.fate ≡ C) (λ to. IsAfter self.now before choice.now to) }
    {
        if leaves_states(choice) {
            Some(before)
        } else {
            self.transition(before, choice.decision.tx)
        }
    }

    /// Remembers where a block leads, if there is room and memory for it.
    fn remember_transition(&mut self, transition: Transition)
        requires { IsTransition self.old.shape self.old.states transition }
        ensures { self.new ≡ self.old }
    {
        let _ = keep_transition(
            &mut self.transitions,
            &mut self.transitions_by_hash,
            &mut self.states_room,
            transition,
        );
    }

    /// The number of the states where the cursor stands, after a choice that was good where the states have the number
    /// `from`, if it is known or there is room and memory for it. Where nothing was refuted yet, no number is asked for.
    pub fn follow(
        &mut self,
        from: Option<usize>,
        choice: &Choice,
        cursor: &Cursor<A>,
    ) -> Option<usize>
        requires { IsStep self.old from choice.now cursor.now }
        ensures grown { IsGrown self.old self.new }
        ensures named { Names self.new.states result (states_reached cursor.now.shape cursor.now.path) }
    {
        let _sound = self.shape.history();
        let _within = self.shape.plan();
        let _good = cursor.prefix();
        if self.visited.is_empty() && !self.recorder.is_sharing() {
            return None;
        }
        let Some(before) = from else {
            return self.number(None, cursor);
        };
        if let Some(to) = self.after(before, choice) {
            return Some(to);
        }
        let tx = choice.decision.tx;
        let known = self.kept.len();
        let to = self.number(Some(BlockStep { from: before, tx }), cursor)?;
        // To states that are met for the first time few ways lead.
        if to < known {
            self.remember_transition(Transition {
                from: before,
                tx,
                to,
            });
        }
        Some(to)
    }

    /// The note of a refuted prefix that placed the transactions that the cursor's prefix places, and left the same states, which
    /// have the number. It does not allocate.
    pub fn knows(&self, states: Option<usize>, cursor: &Cursor<A>) -> Option<N>
        requires shape { self.now.shape ≡ cursor.now.shape }
        requires named { Names self.now.states states (states_reached cursor.now.shape cursor.now.path) }
        ensures refuted { IfSome result (λ note. IsRefutedAt cursor.now) }
        ensures alike { IfSome result (λ note. IsNotedAlike cursor.now.shape (R.noted self.now.recorder note) cursor.now.path) }
    {
        let _sound = self.shape.history();
        let _within = self.shape.plan();
        let _good = cursor.prefix();
        let Some(number) = states else {
            return None;
        };
        self.find_refuted(number, cursor.placed(), None)
    }

    /// The note of a refuted prefix that is the same as the cursor's with the choice after it, if one is known by where the
    /// choice's block leads. No block runs, and it does not allocate.
    pub fn knows_after(
        &self,
        states: Option<usize>,
        choice: &Choice,
        cursor: &Cursor<A>,
    ) -> Option<N>
        requires { IsNext self.now states choice.now cursor.now }
        ensures refuted { IfSome result (λ note. IsRefutedAfter cursor.now choice.now.decision) }
        ensures alike { IfSome result (λ note. IsNotedAfter cursor.now choice.now.decision (R.noted self.now.recorder note)) }
    {
        let _sound = self.shape.history();
        let _within = self.shape.plan();
        let _good = cursor.prefix();
        let Some(before) = states else {
            return None;
        };
        let Some(after) = self.after(before, choice) else {
            return None;
        };
        self.find_refuted(after, cursor.placed(), Some(choice.place))
    }

    /// Remembers the cursor's prefix, which is refuted, with its note, if memory is there for it.
    pub fn learn(&mut self, states: Option<usize>, note: N, cursor: &Cursor<A>)
        requires shape { self.old.shape ≡ cursor.now.shape }
        requires named { Names self.old.states states (states_reached cursor.now.shape cursor.now.path) }
        requires refuted { IsRefutedAt cursor.now }
        requires noted { R.noted self.old.recorder note cursor.now.path }
        ensures { IsGrown self.old self.new }
    {
        let number = match states {
            Some(number) => Some(number),
            None => self.number(None, cursor),
        };
        if let Some(number) = number {
            if !self.share_refuted(number, note, cursor) {
                self.keep_refuted(number, note, cursor);
            }
        }
    }

    /// Has others know of the cursor's prefix, which is refuted, and whose states have the number, if they may.
    fn share_refuted(&self, states: usize, note: N, cursor: &Cursor<A>) -> bool
        requires shape { self.now.shape ≡ cursor.now.shape }
        requires named { Names self.now.states (Some states) (states_reached cursor.now.shape cursor.now.path) }
        requires refuted { IsRefutedAt cursor.now }
        requires noted { R.noted self.now.recorder note cursor.now.path }
    {
        let _good = cursor.prefix();
        let placed = cursor.placed();
        match seen_at(&self.seen, states) {
            Some(seen) => self.recorder.keep(seen.digest, &seen.states, placed, note),
            None => false,
        }
    }

    /// Forgets the older half of the configurations.
    fn forget_older(&mut self)
        ensures { self.new ≡ self.old }
    {
        let gone = self.visited.forget_older();
        forget_first(&mut self.notes, gone);
    }

    /// Keeps the configuration of the cursor's prefix, which is refuted, and whose states have the number.
    fn keep_refuted(&mut self, states: usize, note: N, cursor: &Cursor<A>)
        requires shape { self.old.shape ≡ cursor.now.shape }
        requires named { Names self.old.states (Some states) (states_reached cursor.now.shape cursor.now.path) }
        requires refuted { IsRefutedAt cursor.now }
        requires noted { R.noted self.old.recorder note cursor.now.path }
        ensures { self.new ≡ self.old }
    {
        let _good = cursor.prefix();
        let placed = cursor.placed();
        let size = if self.recorder.records_nothing() {
            0
        } else {
            NOTE
        };
        if !reserve(&mut self.visited_room, &mut self.notes, 1, size) {
            self.forget_older();
            return;
        }
        if self.visited.keep(states, placed, &mut self.visited_room) {
            let Ok(()) = self.notes.push(note) else {
                unreachable!()
            };
            return;
        }
        self.forget_older();
    }
}
