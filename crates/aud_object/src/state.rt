//! The state of one object, of whichever kind, and what an operation changed of it, so that it can be taken back with no memory.

ghost use Rattle.std.specs.Prelude.{◌≡◌, ◌↔◌, IsTrue, IfOk, OnErr, OnOk, MatchOption};
ghost use Rattle.aud_kinds.specs.Objects.{answer_of, after_op, items_of, opening_of, digest_of};
ghost use Rattle.aud_object.specs.States.{meaning, back, number_in};
ghost use Rattle.aud_kinds.specs.Orders.{place_of, state_cmp};

use crate::number::Number;
use aud_event::{Answer, Dup, ObjDecl, ObjKind, Op, OutOfMemory};
use aud_kinds::{Counter, MapOf, ObjectSpec, Queue, Register, SetOf};
use base_undo::{Items, ItemsChange, TombstoneChange, TombstoneMap};
use std::alloc::{Allocator, Global};
use std::cmp::Ordering;

/// The state of one object.
#[derive(Drop)]
pub(crate) enum State<A: Allocator = Global> {
    Register(i64),
    Counter(i64),
    SetOf(TombstoneMap<(), A>),
    Queue(Items<A>),
    MapOf(TombstoneMap<i64, A>),
}

/// What has to be known to take a change back, by the kind of the object.
#[derive(Clone, Copy)]
pub(crate) enum Change {
    Register(i64),
    Counter(i64),
    SetOf(TombstoneChange<()>),
    Queue(ItemsChange),
    MapOf(TombstoneChange<i64>),
}

// the log of a search has one for each operation that changes something
const _: () = prove!(size_of::<Change>() <= 32);

impl<A: Allocator + Clone> State<A> {
    /// Runs the operation, and says what it changed. An operation that is not of the kind answers Done and changes nothing.
    pub(crate) fn apply_with_undo(
        &mut self,
        op: &Op,
    ) -> Result<(Answer, Option<Change>), OutOfMemory>
        ensures answer { IfOk result (λ a. a.0 ≡ answer_of (meaning self.old) op.now) }
        ensures after { OnOk result (meaning self.new ≡ after_op (meaning self.old) op.now) }
        ensures back { IfOk result (λ a. MatchOption a.1 (self.new ≡ self.old) (λ change. back self.new change ≡ self.old)) }
        ensures err { OnErr result (self.new ≡ self.old) }
    {
        // by cases: a change that went through `map` would be copied in memory, which a search feels
        match self {
            State::Register(state) => match Register::<A>::apply_with_undo(state, op)? {
                (answer, Some(change)) => Ok((answer, Some(Change::Register(change)))),
                (answer, None) => Ok((answer, None)),
            },
            State::Counter(state) => match Counter::<A>::apply_with_undo(state, op)? {
                (answer, Some(change)) => Ok((answer, Some(Change::Counter(change)))),
                (answer, None) => Ok((answer, None)),
            },
            State::SetOf(state) => match SetOf::<A>::apply_with_undo(state, op)? {
                (answer, Some(change)) => Ok((answer, Some(Change::SetOf(change)))),
                (answer, None) => Ok((answer, None)),
            },
            State::Queue(state) => match Queue::<A>::apply_with_undo(state, op)? {
                (answer, Some(change)) => Ok((answer, Some(Change::Queue(change)))),
                (answer, None) => Ok((answer, None)),
            },
            State::MapOf(state) => match MapOf::<A>::apply_with_undo(state, op)? {
                (answer, Some(change)) => Ok((answer, Some(Change::MapOf(change)))),
                (answer, None) => Ok((answer, None)),
            },
        }
    }
}

impl<A: Allocator + Drop> State<A> {
    /// The state at which an object opens.
    pub(crate) fn opening<B: Allocator>(alloc: A, decl: &ObjDecl<B>) -> State<A>
        ensures { meaning result ≡ opening_of decl.now }
    {
        let value = decl.opening;
        match decl.kind {
            ObjKind::Register => State::Register(Register::opening(alloc, value)),
            ObjKind::Counter => State::Counter(Counter::opening(alloc, value)),
            ObjKind::SetOf => State::SetOf(SetOf::opening(alloc, value)),
            ObjKind::Queue => State::Queue(Queue::opening(alloc, value)),
            ObjKind::MapOf => State::MapOf(MapOf::opening(alloc, value)),
        }
    }

    /// Whether the two states mean the same, in time linear in their sizes.
    pub(crate) fn same(&self, other: &State<A>) -> bool
        ensures { IsTrue result ↔ (meaning self.now ≡ meaning other.now) }
    {
        match (self, other) {
            (State::Register(v), State::Register(w)) => Register::<A>::same(v, w),
            (State::Counter(v), State::Counter(w)) => Counter::<A>::same(v, w),
            (State::SetOf(s), State::SetOf(t)) => SetOf::same(s, t),
            (State::Queue(p), State::Queue(q)) => Queue::same(p, q),
            (State::MapOf(m), State::MapOf(n)) => MapOf::same(m, n),
            _ => false,
        }
    }

    /// The place of the kind among the kinds.
    fn place(&self) -> u64
        ensures { result ≡ place_of (meaning self.now) }
    {
        match self {
            State::Register(_) => 1,
            State::Counter(_) => 2,
            State::SetOf(_) => 3,
            State::Queue(_) => 4,
            State::MapOf(_) => 5,
        }
    }

    /// The order of two states: by kind, and then by what they hold, in time linear in their sizes.
    pub(crate) fn order(&self, other: &State<A>) -> Ordering
        ensures { result ≡ state_cmp (meaning self.now) (meaning other.now) }
    {
        match (self, other) {
            (State::Register(v), State::Register(w)) => Register::<A>::order(v, w),
            (State::Counter(v), State::Counter(w)) => Counter::<A>::order(v, w),
            (State::SetOf(s), State::SetOf(t)) => SetOf::order(s, t),
            (State::Queue(p), State::Queue(q)) => Queue::order(p, q),
            (State::MapOf(m), State::MapOf(n)) => MapOf::order(m, n),
            _ => self.place().cmp(&other.place()),
        }
    }

    /// What the operation would be answered now.
    pub(crate) fn answer(&self, op: &Op) -> Answer
        ensures { result ≡ answer_of (meaning self.now) op.now }
    {
        match self {
            State::Register(state) => Register::<A>::answer(state, op),
            State::Counter(state) => Counter::<A>::answer(state, op),
            State::SetOf(state) => SetOf::answer(state, op),
            State::Queue(state) => Queue::answer(state, op),
            State::MapOf(state) => MapOf::answer(state, op),
        }
    }

    /// The items of a queue, the front first. Of other kinds there are none.
    pub(crate) fn items(&self) -> &[i64]
        ensures { result.now ≡ items_of (meaning self.now) }
    {
        match self {
            State::Queue(items) => items.left(),
            _ => &[],
        }
    }

    /// The state's number, if it has just one.
    pub(crate) fn number(&self) -> Option<Number>
        ensures { result ≡ number_in (meaning self.now) }
    {
        match self {
            State::Register(value) => Some(Number::Register(*value)),
            State::Counter(value) => Some(Number::Counter(*value)),
            State::SetOf(_) | State::Queue(_) | State::MapOf(_) => None,
        }
    }

    /// A number that is the same for states that mean the same, in time linear in their size.
    pub(crate) fn digest(&self) -> u64
        ensures { result ≡ digest_of (meaning self.now) }
    {
        match self {
            State::Register(state) => Register::<A>::digest(state),
            State::Counter(state) => Counter::<A>::digest(state),
            State::SetOf(state) => SetOf::digest(state),
            State::Queue(state) => Queue::digest(state),
            State::MapOf(state) => MapOf::digest(state),
        }
    }

    /// How many numbers are kept beside the state's own.
    pub(crate) fn size(&self) -> usize {
        match self {
            State::Register(state) => Register::<A>::size(state),
            State::Counter(state) => Counter::<A>::size(state),
            State::SetOf(state) => SetOf::size(state),
            State::Queue(state) => Queue::size(state),
            State::MapOf(state) => MapOf::size(state),
        }
    }

    /// Takes back what the change was.
    pub(crate) fn back(&mut self, change: Change)
        ensures { self.new ≡ back self.old change }
    {
        match (self, change) {
            (State::Register(state), Change::Register(change)) => Register::<A>::back(
                state, change,
            ),
            (State::Counter(state), Change::Counter(change)) => Counter::<A>::back(state, change),
            (State::SetOf(state), Change::SetOf(change)) => SetOf::back(state, change),
            (State::Queue(state), Change::Queue(change)) => Queue::back(state, change),
            (State::MapOf(state), Change::MapOf(change)) => MapOf::back(state, change),
            _ => {}
        }
    }
}

impl<A: Allocator + Clone> Dup for State<A> {
    fn dup(&self) -> Result<State<A>, OutOfMemory> {
        match self {
            State::Register(state) => Ok(State::Register(Register::<A>::copy(state)?)),
            State::Counter(state) => Ok(State::Counter(Counter::<A>::copy(state)?)),
            State::SetOf(state) => Ok(State::SetOf(SetOf::copy(state)?)),
            State::Queue(state) => Ok(State::Queue(Queue::copy(state)?)),
            State::MapOf(state) => Ok(State::MapOf(MapOf::copy(state)?)),
        }
    }
}
