//! The states of all objects of a plan, with a log by which a block is taken back with no memory.

ghost use Rattle.std.specs.Prelude.{◌≡◌, ◌≢◌, ◌↔◌, ◌≤◌, IsTrue, [], ◌∷◌, length, true, false, map, IfOk, OnErr, OnOk, option_map, is_some, slice_get};
ghost use Rattle.aud_kinds.specs.Objects.{answer_of, items_of, opening_of, digest_of};
ghost use Rattle.aud_object.specs.States.{meaning, number_of};
ghost use Rattle.aud_object.specs.Orders.{store_cmp};
ghost use Rattle.aud_object.specs.Logs.{back_at, LeadsBack};
ghost use Rattle.aud_object.specs.Replayed.{same_answer, after_at, answer_at, answers, replayed, Replays, Runs};

use crate::block::Block;
use crate::execution::Execution;
use crate::log::Entry;
use crate::number::Number;
use crate::state::{Change, State};
use aud_event::{Answer, Dup, ObjDecl, Op, OutOfMemory, Plan};
use std::alloc::{Allocator, Global};
use std::cmp::Ordering;
use std::marker::Model;

/// The states of all objects of a plan. Blocks run on it by `replay`, and `undo` takes the last one back.
#[derive(Drop)]
pub struct Store<A: Allocator = Global> {
    states: Vec<State<A>, A>,
    log: Vec<Entry, A>,
}

impl<A: Allocator> Model for Store<A> {
    ghost use Rattle.aud_object.specs.Meanings.{StoreOf};

    ghost Value = { StoreOf };

    ghost use Rattle.std.specs.Prelude.{map, reverse};
    ghost use Rattle.aud_object.specs.States.{meaning};
    ghost use Rattle.aud_object.specs.Logs.{levels};

    ghost view = { λ s. record { now = map meaning s.states.items; past = levels s.states.items (reverse s.log.items) } };
}

fn is_same(found: Answer, answer: Answer) -> bool
    ensures { result ≡ same_answer found answer }
{
    match (found, answer) {
        (Answer::Done, Answer::Done) => true,
        (Answer::Int(v), Answer::Int(w)) => v == w,
        (Answer::Flag(a), Answer::Flag(b)) => a == b,
        (Answer::Empty, Answer::Empty) => true,
        _ => false,
    }
}

/// Runs the operation on one object, if there is one.
fn apply_at<A: Allocator + Clone>(
    states: &mut Vec<State<A>, A>,
    object: u16,
    op: Op,
) -> Result<Option<(Answer, Option<Change>)>, OutOfMemory>
    ensures answer { IfOk result (λ r. option_map (λ a. a.0) r ≡ answer_at (map meaning states.old.items) object op) }
    ensures after { OnOk result (map meaning states.new.items ≡ after_at (map meaning states.old.items) object op) }
    ensures back { IfOk result (LeadsBack states.old.items object states.new.items) }
    ensures err { OnErr result (states.new.items ≡ states.old.items) }
{
    match states.get_mut(object as usize) {
        Some(state) => Ok(Some(state.apply_with_undo(&op)?)),
        None => Ok(None),
    }
}

fn take_back<A: Allocator + Drop>(states: &mut Vec<State<A>, A>, object: u16, change: Change)
    ensures { states.new.items ≡ back_at states.old.items object change }
{
    match states.get_mut(object as usize) {
        Some(state) => state.back(change),
        None => {}
    }
}

fn open_all<A: Allocator + Clone, B: Allocator>(
    alloc: &A,
    objects: &[ObjDecl<B>],
) -> Result<Vec<State<A>, A>, OutOfMemory>
    ensures { IfOk result (λ states. map meaning states.items ≡ map opening_of objects.now) }
{
    let mut states = Vec::new(alloc.clone()?);
    for decl in objects {
        states.push(State::opening(alloc.clone()?, decl))?;
    }
    Ok(states)
}

impl<A: Allocator + Clone> Store<A> {
    /// All objects of the plan as they open, with no block to take back.
    pub fn opening<B: Allocator>(alloc: A, plan: &Plan<B>) -> Result<Store<A>, OutOfMemory>
        ensures { IfOk result (λ store. store ≡ record { now = map opening_of plan.now.objects; past = [] }) }
    {
        let states = open_all(&alloc, plan.objects())?;
        Ok(Store {
            states,
            log: Vec::new(alloc),
        })
    }
}

fn have_same_meanings<A: Allocator + Drop>(a: &[State<A>], b: &[State<A>]) -> bool
    ensures { IsTrue result ↔ (map meaning a.now ≡ map meaning b.now) }
{
    let mut x = a;
    let mut y = b;
    loop {
        match x.split_first() {
            None => return y.is_empty(),
            Some((s, x_rest)) => match y.split_first() {
                None => return false,
                Some((t, y_rest)) => {
                    if !s.same(t) {
                        return false;
                    }
                    x = x_rest;
                    y = y_rest;
                }
            },
        }
    }
}

fn order_of_all<A: Allocator + Drop>(a: &[State<A>], b: &[State<A>]) -> Ordering
    ensures { result ≡ store_cmp (map meaning a.now) (map meaning b.now) }
{
    match a.split_first() {
        None => {
            if b.is_empty() {
                Ordering::Equal
            } else {
                Ordering::Less
            }
        }
        Some((one, a_rest)) => match b.split_first() {
            None => Ordering::Greater,
            Some((other, b_rest)) => match one.order(other) {
                Ordering::Equal => order_of_all(a_rest, b_rest),
                unequal => unequal,
            },
        },
    }
}

fn size_of_all<A: Allocator + Drop>(states: &[State<A>]) -> usize
    ensures { length states.now ≤ result }
{
    let mut size = states.len();
    for state in states {
        size = size.saturating_add(state.size());
    }
    size
}

impl<A: Allocator + Drop> Store<A> {
    /// Whether all states mean the same now. It does not allocate, and takes time linear in the sizes of the states.
    pub fn same(&self, other: &Store<A>) -> bool
        ensures { IsTrue result ↔ (self.now.now ≡ other.now.now) }
    {
        have_same_meanings(&self.states, &other.states)
    }

    /// The order of the states now, those of the first object first: registers before counters, sets, queues and maps, each by
    /// what it holds. It is total, and ties just where `same` says so. It does not allocate, and takes time linear in the sizes
    /// of the states.
    pub fn order(&self, other: &Store<A>) -> Ordering
        ensures { result ≡ store_cmp self.now.now other.now.now }
    {
        order_of_all(&self.states, &other.states)
    }

    /// A number for the object's state now, the same for states that mean the same, if there is such an object. It does not
    /// allocate, and takes time linear in the size of the state.
    pub fn digest(&self, object: usize) -> Option<u64>
        ensures { result ≡ option_map digest_of (slice_get self.now.now object) }
    {
        match self.states.get(object) {
            Some(state) => Some(state.digest()),
            None => None,
        }
    }

    /// What the object would answer to the operation now, if there is such an object. It does not allocate, and nothing changes.
    pub fn answer(&self, object: usize, op: Op) -> Option<Answer>
        ensures { result ≡ option_map (λ s. answer_of s op) (slice_get self.now.now object) }
    {
        match self.states.get(object) {
            Some(state) => Some(state.answer(&op)),
            None => None,
        }
    }

    /// The items of the object now, the front first, if there is such an object and it is a queue. It does not allocate.
    pub fn items(&self, object: usize) -> Option<&[i64]>
        ensures { option_map (λ items. items.now) result ≡ option_map items_of (slice_get self.now.now object) }
    {
        match self.states.get(object) {
            Some(state) => Some(state.items()),
            None => None,
        }
    }

    /// The object's state now, if there is such an object and it is a register or a counter. It does not allocate.
    pub fn number(&self, object: usize) -> Option<Number>
        ensures { result ≡ number_of (slice_get self.now.now object) }
    {
        let state = self.states.get(object)?;
        state.number()
    }

    /// How many numbers the states keep, or more, and one for each object: what a copy costs.
    pub fn size(&self) -> usize
        ensures { length self.now.now ≤ result }
    {
        size_of_all(&self.states)
    }

    /// How many objects there are.
    pub fn len(&self) -> usize
        ensures { result ≡ length self.now.now }
    {
        self.states.len()
    }

    /// Takes back the block that was replayed last and not taken back yet. It does not allocate.
    pub fn undo(&mut self)
        requires { self.old.past ≢ [] }
        ensures { self.old.past ≡ self.new.now ∷ self.new.past }
    {
        while let Some(entry) = self.log.pop() {
            match entry {
                Entry::Mark => return,
                Entry::Changed(object, change) => take_back(&mut self.states, object, change),
            }
        }
        unreachable!()
    }
}

impl<A: Allocator + Clone> Store<A> {
    /// The states as they are now, with no block to take back.
    pub fn present(&self) -> Result<Store<A>, OutOfMemory>
        ensures { IfOk result (λ copy. copy ≡ record { now = self.now.now; past = [] }) }
    {
        let states = dup_all(&self.states)?;
        let alloc = self.states.allocator().clone()?;
        let log = Vec::new(alloc);
        Ok(Store { states, log })
    }

    /// The states as they are now, with the same blocks to take back.
    pub fn copy(&self) -> Result<Store<A>, OutOfMemory>
        ensures { IfOk result (λ copy. copy ≡ self.now) }
    {
        let states = dup_all(&self.states)?;
        let log = self.log.clone()?;
        Ok(Store { states, log })
    }

    /// Notes where a block begins.
    fn mark(&mut self) -> Result<(), OutOfMemory>
        ensures marked { OnOk result (self.new ≡ record { now = self.old.now; past = self.old.now ∷ self.old.past }) }
        ensures err { OnErr result (self.new ≡ self.old) }
    {
        self.log.push(Entry::Mark)?;
        Ok(())
    }

    /// Whether the answer is that of the operation, which has then run.
    fn step(&mut self, object: u16, op: Op, answer: Answer) -> Result<bool, OutOfMemory>
        ensures past { self.new.past ≡ self.old.past }
        ensures right { IfOk result (λ right. right ≡ answers (answer_at self.old.now object op) answer) }
        ensures after { OnOk result (self.new.now ≡ after_at self.old.now object op) }
    {
        let Some((found, change)) = apply_at(&mut self.states, object, op)? else {
            return Ok(false);
        };
        if let Some(change) = change {
            let entry = Entry::Changed(object, change);
            if self.log.push(entry).is_err() {
                take_back(&mut self.states, object, change);
                return Err(OutOfMemory);
            }
        }
        Ok(is_same(found, answer))
    }

    fn run(&mut self, executions: &[Execution]) -> Result<bool, OutOfMemory>
        ensures past { self.new.past ≡ self.old.past }
        ensures right { IfOk result (λ right. Runs self.old.now executions.now right self.new.now) }
    {
        for x in executions {
            if !self.step(x.object, x.op, x.answer)? {
                return Ok(false);
            }
        }
        Ok(true)
    }

    /// Whether each recorded answer is the object's. If so the block has run, and `undo` takes it back; if not, and where
    /// memory runs out, the store is as it was. It costs what the block touches.
    pub fn replay<B: Allocator>(&mut self, block: &Block<B>) -> Result<bool, OutOfMemory>
        ensures right { IfOk result (λ right. Replays self.old block.now right self.new) }
        ensures err { OnErr result (self.new ≡ self.old) }
    {
        self.mark()?;
        let right = self.run(block.executions());
        if right != Ok(true) {
            self.undo();
        }
        right
    }

    /// Whether each recorded answer would be the object's. The store stays as it is.
    pub fn fits<B: Allocator>(&mut self, block: &Block<B>) -> Result<bool, OutOfMemory>
        ensures fits { IfOk result (λ right. right ≡ is_some (replayed self.old.now block.now)) }
        ensures stays { self.new ≡ self.old }
    {
        let right = self.replay(block)?;
        if right {
            self.undo();
        }
        Ok(right)
    }
}

fn dup_all<A: Allocator + Clone>(states: &Vec<State<A>, A>) -> Result<Vec<State<A>, A>, OutOfMemory>
    ensures { IfOk result (λ copy. copy.items ≡ states.now.items) }
{
    let mut copy = Vec::new(states.allocator().clone()?);
    for state in states {
        copy.push(state.dup()?)?;
    }
    Ok(copy)
}

impl<A: Allocator + Clone> Dup for Store<A> {
    fn dup(&self) -> Result<Store<A>, OutOfMemory> {
        self.copy()
    }
}
