//! States under numbers, kept by the blocks that lead to them.

ghost use Rattle.std.specs.Prelude.{◌≡◌, IfSome, IsTrue, MatchOption, Some, reverse};
ghost use Rattle.aud_history.specs.Table.{row_of};
ghost use Rattle.aud_order.specs.Shapes.{history_of};
ghost use Rattle.search_memo.specs.Memos.{Names};
ghost use Rattle.search_memo.specs.StoredStates.{IsMoreOf, states_of, run_way, IsWayTo, LeadsTo, LeadsFrom, IsKeptOf};

use crate::digests::Digests;
use aud_object::{Block, Store};
use aud_order::Shape;
use search_visited::{Index, Look, give_back, reserve, take};
use std::alloc::{Allocator, Global};
use std::mem::size_of;

/// States under a number, and how they are kept.
#[derive(Drop)]
pub(crate) enum StoredStates<A: Allocator = Global> {
    /// By a copy of all of them.
    Whole(Store<A>),
    /// By the step that leads to them, and what runs from whole ones on.
    After(BlockStep, Cost),
}

/// From the states under a number by the block of a transaction.
#[derive(Clone, Copy)]
pub(crate) struct BlockStep {
    pub from: usize,
    pub tx: u32,
}

/// How many blocks run, and how many operations are in them.
#[derive(Clone, Copy)]
pub(crate) struct Cost {
    pub blocks: usize,
    pub operations: usize,
}

/// What finds states again: where those of a digest are, the digest of those where the search stands, and room for a way. It is
/// trusted with nothing.
#[derive(Drop)]
pub(crate) struct Finder<A: Allocator + Copy = Global> {
    by_digest: Index<A>,
    digests: Digests<A>,
    way: Vec<u32, A>,
}

impl<A: Allocator + Copy> Finder<A> {
    /// Of nothing. It does not allocate.
    pub(crate) fn new(alloc: A) -> Finder<A> {
        Finder {
            by_digest: Index::new(alloc),
            digests: Digests::new(alloc),
            way: Vec::new(alloc),
        }
    }

    /// Nothing is known of where the search stands.
    pub(crate) fn move_away(&mut self) {
        self.digests.forget();
    }

    /// Forgets where states of a digest are.
    pub(crate) fn forget(&mut self, alloc: A) {
        self.by_digest = Index::new(alloc);
    }

    /// The digest of where the search stands.
    pub(crate) fn digest(&mut self, store: &Store<A>) -> Option<u64> {
        self.digests.all(store)
    }

    /// The transaction's block ran where the search stands, or was taken back.
    pub(crate) fn touch(&mut self, shape: &Shape<A>, tx: u32) {
        if let Some(block) = block_of(shape, tx) {
            self.digests.touch(block);
        }
    }
}

/// How many slots are looked at before states count as not found.
const LOOKS: usize = 64;

/// The most blocks that run from whole states on.
const LONGEST: usize = 64;

/// How many bytes states take where they stand, by whatever they are kept.
const KEPT: usize = size_of::<StoredStates<Global>>();

/// How many bytes a copy of a store takes for an object, and the most for the first and for each further member or item of one.
const OBJECT: usize = 40;

const FIRST: usize = 128;

const FURTHER: usize = 32;

/// The most that a copy takes beside that, and a copy that several have once more.
const HEAD: usize = 96;

/// The most that taking an operation back takes, or a block, where it ran on kept states: 32 bytes in a list that doubles.
const ENTRY: usize = 64;

/// The block of the transaction, if the history has it.
fn block_of<A: Allocator + Copy>(shape: &Shape<A>, tx: u32) -> Option<&Block<A>>
    ensures { MatchOption result (Unit {0}) (λ block. block.now ≡ (row_of (history_of shape.now) tx).block) }
{
    let table = shape.table();
    match table.place(tx) {
        Some(place) => Some(table.rows()[place].block()),
        None => None,
    }
}

/// Whether the blocks of the transactions, the last one first, lead to the states of another store. Whatever ran is taken
/// back.
fn leads_to<A: Allocator + Copy>(
    store: &mut Store<A>,
    shape: &Shape<A>,
    way: &[u32],
    other: &Store<A>,
) -> bool
    ensures reported { IsTrue result → run_way (history_of shape.now) store.old.now (reverse way.now) ≡ Some other.now.now }
    ensures stays { store.new ≡ store.old }
{
    let Some((tx, rest)) = way.split_last() else {
        return store.same(other);
    };
    let Some(block) = block_of(shape, *tx) else {
        return false;
    };
    if store.replay(block) != Ok(true) {
        return false;
    }
    let is_there = leads_to(store, shape, rest, other);
    store.undo();
    is_there
}

/// The number of whole states from which blocks lead to those under a number. Their transactions are put down, the last
/// first.
fn way_to<A: Allocator + Copy>(
    kept: &[StoredStates<A>],
    way: &mut Vec<u32, A>,
    number: usize,
) -> Option<usize>
    ensures { IsWayTo kept.now number way.new.items result }
{
    way.clear();
    let mut at = number;
    while way.len() <= LONGEST {
        match kept.get(at)? {
            StoredStates::Whole(_) => return Some(at),
            StoredStates::After(step, _) => {
                if step.from >= at || way.push(step.tx).is_err() {
                    return None;
                }
                at = step.from;
            }
        }
    }
    None
}

/// Whether the blocks lead from whole states to those of a store. It is taken back.
fn leads_from<A: Allocator + Copy>(
    kept: &mut StoredStates<A>,
    shape: &Shape<A>,
    way: &[u32],
    other: &Store<A>,
) -> bool
    ensures reported { IsTrue result → LeadsFrom (history_of shape.now) kept.old (reverse way.now) other.now.now }
    ensures stays { kept.new ≡ kept.old }
{
    match kept {
        StoredStates::Whole(store) => leads_to(store, shape, way, other),
        StoredStates::After(_, _) => false,
    }
}

/// Whether the number is that of the store's states.
fn is_kept<A: Allocator + Copy>(
    kept: &mut Vec<StoredStates<A>, A>,
    shape: &Shape<A>,
    way: &mut Vec<u32, A>,
    number: usize,
    store: &Store<A>,
) -> bool
    ensures reported { IsTrue result → Names (states_of (history_of shape.now) kept.old.items) (Some number) store.now.now }
    ensures stays { kept.new.items ≡ kept.old.items }
{
    let Some(first) = way_to(kept, way, number) else {
        return false;
    };
    match kept.get_mut(first) {
        Some(whole) => leads_from(whole, shape, way, store),
        None => false,
    }
}

/// The number of the store's states, if it is found.
fn find_states<A: Allocator + Copy>(
    kept: &mut Vec<StoredStates<A>, A>,
    finder: &mut Finder<A>,
    shape: &Shape<A>,
    digest: u64,
    store: &Store<A>,
) -> Option<usize>
    ensures reported { Names (states_of (history_of shape.now) kept.old.items) result store.now.now }
    ensures stays { kept.new.items ≡ kept.old.items }
{
    for step in 0..LOOKS {
        match finder.by_digest.look(digest, step) {
            Look::Free => return None,
            Look::Other => {}
            Look::At(number) => {
                if is_kept(kept, shape, &mut finder.way, number, store) {
                    return Some(number);
                }
            }
        }
    }
    None
}

/// How many operations are in the block of the step.
fn operations_of<A: Allocator + Copy>(shape: &Shape<A>, step: BlockStep) -> usize {
    match block_of(shape, step.tx) {
        Some(block) => block.executions().len(),
        None => 0,
    }
}

/// What would run from whole states on, the block of the step last.
fn cost_of<A: Allocator + Copy>(
    kept: &[StoredStates<A>],
    shape: &Shape<A>,
    step: BlockStep,
) -> Cost {
    let (blocks, operations) = match kept.get(step.from) {
        Some(StoredStates::After(_, cost)) => (cost.blocks, cost.operations),
        _ => (0, 0),
    };
    Cost {
        blocks: blocks.saturating_add(1),
        operations: operations.saturating_add(operations_of(shape, step)),
    }
}

/// The most that a copy of the store's states takes beside the place where it stands, in bytes. Objects stand in a list that doubles,
/// from four on.
fn size_of_whole<A: Allocator + Copy>(store: &Store<A>) -> usize {
    let objects = store.len();
    let values = store.size().saturating_sub(objects);
    let places = objects.max(4).checked_next_power_of_two();
    let size = places.unwrap_or(usize::MAX).saturating_mul(OBJECT);
    size.saturating_add(values.min(objects).saturating_mul(FIRST))
        .saturating_add(values.saturating_mul(FURTHER))
        .saturating_add(HEAD)
}

/// The most that a copy of the store's states that several have takes beside the place where it stands, in bytes.
pub(crate) fn size_of_shared<A: Allocator + Copy>(store: &Store<A>) -> usize {
    size_of_whole(store).saturating_add(HEAD)
}

/// The most that the block of a step takes while it runs on the states from which it is kept, in bytes.
fn size_of_step<A: Allocator + Copy>(shape: &Shape<A>, step: BlockStep) -> usize {
    operations_of(shape, step)
        .saturating_add(1)
        .saturating_mul(ENTRY)
}

/// A copy of the store's states, if there is room and memory for it.
fn copy_of<A: Allocator + Copy>(room: &mut usize, store: &Store<A>) -> Option<Store<A>>
    ensures { IfSome result (λ copy. copy.now ≡ store.now.now) }
{
    let size = size_of_whole(store);
    if !take(room, size) {
        return None;
    }
    match store.present() {
        Ok(copy) => Some(copy),
        Err(_) => {
            give_back(room, size);
            None
        }
    }
}

/// How the store's states are kept: after others, where few blocks run from whole ones on, with no more operations than a copy
/// has numbers, or whole, if there is room and memory for that.
fn kept_as<A: Allocator + Copy>(
    kept: &[StoredStates<A>],
    shape: &Shape<A>,
    room: &mut usize,
    step: Option<BlockStep>,
    store: &Store<A>,
) -> Option<StoredStates<A>>
    requires { LeadsTo (history_of shape.now) (states_of (history_of shape.now) kept.now) step store.now.now }
    ensures { IsKeptOf (history_of shape.now) kept.now store.now.now result }
{
    if let Some(step) = step {
        let cost = cost_of(kept, shape, step);
        if cost.blocks <= LONGEST && cost.operations <= store.size() {
            if !take(room, size_of_step(shape, step)) {
                return None;
            }
            return Some(StoredStates::After(step, cost));
        }
    }
    let copy = copy_of(room, store)?;
    Some(StoredStates::Whole(copy))
}

/// What they take beside the place where they stand, in bytes.
fn size_beside<A: Allocator + Copy>(shape: &Shape<A>, fresh: &StoredStates<A>) -> usize {
    match fresh {
        StoredStates::Whole(store) => size_of_whole(store),
        StoredStates::After(step, _) => size_of_step(shape, *step),
    }
}

/// The number of the store's states, which may come after the others, if there is room and memory for them.
pub(crate) fn keep_states<A: Allocator + Copy>(
    kept: &mut Vec<StoredStates<A>, A>,
    finder: &mut Finder<A>,
    shape: &Shape<A>,
    room: &mut usize,
    step: Option<BlockStep>,
    store: &Store<A>,
) -> Option<usize>
    requires { LeadsTo (history_of shape.now) (states_of (history_of shape.now) kept.old.items) step store.now.now }
    ensures grown { IsMoreOf (states_of (history_of shape.now) kept.old.items) (states_of (history_of shape.now) kept.new.items) }
    ensures there { Names (states_of (history_of shape.now) kept.new.items) result store.now.now }
{
    let digest = finder.digests.all(store)?;
    if let Some(number) = find_states(kept, finder, shape, digest, store) {
        return Some(number);
    }
    if !reserve(room, kept, 1, KEPT) {
        return None;
    }
    let fresh = kept_as(kept, shape, room, step, store)?;
    let number = kept.len();
    if finder.by_digest.put(digest, number, room).is_err() {
        give_back(room, size_beside(shape, &fresh));
        return None;
    }
    let Ok(()) = kept.push(fresh) else {
        return None;
    };
    Some(number)
}
