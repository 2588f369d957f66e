//! Whether a history is opaque: by stages, and then by a search of all prefixes.

ghost use Rattle.std.specs.Prelude.{◌≡◌, IfOk, OnOk, MatchOption};
ghost use Rattle.aud_order.specs.Shapes.{objects_of, history_of};
ghost use Rattle.search_prefix.specs.Searches.{Decides, DecidesByLetter};

use crate::learning::{Effort, decide_by_clauses};
use aud_event::OutOfMemory;
use aud_order::Shape;
use aud_witness::Prefix;
use aud_witness::laws::letter_is_opaque;
use search_memo::{BOUND, Memo, Order, Unnoted, Unrecorded};
use search_prefix::{Decided, Outcome, search};
use std::alloc::Global;

/// A stage of `decide`, which may leave open whether the history is opaque.
#[derive(Clone, Copy)]
enum Stage {
    /// A search by last events that hardly backtracks.
    Straight,
    /// A search by last events of so many prefixes.
    Bounded(u64),
    /// Clause learning over the order of transactions.
    Learning(Effort),
}

/// The schedule of `decide`. A run that is easy is decided by the first search; clause learning decides most others. What it does not decide
/// in some seconds a longer search may, if the run is small. After the last stage `decide_on` searches all prefixes, which ends every question.
const STAGES: [Stage; 4] = [
    Stage::Straight,
    Stage::Learning(SHORT),
    Stage::Bounded(PREFIXES),
    Stage::Learning(LONG),
];

/// Half of the memory is for what searches refute, and half for clauses.
const HALF: usize = BOUND / 2;

/// Clause learning of some seconds.
const SHORT: Effort = Effort {
    conflicts: 60_000,
    work: 1 << 32,
    bytes: HALF,
};

/// Clause learning of some minutes.
pub const LONG: Effort = Effort {
    conflicts: 2_000_000,
    work: 1 << 38,
    bytes: HALF,
};

/// How many prefixes a search of some seconds expands.
const PREFIXES: u64 = 1 << 20;

/// How many prefixes are expanded, beside one for each transaction, before anything else is tried.
const FIRST: u64 = 64;

/// How many prefixes of the shape a search expands that hardly backtracks.
pub(crate) fn straight_budget(shape: &Shape) -> u64 {
    FIRST.saturating_add(shape.table().rows().len() as u64)
}

/// Whether the history is opaque, with an order that shows it where it is. That is so by orders with fates, and by the letter of
/// Guerraoui and Kapałka (PPoPP 2008).
pub fn decide(alloc: Global, shape: &Shape) -> Result<Decided, OutOfMemory>
    ensures decides { IfOk result (Decides (objects_of shape.now) (history_of shape.now)) }
    ensures letter { IfOk result (DecidesByLetter (objects_of shape.now) (history_of shape.now)) }
{
    letter_is_opaque();
    let _well_formed = shape.history();
    decide_by_prefixes(alloc, shape)
}

/// Whether the history is opaque: by stages, and then by a search of all prefixes. What a search refuted the next ones remember.
fn decide_by_prefixes(alloc: Global, shape: &Shape) -> Result<Decided, OutOfMemory>
    ensures { IfOk result (Decides (objects_of shape.now) (history_of shape.now)) }
{
    let mut memo = Memo::new(alloc, shape, Unrecorded, HALF);
    let decided = decide_by_stages(alloc, shape, &mut memo)?;
    match decided {
        Some(decided) => Ok(decided),
        None => decide_on(alloc, shape, &mut memo),
    }
}

/// Decides the history, if one of the stages does.
fn decide_by_stages<'a>(
    alloc: Global,
    shape: &'a Shape,
    memo: &mut Memo<'a, Unnoted, Unrecorded>,
) -> Result<Option<Decided>, OutOfMemory>
    requires memo { memo.old.shape ≡ shape.now }
    ensures decided { IfOk result (λ o. MatchOption o (Unit {0}) (Decides (objects_of shape.now) (history_of shape.now))) }
    ensures shape { OnOk result (memo.new.shape ≡ memo.old.shape) }
{
    for stage in STAGES {
        if let Some(decided) = decide_in(alloc, shape, stage, memo)? {
            return Ok(Some(decided));
        }
    }
    Ok(None)
}

/// Decides the history, if the stage does.
fn decide_in<'a>(
    alloc: Global,
    shape: &'a Shape,
    stage: Stage,
    memo: &mut Memo<'a, Unnoted, Unrecorded>,
) -> Result<Option<Decided>, OutOfMemory>
    requires memo { memo.old.shape ≡ shape.now }
    ensures decided { IfOk result (λ o. MatchOption o (Unit {0}) (Decides (objects_of shape.now) (history_of shape.now))) }
    ensures shape { OnOk result (memo.new.shape ≡ memo.old.shape) }
{
    match stage {
        Stage::Straight => decide_within(alloc, shape, straight_budget(shape), memo),
        Stage::Bounded(prefixes) => decide_within(alloc, shape, prefixes, memo),
        Stage::Learning(effort) => decide_by_clauses(alloc, shape, effort),
    }
}

/// Decides the history, if a search of so many prefixes does.
fn decide_within<'a>(
    alloc: Global,
    shape: &'a Shape,
    prefixes: u64,
    memo: &mut Memo<'a, Unnoted, Unrecorded>,
) -> Result<Option<Decided>, OutOfMemory>
    requires memo { memo.old.shape ≡ shape.now }
    ensures decided { IfOk result (λ o. MatchOption o (Unit {0}) (Decides (objects_of shape.now) (history_of shape.now))) }
    ensures shape { OnOk result (memo.new.shape ≡ memo.old.shape) }
{
    let empty = Prefix::empty(alloc);
    memo.move_away();
    match search(
        alloc,
        shape,
        Order::Last(0),
        empty.decisions(),
        Some(prefixes),
        memo,
    )? {
        Outcome::Witness(witness) => Ok(Some(Decided::Opaque(witness))),
        Outcome::Refuted => Ok(Some(Decided::NotOpaque)),
        Outcome::Spent => Ok(None),
    }
}

/// Decides the history by a search of all prefixes, over what is remembered of the shape.
fn decide_on<'a>(
    alloc: Global,
    shape: &'a Shape,
    memo: &mut Memo<'a, Unnoted, Unrecorded>,
) -> Result<Decided, OutOfMemory>
    requires memo { memo.old.shape ≡ shape.now }
    ensures { IfOk result (Decides (objects_of shape.now) (history_of shape.now)) }
{
    let empty = Prefix::empty(alloc);
    memo.move_away();
    match search(alloc, shape, Order::Last(0), empty.decisions(), None, memo)? {
        Outcome::Witness(witness) => Ok(Decided::Opaque(witness)),
        Outcome::Refuted => Ok(Decided::NotOpaque),
        // Without a budget none is spent.
        Outcome::Spent => unreachable!(),
    }
}
