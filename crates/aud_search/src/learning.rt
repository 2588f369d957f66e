//! What clause learning over the order of transactions tells of a history. What the engine says is not trusted: an order is tried, and a
//! refutation is judged.

ghost use Rattle.std.specs.Prelude.{◌≡◌, IfOk, IfSome, MatchOption};
ghost use Rattle.aud_witness.specs.Orders.{Shows};
ghost use Rattle.aud_order.specs.Shapes.{objects_of, history_of};
ghost use Rattle.search_prefix.specs.Searches.{Decides};
ghost use Rattle.aud_search.specs.Learned.{IsLearned};

use aud_event::OutOfMemory;
use aud_order::{Cursor, Shape};
use aud_witness::laws::shows_is_full_and_good;
use aud_witness::{Decision, Prefix};
use judge_clauses::{Judgement, Refutation, judge};
use judge_laws::ObjectLaw;
pub use search_engine::Effort;
use search_engine::{Solved, solve};
use search_prefix::Decided;
use std::alloc::Global;

/// So much work of the engine takes about as long as a search takes for a prefix, where many transactions run at once.
const WORK_OF_A_PREFIX: u64 = 1 << 16;

/// Clause learning that takes about as long as a search of so many prefixes.
pub(crate) fn effort_of(prefixes: u64, bytes: usize) -> Effort {
    Effort {
        conflicts: prefixes,
        work: prefixes.saturating_mul(WORK_OF_A_PREFIX),
        bytes,
    }
}

/// The decisions as an order, if it shows the history. Each block runs once.
fn tried(
    alloc: Global,
    shape: &Shape,
    decisions: &[Decision],
) -> Result<Option<Prefix>, OutOfMemory>
    ensures { IfOk result (λ found. IfSome found (Shows (objects_of shape.now) (history_of shape.now))) }
{
    shows_is_full_and_good();
    let Some(cursor) = Cursor::after(alloc, shape, decisions)? else {
        return Ok(None);
    };
    if !cursor.full() {
        return Ok(None);
    }
    Ok(Some(Prefix::copy_of(alloc, decisions)?))
}

/// What clause learning tells of a history.
#[derive(Drop)]
pub enum Learned {
    /// This order shows it.
    Opaque(Prefix),
    /// No order does, and the refutation says why.
    NotOpaque(Refutation<ObjectLaw>),
    /// Nothing.
    Unknown,
}

/// What the order tells.
fn learn_order(alloc: Global, shape: &Shape, decisions: &[Decision]) -> Result<Learned, OutOfMemory>
    ensures { IfOk result (IsLearned (objects_of shape.now) (history_of shape.now)) }
{
    match tried(alloc, shape, decisions)? {
        Some(order) => Ok(Learned::Opaque(order)),
        None => Ok(Learned::Unknown),
    }
}

/// What the refutation tells.
fn learn_refutation(
    alloc: Global,
    shape: &Shape,
    refutation: Refutation<ObjectLaw>,
) -> Result<Learned, OutOfMemory>
    ensures { IfOk result (IsLearned (objects_of shape.now) (history_of shape.now)) }
{
    let history = shape.history();
    match judge(alloc, history, &refutation)? {
        Judgement::Refutes => Ok(Learned::NotOpaque(refutation)),
        Judgement::Refused(_) => Ok(Learned::Unknown),
    }
}

/// What clause learning tells with that effort: an order that was tried, or a refutation that was judged.
pub fn learn(alloc: Global, shape: &Shape, effort: Effort) -> Result<Learned, OutOfMemory>
    ensures { IfOk result (IsLearned (objects_of shape.now) (history_of shape.now)) }
{
    match solve(alloc, shape, effort)? {
        Solved::Order(decisions) => learn_order(alloc, shape, &decisions),
        Solved::Refuted(refutation) => learn_refutation(alloc, shape, refutation),
        Solved::Unknown => Ok(Learned::Unknown),
    }
}

/// Whether the history is opaque, as far as clause learning tells with that effort.
pub(crate) fn decide_by_clauses(
    alloc: Global,
    shape: &Shape,
    effort: Effort,
) -> Result<Option<Decided>, OutOfMemory>
    ensures { IfOk result (λ o. MatchOption o (Unit {0}) (Decides (objects_of shape.now) (history_of shape.now))) }
{
    match learn(alloc, shape, effort)? {
        Learned::Opaque(order) => Ok(Some(Decided::Opaque(order))),
        Learned::NotOpaque(_) => Ok(Some(Decided::NotOpaque)),
        Learned::Unknown => Ok(None),
    }
}
