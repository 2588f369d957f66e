//! Clauses on the places of items in a queue.

ghost use Rattle.std.specs.Prelude.{◌≡◌, ◌-ℤ◌, pos, true, false, nat_eq, IfOk, IfSome, IsTrue};
ghost use Rattle.judge_clauses.specs.Clauses.{says, is_kept_in, Unless, IsValid};
ghost use Rattle.aud_witness.specs.Orders.{stands_before};
ghost use Rattle.judge_clauses.specs.declared.clause.Atom.TheVariants.{Item};
ghost use Rattle.search_model.specs.declared.quantity.Quantity.TheVariants.{Takes, Additions, Shortening};
ghost use Rattle.judge_sums.specs.Between.{IsBetween};
ghost use Rattle.search_model.specs.Quantities.{net_of};
ghost use Rattle.judge_sums.specs.Laws.{ComesTo};
ghost use Rattle.judge_sums.specs.Sums.{total};

use crate::known::{asked_in, is_queue};
use aud_event::{Answer, OutOfMemory};
use judge_clauses::{Atom, KnownFacts, Literal, Take};
use judge_sums::{Bounds, sum_bounds, sum_bounds_without};
use search_model::Quantity;
use std::alloc::Allocator;

/// Whether the adder does not commit, or does not stand before the taker, where the clause does not hold.
pub(crate) fn never_comes<A: Allocator + Copy>(
    facts: &KnownFacts<A>,
    clause: &[Literal],
    adder: u32,
    taker: u32,
) -> bool
    ensures { IsTrue result → Unless facts.now clause.now (λ p. is_kept_in p adder ≡ true → stands_before p adder taker ≡ true → ⊥) }
{
    if facts.is_not_so(clause, Atom::Commits(adder)) {
        return true;
    }
    facts.is_not_so(clause, Atom::Before(adder, taker))
}

/// Whether another transaction adds what is taken, though it does not stand before the taker or does not commit where the clause does not hold.
pub(crate) fn is_apart<A: Allocator + Copy>(
    facts: &KnownFacts<A>,
    clause: &[Literal],
    take: Take,
    adder: u32,
    addition: u32,
) -> bool
    ensures { IsTrue result → IsValid facts.now clause.now }
{
    if adder == take.taker || !facts.is_there(take.taker) {
        return false;
    }
    if !facts.is_so(clause, Atom::Item(take, adder, addition)) {
        return false;
    }
    never_comes(facts, clause, adder, take.taker)
}

/// The bounds of what is taken before the taker less what is added before the adder, which stands before the taker, where the clause does not
/// hold.
fn place_bounds<A: Allocator + Copy>(
    alloc: A,
    facts: &KnownFacts<A>,
    clause: &[Literal],
    take: Take,
    adder: u32,
) -> Result<Option<Bounds>, OutOfMemory>
    requires { Unless facts.now clause.now (λ p. stands_before p take.taker adder ≡ false) }
    ensures { IfOk result (λ found. IfSome found (λ bounds. Unless facts.now clause.now (λ p. IsBetween bounds (total facts.now.history (net_of facts.now.history (Takes take.object)) p take.taker -ℤ total facts.now.history (net_of facts.now.history (Additions take.object)) p adder)))) }
{
    let taken = Quantity::Takes(take.object);
    let Some(takes) = sum_bounds(alloc, facts, clause, taken, take.taker)? else {
        return Ok(None);
    };
    let added = Quantity::Additions(take.object);
    let without = take.taker;
    let found = sum_bounds_without(alloc, facts, clause, added, adder, without)?;
    let Some(additions) = found else {
        return Ok(None);
    };
    Ok(takes.less(additions))
}

/// How many more are taken before than are added before, where the addition is what is taken.
fn place_of(take: Take, addition: u32) -> i64
    ensures { result ≡ pos addition -ℤ pos take.number }
{
    i64::from(addition) - i64::from(take.number)
}

/// Whether another one's addition cannot be at its place where the clause does not hold.
fn is_other_displaced<A: Allocator + Copy>(
    alloc: A,
    facts: &KnownFacts<A>,
    clause: &[Literal],
    take: Take,
    adder: u32,
    addition: u32,
) -> Result<bool, OutOfMemory>
    ensures { IfOk result (λ yes. IsTrue yes → IsValid facts.now clause.now) }
{
    let item = Atom::Item(take, adder, addition);
    if adder == take.taker || !facts.is_there(take.taker) || !facts.is_so(clause, item) {
        return Ok(false);
    }
    match place_bounds(alloc, facts, clause, take, adder)? {
        Some(bounds) => Ok(bounds.exclude(place_of(take, addition))),
        None => Ok(false),
    }
}

/// Whether the taker's own addition cannot be at its place where the clause does not hold.
fn is_own_displaced<A: Allocator + Copy>(
    alloc: A,
    facts: &KnownFacts<A>,
    clause: &[Literal],
    take: Take,
    addition: u32,
) -> Result<bool, OutOfMemory>
    ensures { IfOk result (λ yes. IsTrue yes → IsValid facts.now clause.now) }
{
    let item = Atom::Item(take, take.taker, addition);
    if !facts.is_there(take.taker) || !facts.is_so(clause, item) {
        return Ok(false);
    }
    let shortening = Quantity::Shortening(take.object);
    match sum_bounds(alloc, facts, clause, shortening, take.taker)? {
        Some(bounds) => Ok(bounds.exclude(place_of(take, addition))),
        None => Ok(false),
    }
}

/// Whether the addition cannot be at its place where the clause does not hold.
pub(crate) fn is_displaced<A: Allocator + Copy>(
    alloc: A,
    facts: &KnownFacts<A>,
    clause: &[Literal],
    take: Take,
    adder: u32,
    addition: u32,
) -> Result<bool, OutOfMemory>
    ensures { IfOk result (λ yes. IsTrue yes → IsValid facts.now clause.now) }
{
    if adder == take.taker {
        is_own_displaced(alloc, facts, clause, take, addition)
    } else {
        is_other_displaced(alloc, facts, clause, take, adder, addition)
    }
}

/// How much shorter the queue is made before the transaction whose execution at the place found it empty.
fn shortening<A: Allocator + Copy>(
    facts: &KnownFacts<A>,
    taker: u32,
    queue: u16,
    place: usize,
) -> Option<i64>
    ensures { IfSome result (ComesTo facts.now (Shortening queue) taker) }
{
    let _history = facts.history();
    if !is_queue(facts, queue) {
        return None;
    }
    let asked = asked_in(facts, taker, queue, place)?;
    let Answer::Empty = asked.answer else {
        return None;
    };
    let Ok(additions) = i64::try_from(asked.additions) else {
        return None;
    };
    let Ok(takes) = i64::try_from(asked.takes) else {
        return None;
    };
    additions.checked_sub(takes)
}

/// Whether the queue cannot have been found empty where the clause does not hold.
pub(crate) fn is_filled<A: Allocator + Copy>(
    alloc: A,
    facts: &KnownFacts<A>,
    clause: &[Literal],
    taker: u32,
    queue: u16,
    place: usize,
) -> Result<bool, OutOfMemory>
    ensures { IfOk result (λ yes. IsTrue yes → IsValid facts.now clause.now) }
{
    let Some(number) = shortening(facts, taker, queue, place) else {
        return Ok(false);
    };
    match sum_bounds(alloc, facts, clause, Quantity::Shortening(queue), taker)? {
        Some(bounds) => Ok(bounds.exclude(number)),
        None => Ok(false),
    }
}
