//! What sums are at least and at most where a clause does not hold.

ghost use Rattle.std.specs.Prelude.{◌≡◌, ℤ, Bool, true, false, ◌&&◌, ◌+ℤ◌, ◌-ℤ◌, if◌then◌else◌, Some, pos, slice_get, IfOk, IfSome, IsTrue};
ghost use Rattle.aud_witness.specs.Orders.{stands_before};
ghost use Rattle.judge_clauses.specs.Clauses.{Unless};
ghost use Rattle.judge_clauses.specs.Values.{atom_of, AreValues};
ghost use Rattle.judge_clauses.specs.declared.question.Question.TheVariants.{DoesCommit, StandsBefore};
ghost use Rattle.aud_history.specs.Table.{RowOf, table_of};
ghost use Rattle.search_model.specs.Quantities.{net, net_of};
ghost use Rattle.judge_sums.specs.Sums.{total};
ghost use Rattle.judge_sums.specs.Between.{fits, IsBetween};

use crate::estimate::Estimate;
use aud_event::OutOfMemory;
use judge_clauses::{KnownFacts, Literal, Question};
use search_model::{Quantity, net, object_of};
use std::alloc::Allocator;

/// Two numbers between which another one lies.
#[derive(Clone, Copy)]
pub struct Bounds {
    pub low: i64,
    pub high: i64,
}

impl Bounds {
    /// Those of the difference, if they are i64s.
    pub fn less(self, other: Bounds) -> Option<Bounds>
        ensures { IfSome result (λ bounds. (m n : ℤ) → IsBetween self m → IsBetween other n → IsBetween bounds (m -ℤ n)) }
    {
        Some(Bounds {
            low: self.low.checked_sub(other.high)?,
            high: self.high.checked_sub(other.low)?,
        })
    }

    /// Whether the number does not lie between them.
    pub fn exclude(self, number: i64) -> bool
        ensures { IsTrue result → IsBetween self number → ⊥ }
    {
        number < self.low || self.high < number
    }
}

/// Those of 0.
pub(crate) const NOTHING: Bounds = Bounds { low: 0, high: 0 };

/// What lies between the bounds.
impl Estimate for Bounds {
    ghost says = { IsBetween };

    fn zero(self) -> Bounds {
        NOTHING
    }

    fn share(self, weight: i64, kept: Option<bool>, before: Option<bool>) -> Option<Bounds> {
        match (kept, before) {
            (Some(false), _) | (_, Some(false)) => Some(NOTHING),
            (Some(true), Some(true)) => Some(Bounds {
                low: weight,
                high: weight,
            }),
            _ if weight < 0 => Some(Bounds {
                low: weight,
                high: 0,
            }),
            _ => Some(Bounds {
                low: 0,
                high: weight,
            }),
        }
    }

    fn plus(self, other: Bounds) -> Option<Bounds> {
        Some(Bounds {
            low: self.low.checked_add(other.low)?,
            high: self.high.checked_add(other.high)?,
        })
    }

    fn excludes(self, number: i64) -> bool {
        self.exclude(number)
    }
}

/// What is known at the place.
fn value_at(values: &[Option<bool>], place: usize) -> Option<bool>
    ensures { IfSome result (λ b. slice_get values.now place ≡ Some (Some b)) }
{
    match values.get(place) {
        Some(value) => *value,
        None => None,
    }
}

/// By how much the row of the place changes the number, if that is an i64.
fn weight_at<A: Allocator + Copy>(
    facts: &KnownFacts<A>,
    quantity: Quantity,
    place: usize,
) -> Option<i64>
    ensures { IfSome result (λ n. (row : RowOf) → slice_get (table_of facts.now.history) place ≡ Some row → n ≡ net quantity row.block.executions) }
{
    if !facts.touches(place, object_of(quantity)) {
        return Some(0);
    }
    let row = facts.rows().get(place)?;
    net(quantity, row.block().executions())
}

/// What is said of what those before the reader come to, by what is known of each row.
fn sum_by<E: Estimate, A: Allocator + Copy>(
    start: E,
    facts: &KnownFacts<A>,
    clause: &[Literal],
    quantity: Quantity,
    reader: u32,
    kept: &[Option<bool>],
    before: &[Option<bool>],
) -> Option<E>
    requires fates { AreValues facts.now clause.now (atom_of DoesCommit) kept.now }
    requires places { AreValues facts.now clause.now (atom_of (StandsBefore reader)) before.now }
    ensures { IfSome result (λ sum. Unless facts.now clause.now (λ p. E.says sum (total facts.now.history (net_of facts.now.history quantity) p reader))) }
{
    let _clause = clause;
    let mut sum = start.zero();
    for place in 0..facts.rows().len() {
        let weight = weight_at(facts, quantity, place)?;
        let own = start.share(weight, value_at(kept, place), value_at(before, place))?;
        sum = sum.plus(own)?;
    }
    Some(sum)
}

/// Notes that the transaction does not stand before the reader.
fn put_out<A: Allocator + Copy>(
    facts: &KnownFacts<A>,
    clause: &[Literal],
    reader: u32,
    out: u32,
    before: &mut [Option<bool>],
)
    requires known { Unless facts.now clause.now (λ p. stands_before p out reader ≡ false) }
    requires places { AreValues facts.now clause.now (atom_of (StandsBefore reader)) before.old }
    ensures { AreValues facts.now clause.now (atom_of (StandsBefore reader)) before.new }
{
    let _clause = clause;
    if let Some(place) = facts.place(out) {
        if place < before.len() {
            before[place] = Some(false);
        }
    }
}

/// What is said, as `start` says it, of what those before the reader come to, where the clause does not hold.
pub(crate) fn estimated<E: Estimate, A: Allocator + Copy>(
    alloc: A,
    start: E,
    facts: &KnownFacts<A>,
    clause: &[Literal],
    quantity: Quantity,
    reader: u32,
) -> Result<Option<E>, OutOfMemory>
    ensures { IfOk result (λ found. IfSome found (λ sum. Unless facts.now clause.now (λ p. E.says sum (total facts.now.history (net_of facts.now.history quantity) p reader)))) }
{
    let kept = facts.values(alloc, clause, Question::DoesCommit)?;
    let before = facts.values(alloc, clause, Question::StandsBefore(reader))?;
    Ok(sum_by(start, facts, clause, quantity, reader, &kept, &before))
}

/// The bounds of what those before the reader come to, where the clause does not hold.
pub fn sum_bounds<A: Allocator + Copy>(
    alloc: A,
    facts: &KnownFacts<A>,
    clause: &[Literal],
    quantity: Quantity,
    reader: u32,
) -> Result<Option<Bounds>, OutOfMemory>
    ensures { IfOk result (λ found. IfSome found (λ bounds. Unless facts.now clause.now (λ p. IsBetween bounds (total facts.now.history (net_of facts.now.history quantity) p reader)))) }
{
    estimated(alloc, NOTHING, facts, clause, quantity, reader)
}

/// The bounds of what those before the reader come to, where the clause does not hold, and one transaction is known not to stand before the reader.
pub fn sum_bounds_without<A: Allocator + Copy>(
    alloc: A,
    facts: &KnownFacts<A>,
    clause: &[Literal],
    quantity: Quantity,
    reader: u32,
    out: u32,
) -> Result<Option<Bounds>, OutOfMemory>
    requires { Unless facts.now clause.now (λ p. stands_before p out reader ≡ false) }
    ensures { IfOk result (λ found. IfSome found (λ bounds. Unless facts.now clause.now (λ p. IsBetween bounds (total facts.now.history (net_of facts.now.history quantity) p reader)))) }
{
    let kept = facts.values(alloc, clause, Question::DoesCommit)?;
    let mut before = facts.values(alloc, clause, Question::StandsBefore(reader))?;
    put_out(facts, clause, reader, out, &mut before);
    Ok(sum_by(NOTHING, facts, clause, quantity, reader, &kept, &before))
}
