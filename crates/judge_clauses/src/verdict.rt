//! Whether steps refute a history.

ghost use Rattle.std.specs.Prelude.{◌≡◌, [], IfOk, IsTrue};
ghost use Rattle.aud_history.specs.WellFormed.{IsWellFormed};
ghost use Rattle.aud_witness.specs.Orders.{Refuted};
ghost use Rattle.judge_clauses.specs.Clauses.{IsValid, AreValid};

use crate::clause::{Reason, Refutation, Step};
use crate::facts::KnownFacts;
use crate::law::Law;
use crate::trail::Trail;
use crate::units::follows;
use aud_event::OutOfMemory;
use aud_history::History;
use std::alloc::Allocator;

/// Whether the step is right after the first `count` of the steps.
fn is_right<L: Law, A: Allocator + Copy>(
    alloc: A,
    facts: &KnownFacts<A>,
    trail: &mut Trail<A>,
    steps: &[Step<L, A>],
    count: usize,
    step: &Step<L, A>,
) -> Result<bool, OutOfMemory>
    requires { AreValid facts.now steps.now count }
    ensures { IfOk result (λ yes. IsTrue yes → IsValid facts.now step.now) }
{
    let clause = step.clause();
    match step.reason() {
        Reason::Units(numbers) => follows(trail, steps, count, clause, numbers),
        Reason::Circle(circle) => Ok(facts.is_circle(clause, circle)),
        Reason::Law(law) => law.is_right(alloc, facts, clause),
    }
}

/// What comes of judging a refutation.
#[derive(Clone, Copy, PartialEq, Eq)]
pub enum Judgement {
    /// Its steps are right, each after those before it, up to one without a literal.
    Refutes,
    /// The step of this number is not right; or there are no more than so many, and none is without a literal.
    Refused(usize),
}

/// Goes over the steps, each after those before it, up to one without a literal.
fn reach_empty_clause<L: Law, A: Allocator + Copy>(
    alloc: A,
    facts: &KnownFacts<A>,
    trail: &mut Trail<A>,
    steps: &[Step<L, A>],
) -> Result<Judgement, OutOfMemory>
    ensures { IfOk result (λ j. j ≡ Judgement.Refutes → IsValid facts.now []) }
{
    for i in 0..steps.len() {
        let step = &steps[i];
        if !is_right(alloc, facts, trail, steps, i, step)? {
            return Ok(Judgement::Refused(i));
        }
        if step.clause().is_empty() {
            return Ok(Judgement::Refutes);
        }
    }
    Ok(Judgement::Refused(steps.len()))
}

/// Judges a refutation, whoever made it: where its steps are right, each after those before it, up to one without a literal, no order shows the
/// history.
pub fn judge<L: Law, A: Allocator + Copy>(
    alloc: A,
    history: &History<A>,
    refutation: &Refutation<L, A>,
) -> Result<Judgement, OutOfMemory>
    requires { IsWellFormed history.now.events }
    ensures { IfOk result (λ j. j ≡ Judgement.Refutes → Refuted history.now.plan.objects history.now.events []) }
{
    let facts = KnownFacts::of(alloc, history, &refutation.atoms)?;
    let mut trail = Trail::new(alloc, refutation.atoms.len())?;
    reach_empty_clause(alloc, &facts, &mut trail, &refutation.steps)
}
