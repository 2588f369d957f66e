//! Propagation of units: what a clause leaves where literals are taken to hold.

ghost use Rattle.std.specs.Prelude.{◌≡◌, ℕ, Bool, true, IfOk, IsTrue, OnOk};
ghost use Rattle.judge_clauses.specs.Clauses.{is_true, Follows};
ghost use Rattle.judge_clauses.specs.Units.{may_hold, Leaves, AssumesUnless};

use crate::clause::{Literal, Step};
use crate::trail::Trail;
use aud_event::OutOfMemory;
use std::alloc::Allocator;

/// What a clause leaves of its literals.
#[derive(Clone, Copy, PartialEq, Eq)]
pub(crate) enum Left {
    /// None may hold.
    Nothing,
    /// Only this one may hold.
    One(Literal),
    /// More of them may.
    Many,
}

/// One more literal that may hold.
fn with(left: Left, literal: Literal) -> Left
    ensures keeps { (v : ℕ → Bool) → may_hold v left ≡ true → may_hold v result ≡ true }
    ensures adds { (v : ℕ → Bool) → is_true v literal ≡ true → may_hold v result ≡ true }
{
    match left {
        Left::Nothing => Left::One(literal),
        Left::One(other) if other == literal => left,
        Left::One(_) | Left::Many => Left::Many,
    }
}

/// What the clause leaves where the trail's literals hold.
fn left_of<A: Allocator>(trail: &Trail<A>, clause: &[Literal]) -> Left
    ensures { Leaves trail.now clause.now result }
{
    let mut left = Left::Nothing;
    for literal in clause {
        if !trail.refutes(literal) {
            left = with(left, *literal);
        }
    }
    left
}

/// Takes it that no literal of the clause holds, and nothing else.
fn assume_none<A: Allocator>(trail: &mut Trail<A>, clause: &[Literal]) -> Result<(), OutOfMemory>
    ensures { OnOk result (AssumesUnless clause.now trail.new) }
{
    trail.clear();
    for literal in clause {
        trail.put(literal.opposite())?;
    }
    Ok(())
}

/// Whether the clause follows from the first `count` steps: where none of its literals holds, those at the places leave one literal each in
/// turn, and the last one none.
pub(crate) fn follows<L, A: Allocator>(
    trail: &mut Trail<A>,
    steps: &[Step<L, A>],
    count: usize,
    clause: &[Literal],
    places: &[u32],
) -> Result<bool, OutOfMemory>
    ensures { IfOk result (λ yes. IsTrue yes → Follows steps.now count clause.now) }
{
    assume_none(trail, clause)?;
    for place in places {
        let place = *place as usize;
        if place >= count || place >= steps.len() {
            return Ok(false);
        }
        match left_of(trail, steps[place].clause()) {
            Left::Nothing => return Ok(true),
            Left::One(literal) => trail.put(literal)?,
            Left::Many => return Ok(false),
        }
    }
    Ok(false)
}
