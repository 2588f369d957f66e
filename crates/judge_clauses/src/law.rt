//! What a kind of objects brings: laws by which clauses hold.

ghost use Rattle.std.specs.Prelude.{IfOk, IsTrue};

use crate::clause::Literal;
use crate::facts::KnownFacts;
use aud_event::OutOfMemory;
use std::alloc::Allocator;

/// A law of objects, with what it is applied to.
pub trait Law {
    ghost use Rattle.judge_clauses.specs.Clauses.{IsValid};

    /// Whether the clause is an instance of the law, so that it holds in each order that shows the history.
    fn is_right<A: Allocator + Copy>(
        &self,
        alloc: A,
        facts: &KnownFacts<A>,
        clause: &[Literal],
    ) -> Result<bool, OutOfMemory>
        ensures { IfOk result (λ yes. IsTrue yes → IsValid facts.now clause.now) };
}
