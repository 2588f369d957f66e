//! Circles of transactions, of which each would stand before the next one.

ghost use Rattle.std.specs.Prelude.{◌≡◌, IsTrue};
ghost use Rattle.judge_clauses.specs.Clauses.{IsValid};

use crate::clause::{Atom, Literal};
use crate::facts::KnownFacts;
use std::alloc::Allocator;

impl<'a, A: Allocator + Copy> KnownFacts<'a, A> {
    /// Whether each of the circle stands before the next one where the clause does not hold, and the last one before the first: that cannot
    /// be, so the clause holds.
    pub(crate) fn is_circle(&self, clause: &[Literal], circle: &[u32]) -> bool
        ensures { IsTrue result → IsValid self.now clause.now }
    {
        if circle.is_empty() {
            return false;
        }
        let first = circle[0];
        let mut last = first;
        for i in 1..circle.len() {
            if !self.is_so(clause, Atom::Before(last, circle[i])) {
                return false;
            }
            last = circle[i];
        }
        self.is_so(clause, Atom::Before(last, first))
    }
}
