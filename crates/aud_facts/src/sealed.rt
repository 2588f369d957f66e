//! A sealed set of facts with its history.

ghost use Rattle.std.specs.Prelude.{◌≡◌};
ghost use Rattle.aud_facts.specs.Sets.{IsSealedWith};

use crate::fact_set::Facts;
use aud_history::History;
use std::alloc::{Allocator, Global};
use std::marker::Model;

/// A set of facts that is sealed, with its history: the events of its records in the order of their stamps.
#[derive(Drop)]
pub struct Sealed<A: Allocator + Copy = Global> {
    pub(crate) facts: Facts<A>,
    pub(crate) history: History<A>,
}

impl<A: Allocator + Copy> Model for Sealed<A> {
    ghost use Rattle.std.specs.Prelude.{◌≡◌};
    ghost use Rattle.aud_facts.specs.Sets.{SealedOf, IsSealedWith};

    ghost Value = { SealedOf };

    ghost view = { λ s. record { facts = s.facts; history = s.history.events } };

    ghost invariant = { λ s. IsSealedWith s.facts s.history.events × (s.history.plan ≡ s.facts.plan) };
}

impl<A: Allocator + Copy> Sealed<A> {
    /// The facts.
    pub fn facts(&self) -> &Facts<A>
        ensures facts { result.now ≡ self.now.facts }
        ensures sealed { IsSealedWith self.now.facts self.now.history }
    {
        &self.facts
    }

    /// The history of the facts, under their plan.
    pub fn history(&self) -> &History<A>
        ensures history { result.now ≡ record { plan = self.now.facts.plan; events = self.now.history } }
        ensures sealed { IsSealedWith self.now.facts self.now.history }
    {
        &self.history
    }
}
