//! What a search found of a history.

ghost use Rattle.std.specs.Prelude.{◌≡◌};
ghost use Rattle.aud_witness.specs.Orders.{Refuted, Shows};
ghost use Rattle.aud_order.specs.Shapes.{objects_of, history_of};
ghost use Rattle.aud_know.specs.Norms.{refuted, shown};
ghost use Rattle.aud_know.specs.Findings.{claimed, IsTrueFinding};

use crate::claim::Claim;
use aud_facts::Facts;
use aud_order::Shape;
use aud_witness::Prefix;
use std::alloc::{Allocator, Global};
use std::marker::Model;
use std::sync::Arc;

/// What was found of the history of a sealed set of facts, and is true of it. It shares the shape that it was found in.
#[derive(Drop)]
pub struct Finding<A: Allocator + Copy = Global> {
    shape: Arc<Shape<A>, A>,
    claim: Claim<A>,
}

impl<A: Allocator + Copy> Model for Finding<A> {
    ghost use Rattle.aud_know.specs.Findings.{FindingOf, Holds, claimed};

    ghost Value = { FindingOf };

    ghost view = { λ f. record { facts = f.shape.value.sealed.facts; claim = claimed f.claim } };

    ghost invariant = { λ f. Holds f.shape.value.sealed.facts (claimed f.claim) };
}

impl<A: Allocator + Copy> Finding<A> {
    /// The finding that no order of the shape's history that begins with the prefix shows it. It does not allocate.
    pub fn refuted(shape: Arc<Shape<A>, A>, prefix: Prefix<A>) -> Finding<A>
        requires { Refuted (objects_of shape.value) (history_of shape.value) prefix }
        ensures { result ≡ record { facts = shape.value.sealed.facts; claim = refuted prefix } }
    {
        let _facts = shape.sealed().facts();
        Finding {
            shape,
            claim: Claim::Refuted(prefix),
        }
    }

    /// The finding that the order shows the shape's history. It does not allocate.
    pub fn witness(shape: Arc<Shape<A>, A>, order: Prefix<A>) -> Finding<A>
        requires { Shows (objects_of shape.value) (history_of shape.value) order }
        ensures { result ≡ record { facts = shape.value.sealed.facts; claim = shown order } }
    {
        let _facts = shape.sealed().facts();
        Finding {
            shape,
            claim: Claim::Witness(order),
        }
    }

    /// The facts of the history, under their plan.
    pub fn facts(&self) -> &Facts<A>
        ensures facts { result.now ≡ self.now.facts }
        ensures is_true { IsTrueFinding self.now }
    {
        let _history = self.shape.history();
        let facts = self.shape.sealed().facts();
        let _set = facts.set();
        facts
    }

    /// What is said of the history.
    pub fn claim(&self) -> &Claim<A>
        ensures claim { claimed result.now ≡ self.now.claim }
        ensures is_true { IsTrueFinding self.now }
    {
        let _facts = self.facts();
        &self.claim
    }
}
