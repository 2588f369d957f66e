//! What a Knowledge takes.

ghost use Rattle.std.specs.Prelude.{◌↔◌, IsTrue};
ghost use Rattle.aud_know.specs.Items.{IsOfPlan};

use crate::finding::Finding;
use crate::knowledge::Knowledge;
use aud_event::{Fact, Plan};
use std::alloc::{Allocator, Global};
use std::sync::Arc;

/// What a Knowledge takes: a fact, what was found of a history, or all that is known elsewhere.
#[derive(Drop)]
pub enum Item<A: Allocator + Copy = Global> {
    Fact(Fact),
    Finding(Finding<A>),
    Known(Arc<Knowledge<A>, A>),
}

impl<A: Allocator + Copy> Item<A> {
    /// Whether the item is of the plan: a fact that the plan does not refuse, or what was found or is known under an equal
    /// plan. It does not allocate.
    pub fn is_of(&self, plan: &Plan<A>) -> bool
        ensures { IsTrue result ↔ IsOfPlan plan.now self.now }
    {
        match self {
            Item::Fact(fact) => fact.check(plan).is_ok(),
            Item::Finding(finding) => finding.facts().plan().same(plan),
            Item::Known(known) => known.plan().same(plan),
        }
    }
}
