//! What is known of a run.

ghost use Rattle.std.specs.Prelude.{◌≡◌, ◌≢◌, ◌↔◌, [], ◌∷◌, None, IfOk, OnOk, OnErr, IsTrue};
ghost use Rattle.std.specs.Option.{option_copied};
ghost use Rattle.std.specs.Result.{IsErrOf};
ghost use Rattle.aud_event.specs.Facts.{first_fact_fault};
ghost use Rattle.aud_cover.specs.Closings.{IsCovered};
ghost use Rattle.aud_know.specs.Norms.{fact, refuted, shown, atoms_of};
ghost use Rattle.aud_know.specs.Beyond.{IsBeyond, JoinAlike};
ghost use Rattle.aud_know.specs.Known.{knowing, knowing_facts, Takes};
ghost use Rattle.aud_know.specs.Truth.{IsKnowledge};
ghost use Rattle.aud_know.specs.Findings.{found, IsTrueFinding};
ghost use Rattle.aud_know.specs.Items.{item_atoms, IsOfPlan};

use crate::claim::Claim;
use crate::fault::KnowFault;
use crate::finding::Finding;
use crate::item::Item;
use crate::parts::{
    SharedCover, SharedWitness, cover_beyond, cover_with, covers_joined, facts_beyond, has_finding,
    same_witness, shared, witness_beyond, witness_with, witnesses_joined,
};
use aud_event::{Dup, Fact, OutOfMemory, Plan};
use aud_facts::Facts;
use aud_facts::laws::sealed_is_all;
use aud_lattice::{Cover, Lattice, Mark, UnionSet};
use aud_witness::{Decision, Prefix};
use std::alloc::{Allocator, Global};
use std::marker::Model;
use std::sync::Arc;

/// Facts of one plan, the prefixes that are refuted, and the least witness: the normal form of all that was
/// taken. A copy shares all three with its source, so it costs the same at any size.
#[derive(Drop)]
pub struct Knowledge<A: Allocator + Copy = Global> {
    pub(crate) alloc: A,
    pub(crate) facts: Facts<A>,
    pub(crate) cover: SharedCover<A>,
    pub(crate) witness: SharedWitness<A>,
}

impl<A: Allocator + Copy> Model for Knowledge<A> {
    ghost use Rattle.aud_know.specs.Known.{KnowledgeOf, linked};
    ghost use Rattle.aud_know.specs.Truth.{IsKnowledge};

    ghost Value = { KnowledgeOf };

    ghost view = { λ k. record {
      plan = k.facts.plan;
      held = record { facts = k.facts.facts; cover = k.cover.value; witness = linked k.witness };
    } };

    ghost invariant = { λ k. IsKnowledge k.facts.plan
        (record { facts = k.facts.facts; cover = k.cover.value; witness = linked k.witness }) };
}

impl<A: Allocator + Copy> Knowledge<A> {
    /// Nothing is known.
    pub fn empty(alloc: A, plan: Arc<Plan<A>, A>) -> Result<Knowledge<A>, OutOfMemory>
        ensures { IfOk result (λ k. k ≡ knowing plan.value []) }
    {
        Knowledge::of_facts(alloc, Facts::empty(alloc, plan))
    }

    /// The facts are known, and nothing else. They are not copied.
    pub fn of_facts(alloc: A, facts: Facts<A>) -> Result<Knowledge<A>, OutOfMemory>
        ensures { IfOk result (λ k. k ≡ knowing_facts facts) }
    {
        let _ordered = facts.set();
        let cover = Arc::new(alloc, Cover::empty(alloc))?;
        Ok(Knowledge {
            alloc,
            facts,
            cover,
            witness: None,
        })
    }

    /// The plan.
    pub fn plan(&self) -> &Plan<A>
        ensures { result.now ≡ self.now.plan }
    {
        self.facts.plan()
    }

    /// The facts, as a set.
    pub fn facts(&self) -> &UnionSet<Fact, A>
        ensures facts { result.now ≡ self.now.held.facts }
        ensures is_true { IsKnowledge self.now.plan self.now.held }
    {
        self.facts.set()
    }

    /// The refuted prefixes.
    pub fn cover(&self) -> &Cover<Decision, A>
        ensures cover { result.now ≡ self.now.held.cover }
        ensures is_true { IsKnowledge self.now.plan self.now.held }
    {
        &self.cover
    }

    /// The least witness, if there is one.
    pub fn witness(&self) -> Option<&Prefix<A>>
        ensures witness { option_copied result ≡ self.now.held.witness }
        ensures is_true { IsKnowledge self.now.plan self.now.held }
    {
        match &self.witness {
            None => None,
            Some(order) => Some(order),
        }
    }

    /// Whether a beginning of the prefix is refuted; the prefix itself counts. It does not allocate.
    pub fn knows(&self, prefix: &Prefix<A>) -> bool
        ensures { IsTrue result ↔ IsCovered self.now.held.cover prefix.now }
    {
        match self.cover.mark(prefix.decisions()) {
            Mark::Covered => true,
            Mark::Inner | Mark::Outside => false,
        }
    }

    /// Takes a fact that the plan does not refuse. A fact that is there already needs no allocation. A refused call leaves
    /// the value.
    pub fn take_fact(&mut self, next: &Fact) -> Result<(), KnowFault>
        ensures taken { OnOk result (Takes self.old.held self.new.held (fact next.now ∷ [])) }
        ensures plan { self.new.plan ≡ self.old.plan }
        ensures mismatch { IsErrOf result KnowFault.PlanMismatch ↔ (first_fact_fault self.old.plan next.now ≢ None) }
        ensures err { OnErr result (self.new ≡ self.old) }
    {
        if next.check(self.facts.plan()).is_err() {
            return Err(KnowFault::PlanMismatch);
        }
        sealed_is_all();
        self.facts.insert(next)?;
        Ok(())
    }

    /// Takes what was found, and all facts of the history that it was found of. A refused call leaves the value.
    pub fn take_finding(&mut self, finding: &Finding<A>) -> Result<(), KnowFault>
        ensures taken { OnOk result (Takes self.old.held self.new.held (found finding.now)) }
        ensures plan { self.new.plan ≡ self.old.plan }
        ensures mismatch { IsErrOf result KnowFault.PlanMismatch ↔ (finding.now.facts.plan ≢ self.old.plan) }
        ensures err { OnErr result (self.new ≡ self.old) }
    {
        let facts = finding.facts();
        if !facts.plan().same(self.facts.plan()) {
            return Err(KnowFault::PlanMismatch);
        }
        match finding.claim() {
            Claim::Refuted(prefix) => self.take_refuted(facts, prefix)?,
            Claim::Witness(order) => self.take_witness(facts, order)?,
        }
        Ok(())
    }

    /// Takes all that the other knows: nothing is copied where one has all that the other has. A refused call leaves the
    /// value.
    pub fn join(&mut self, other: &Knowledge<A>) -> Result<(), KnowFault>
        ensures taken { OnOk result (Takes self.old.held self.new.held (atoms_of other.now.held)) }
        ensures plan { self.new.plan ≡ self.old.plan }
        ensures mismatch { IsErrOf result KnowFault.PlanMismatch ↔ (other.now.plan ≢ self.old.plan) }
        ensures err { OnErr result (self.new ≡ self.old) }
    {
        if !other.plan().same(self.facts.plan()) {
            return Err(KnowFault::PlanMismatch);
        }
        self.take_known(other)?;
        Ok(())
    }

    /// What the other has not: the refuted prefixes that are not of the other's cover, and the witness where the other has
    /// not the same. Where there is any of these, all facts go with it, so that it is true by itself; else the facts that the
    /// other has not. What joins it to the other then knows what it would by joining all.
    pub fn beyond(&self, other: &Knowledge<A>) -> Result<Knowledge<A>, KnowFault>
        ensures beyond { IfOk result (λ news. IsBeyond self.now.held other.now.held news.held) }
        ensures plan { IfOk result (λ news. news.plan ≡ self.now.plan) }
        ensures joins { IfOk result (λ news. JoinAlike other.now.held news.held self.now.held) }
        ensures mismatch { IsErrOf result KnowFault.PlanMismatch ↔ (other.now.plan ≢ self.now.plan) }
    {
        if !self.plan().same(other.plan()) {
            return Err(KnowFault::PlanMismatch);
        }
        Ok(self.news_for(other)?)
    }

    /// Takes an item of its plan: a fact that the plan does not refuse, or what was found or is known under an equal
    /// plan. A refused call leaves the value.
    pub fn take(&mut self, item: &Item<A>) -> Result<(), KnowFault>
        ensures taken { OnOk result (Takes self.old.held self.new.held (item_atoms item.now)) }
        ensures plan { self.new.plan ≡ self.old.plan }
        ensures mismatch { IsErrOf result KnowFault.PlanMismatch ↔ ¬ (IsOfPlan self.old.plan item.now) }
        ensures err { OnErr result (self.new ≡ self.old) }
    {
        match item {
            Item::Fact(fact) => self.take_fact(fact)?,
            Item::Finding(finding) => self.take_finding(finding)?,
            Item::Known(known) => self.join(known)?,
        }
        Ok(())
    }

    /// Whether both have equal plans and the same facts, refuted prefixes and witness. It does not allocate.
    pub fn same(&self, other: &Knowledge<A>) -> bool
        ensures { IsTrue result ↔ (self.now ≡ other.now) }
    {
        self.facts.same(&other.facts)
            && self.cover.same(&other.cover)
            && same_witness(&self.witness, &other.witness)
    }

    /// A copy that shares all with its source.
    pub fn copy(&self) -> Result<Knowledge<A>, OutOfMemory>
        ensures { IfOk result (λ k. k ≡ self.now) }
    {
        let facts = self.facts.dup()?;
        let cover = Arc::try_clone(&self.cover)?;
        let witness = shared(&self.witness)?;
        Ok(Knowledge {
            alloc: self.alloc,
            facts,
            cover,
            witness,
        })
    }

    // The facts, and a prefix that is refuted in their history. The facts are joined last of all that may be refused.
    fn take_refuted(&mut self, facts: &Facts<A>, prefix: &Prefix<A>) -> Result<(), OutOfMemory>
        requires finding { IsTrueFinding (record { facts = facts.now; claim = refuted prefix.now }) }
        requires plan { facts.now.plan ≡ self.old.plan }
        ensures taken { OnOk result (Takes self.old.held self.new.held (found (record { facts = facts.now; claim = refuted prefix.now }))) }
        ensures plan { self.new.plan ≡ self.old.plan }
        ensures err { OnErr result (self.new ≡ self.old) }
    {
        sealed_is_all();
        let cover = cover_with(self.alloc, &self.cover, prefix)?;
        self.facts.join(facts)?;
        self.cover = cover;
        Ok(())
    }

    // The facts, and an order that shows their history.
    fn take_witness(&mut self, facts: &Facts<A>, order: &Prefix<A>) -> Result<(), OutOfMemory>
        requires finding { IsTrueFinding (record { facts = facts.now; claim = shown order.now }) }
        requires plan { facts.now.plan ≡ self.old.plan }
        ensures taken { OnOk result (Takes self.old.held self.new.held (found (record { facts = facts.now; claim = shown order.now }))) }
        ensures plan { self.new.plan ≡ self.old.plan }
        ensures err { OnErr result (self.new ≡ self.old) }
    {
        sealed_is_all();
        let witness = witness_with(self.alloc, &self.witness, order)?;
        self.facts.join(facts)?;
        self.witness = witness;
        Ok(())
    }

    // What another of the same plan has not.
    fn news_for(&self, other: &Knowledge<A>) -> Result<Knowledge<A>, OutOfMemory>
        ensures beyond { IfOk result (λ news. IsBeyond self.now.held other.now.held news.held) }
        ensures plan { IfOk result (λ news. news.plan ≡ self.now.plan) }
        ensures joins { IfOk result (λ news. JoinAlike other.now.held news.held self.now.held) }
    {
        let cover = cover_beyond(self.alloc, &self.cover, &other.cover)?;
        let witness = witness_beyond(&self.witness, &other.witness)?;
        let all = has_finding(&cover, &witness);
        let facts = facts_beyond(all, &self.facts, &other.facts)?;
        let _sound = facts.set();
        Ok(Knowledge {
            alloc: self.alloc,
            facts,
            cover,
            witness,
        })
    }

    // All that another knows of the same plan.
    fn take_known(&mut self, other: &Knowledge<A>) -> Result<(), OutOfMemory>
        requires { other.now.plan ≡ self.old.plan }
        ensures taken { OnOk result (Takes self.old.held self.new.held (atoms_of other.now.held)) }
        ensures plan { self.new.plan ≡ self.old.plan }
        ensures err { OnErr result (self.new ≡ self.old) }
    {
        sealed_is_all();
        let cover = covers_joined(self.alloc, &self.cover, &other.cover)?;
        let witness = witnesses_joined(&self.witness, &other.witness)?;
        self.facts.join(&other.facts)?;
        self.cover = cover;
        self.witness = witness;
        Ok(())
    }
}

/// A copy shares all with its source, so it costs the same at any size.
impl<A: Allocator + Copy> Dup for Knowledge<A> {
    fn dup(&self) -> Result<Knowledge<A>, OutOfMemory> {
        self.copy()
    }
}
