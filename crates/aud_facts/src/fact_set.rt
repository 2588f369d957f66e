//! Facts of one plan.

ghost use Rattle.std.specs.Prelude.{◌≡◌, IfOk, OnOk, OnErr, IsTrue, ◌↔◌, ◌<◌, [], None, MatchOption, All, false, MatchResult};
ghost use Rattle.aud_event.specs.Facts.{first_fact_fault};
ghost use Rattle.aud_event.specs.contracts.fact.FactOrd.TheImpl as fact_ord;
ghost use Rattle.base_sorted.specs.Sets.{has, with_item, inserted, union};
ghost use Rattle.aud_facts.specs.Growth.{AreInConflict};
ghost use Rattle.aud_facts.specs.Joins.{joined};
ghost use Rattle.aud_facts.specs.Order.{AreOrdered};
ghost use Rattle.aud_facts.specs.Sets.{FactsOf, AreSealed, AreSound, IsSealOf, IsStatusOfUnsealed, AreWithout};
ghost use Rattle.aud_facts.specs.Shares.{share_of};
ghost use Rattle.aud_facts.specs.Status.{fact_status, hist, count, is_record};

use crate::conflict::status_in;
use crate::placing::history_of;
use crate::sealed::Sealed;
use crate::share::listed_share;
use crate::status::FactStatus;
use aud_event::{Dup, Fact, OutOfMemory, Plan};
use aud_history::History;
use aud_lattice::{Lattice, UnionSet};
use std::alloc::{Allocator, Global};
use std::marker::Model;
use std::sync::Arc;

/// A plan and facts that fit it, seen as the plan and the list of the facts, least first. A copy shares what it has with
/// its source.
#[derive(Drop)]
pub struct Facts<A: Allocator + Copy = Global> {
    alloc: A,
    plan: Arc<Plan<A>, A>,
    set: UnionSet<Fact, A>,
}

impl<A: Allocator + Copy> Model for Facts<A> {
    ghost use Rattle.aud_facts.specs.Sets.{FactsOf, AreSound};
    ghost use Rattle.aud_facts.specs.Order.{AreOrdered};

    ghost Value = { FactsOf };

    ghost view = { λ f. record { plan = f.plan.value; facts = f.set } };

    ghost invariant = { λ f. AreSound f.plan.value f.set };
}

fn fits<A: Allocator>(plan: &Plan<A>, fact: &Fact) -> bool
    ensures { IsTrue result ↔ (first_fact_fault plan.now fact.now ≡ None) }
{
    fact.check(plan).is_ok()
}

/// Whether each of the facts passes the plan's check, as `Facts::from_vec` asks.
pub fn all_fit<A: Allocator>(plan: &Plan<A>, facts: &[Fact]) -> bool
    ensures { IsTrue result ↔ All (λ f. first_fact_fault plan.now f ≡ None) facts.now }
{
    facts.iter().all(|fact| fits(plan, fact))
}

// The status of facts that fit the plan, and how many records there are.
fn status_of_set<A: Allocator + Copy>(
    plan: &Plan<A>,
    set: &UnionSet<Fact, A>,
) -> (FactStatus, usize)
    requires { AreSound plan.now set.now }
    ensures status { result.0 ≡ fact_status plan.now.logs set.now }
    ensures records { result.1 ≡ count is_record set.now }
{
    let _ordered = set.items();
    status_in(set, plan.logs())
}

// The history of a sealed set, within the limits of a history.
fn history_of_set<A: Allocator + Copy>(
    alloc: A,
    plan: Arc<Plan<A>, A>,
    set: &UnionSet<Fact, A>,
    records: usize,
) -> Result<History<A>, OutOfMemory>
    requires sound { AreSound plan.value set.now }
    requires sealed { AreSealed (record { plan = plan.value; facts = set.now }) }
    requires records { records ≡ count is_record set.now }
    ensures { IfOk result (λ h. h ≡ record { plan = plan.value; events = hist set.now }) }
{
    let _ordered = set.items();
    let _sound = plan.logs();
    let events = history_of(alloc, set, records)?;
    Ok(History::new(plan, events))
}

/// Takes in what the other set has. A refused join leaves the set as it was.
fn join_sets<A: Allocator + Copy>(
    ours: &mut UnionSet<Fact, A>,
    theirs: &UnionSet<Fact, A>,
) -> Result<(), OutOfMemory>
    ensures ok { OnOk result (ours.new ≡ union fact_ord.ghosts.cmp ours.old theirs.now) }
    ensures err { OnErr result (ours.new ≡ ours.old) }
{
    ours.join(theirs)
}

impl<A: Allocator + Copy> Facts<A> {
    /// No facts. It does not allocate.
    pub fn empty(alloc: A, plan: Arc<Plan<A>, A>) -> Facts<A>
        ensures { result ≡ record { plan = plan.value; facts = [] } }
    {
        Facts {
            alloc,
            plan,
            set: UnionSet::empty(alloc),
        }
    }

    /// What inserting each fact in turn leaves, by one sort and one pass: repeats count once.
    pub fn from_vec(
        alloc: A,
        plan: Arc<Plan<A>, A>,
        facts: Vec<Fact, A>,
    ) -> Result<Facts<A>, OutOfMemory>
        requires { All (λ f. first_fact_fault plan.value f ≡ None) facts.items }
        ensures { IfOk result (λ all. all ≡ record { plan = plan.value; facts = inserted fact_ord.ghosts.cmp facts.items [] }) }
    {
        let set = UnionSet::from_ranked(alloc, facts)?;
        Ok(Facts { alloc, plan, set })
    }

    /// The plan.
    pub fn plan(&self) -> &Plan<A>
        ensures { result.now ≡ self.now.plan }
    {
        &self.plan
    }

    /// The facts as a set.
    pub fn set(&self) -> &UnionSet<Fact, A>
        ensures set { result.now ≡ self.now.facts }
        ensures sound { AreSound self.now.plan self.now.facts }
        ensures ordered { AreOrdered self.now.facts }
    {
        let _ordered = self.set.items();
        &self.set
    }

    /// Puts the fact in. One that is there already needs no allocation. A sealed set that gains a new fact is in conflict.
    pub fn insert(&mut self, fact: &Fact) -> Result<(), OutOfMemory>
        requires { first_fact_fault self.old.plan fact.now ≡ None }
        ensures ok { OnOk result (self.new ≡
            record { plan = self.old.plan; facts = with_item fact_ord.ghosts.cmp fact.now self.old.facts }) }
        ensures err { OnErr result (self.new ≡ self.old) }
        ensures grows { AreSealed self.old → has fact_ord.ghosts.cmp self.old.facts fact.now ≡ false →
            OnOk result (AreInConflict self.new) }
    {
        let _ordered = self.set.items();
        self.set.insert(*fact)?;
        Ok(())
    }

    /// Takes in the facts of another set of an equal plan. A refused join leaves the set as it was.
    pub fn join(&mut self, other: &Facts<A>) -> Result<(), OutOfMemory>
        requires { self.old.plan ≡ other.now.plan }
        ensures ok { OnOk result (self.new ≡ joined self.old other.now) }
        ensures err { OnErr result (self.new ≡ self.old) }
    {
        let theirs = other.set();
        join_sets(&mut self.set, theirs)?;
        Ok(())
    }

    /// The facts that the other has not, of an equal plan or not.
    pub fn without(&self, other: &Facts<A>) -> Result<Facts<A>, OutOfMemory>
        ensures plan { IfOk result (λ left. left.plan ≡ self.now.plan) }
        ensures facts { IfOk result (λ left. AreWithout self.now.facts other.now.facts left.facts) }
        ensures ordered { IfOk result (λ left. AreOrdered left.facts) }
    {
        let plan = Arc::try_clone(&self.plan)?;
        let set = self.set.without(&other.set)?;
        let _ordered = set.items();
        Ok(Facts {
            alloc: self.alloc,
            plan,
            set,
        })
    }

    /// The facts of a share of the logs: those whose number, divided by how many shares there are, leaves the number of this one.
    /// All facts are the only share of one, which shares what it has with its source.
    pub fn share(&self, shares: usize, number: usize) -> Result<Facts<A>, OutOfMemory>
        requires { 0 < shares }
        ensures { IfOk result (λ share. share ≡ record { plan = self.now.plan; facts = share_of shares number self.now.facts }) }
    {
        if shares == 1 && number == 0 {
            return self.dup();
        }
        let _ordered = self.set.items();
        let share = listed_share(self.alloc, &self.set, shares, number)?;
        let plan = Arc::try_clone(&self.plan)?;
        Facts::from_vec(self.alloc, plan, share)
    }

    /// Whether both have equal plans and the same facts. It does not allocate.
    pub fn same(&self, other: &Facts<A>) -> bool
        ensures { IsTrue result ↔ (self.now ≡ other.now) }
    {
        self.plan.same(&other.plan) && self.set.same(&other.set)
    }

    /// The first that holds: a conflict, a log that waits, a gap, or sealed. It does not allocate and always answers. It
    /// walks over the facts once, or once more where a stamp stands twice or a record stands past a count, and its tables
    /// take 260 KiB of the stack.
    pub fn status(&self) -> FactStatus
        ensures { result ≡ fact_status self.now.plan.logs self.now.facts }
    {
        status_of_set(&self.plan, &self.set).0
    }

    /// The facts with their history, exactly where they are sealed.
    pub fn seal(&self) -> Result<Option<Arc<Sealed<A>, A>>, OutOfMemory>
        ensures { IfOk result (λ o. MatchOption o (¬ (AreSealed self.now)) (λ s. IsSealOf self.now s.value)) }
    {
        match self.seal_or_status()? {
            Ok(sealed) => Ok(Some(sealed)),
            Err(_) => Ok(None),
        }
    }

    /// The facts with their history where they are sealed, else their status, which says why they are not. It walks over the facts once,
    /// as `status` does, and once more to seal them.
    pub fn seal_or_status(&self) -> Result<Result<Arc<Sealed<A>, A>, FactStatus>, OutOfMemory>
        ensures { IfOk result (λ r. MatchResult r (λ s. IsSealOf self.now s.value) (IsStatusOfUnsealed self.now)) }
    {
        let (status, records) = status_of_set(&self.plan, &self.set);
        match status {
            FactStatus::Sealed => {
                let plan = Arc::try_clone(&self.plan)?;
                let history = history_of_set(self.alloc, plan, &self.set, records)?;
                let facts = self.dup()?;
                let sealed = Arc::new(self.alloc, Sealed { facts, history })?;
                Ok(Ok(sealed))
            }
            status => Ok(Err(status)),
        }
    }
}

/// A copy shares its source's plan and facts, so it costs the same at any size.
impl<A: Allocator + Copy> Dup for Facts<A> {
    fn dup(&self) -> Result<Facts<A>, OutOfMemory> {
        let plan = Arc::try_clone(&self.plan)?;
        let set = self.set.dup()?;
        Ok(Facts {
            alloc: self.alloc,
            plan,
            set,
        })
    }
}
