//! What a worked input says: its facts, the sealed set of them, and its history.

use aud_event::{Dup, Fact, ObjDecl, OutOfMemory, Plan, PlanFault};
use aud_facts::{Facts, Sealed};
use aud_history::History;
use aud_text::{TextFault, read_fact, read_plan};
use std::alloc::{AllocError, AllocFailed, Allocator, Global};
use std::sync::Arc;

/// Why a worked input gives no value.
#[derive(Clone, Copy, Debug, PartialEq, Eq)]
pub enum Unread {
    /// A line of the plan or of a fact is refused, or the fact does not fit.
    Refused(TextFault),
    /// The facts are not sealed.
    Unsealed,
    /// A growth was refused.
    OutOfMemory,
}

impl From<TextFault> for Unread {
    fn from(fault: TextFault) -> Unread {
        match fault {
            TextFault::OutOfMemory => Unread::OutOfMemory,
            other => Unread::Refused(other),
        }
    }
}

impl From<OutOfMemory> for Unread {
    fn from(_error: OutOfMemory) -> Unread {
        Unread::OutOfMemory
    }
}

impl From<AllocError> for Unread {
    fn from(_error: AllocError) -> Unread {
        Unread::OutOfMemory
    }
}

impl<T: Drop> From<AllocFailed<T>> for Unread {
    fn from(_error: AllocFailed<T>) -> Unread {
        Unread::OutOfMemory
    }
}

impl From<PlanFault> for Unread {
    fn from(fault: PlanFault) -> Unread {
        match fault {
            PlanFault::OutOfMemory => Unread::OutOfMemory,
            other => Unread::Refused(TextFault::Plan(other)),
        }
    }
}

/// Puts the fact in where it fits the plan.
pub fn put<A: Allocator + Copy>(facts: &mut Facts<A>, fact: &Fact) -> Result<(), Unread> {
    match fact.check(facts.plan()) {
        Ok(()) => Ok(facts.insert(fact)?),
        Err(fault) => Err(Unread::Refused(TextFault::Fact(fault))),
    }
}

/// The facts that an input without empty lines says.
pub fn facts_of(alloc: Global, input: &str) -> Result<Facts, Unread> {
    let (plan, _used) = match read_plan(alloc, input.as_bytes()) {
        Ok(read) => read,
        Err(refused) => return Err(Unread::from(refused.fault)),
    };
    let lines = plan.objects().len().saturating_add(1);
    let mut facts = Facts::empty(alloc, Arc::new(alloc, plan)?);
    for line in input.lines().skip(lines) {
        let fact = read_fact(alloc, facts.plan(), line.as_bytes())?;
        put(&mut facts, &fact)?;
    }
    Ok(facts)
}

/// A copy of the plan on another allocator.
fn plan_on<A: Allocator + Copy>(alloc: A, plan: &Plan) -> Result<Plan<A>, Unread> {
    let mut objects = Vec::new(alloc);
    for object in plan.objects() {
        objects.push(ObjDecl {
            name: String::from_str(alloc, object.name.as_str())?,
            kind: object.kind,
            opening: object.opening,
        })?;
    }
    Ok(Plan::new(alloc, plan.logs(), objects)?)
}

/// A copy of the facts on another allocator, as one that refuses a growth.
pub fn facts_on<A: Allocator + Copy>(alloc: A, facts: &Facts) -> Result<Facts<A>, Unread> {
    let plan = plan_on(alloc, facts.plan())?;
    let mut copy = Facts::empty(alloc, Arc::new(alloc, plan)?);
    for fact in facts.set().items() {
        put(&mut copy, fact)?;
    }
    Ok(copy)
}

/// The sealed set of the facts.
pub fn sealed_from<A: Allocator + Copy>(facts: &Facts<A>) -> Result<Arc<Sealed<A>, A>, Unread> {
    facts.seal()?.ok_or(Unread::Unsealed)
}

/// The sealed set of the facts that an input says.
pub fn sealed_of(alloc: Global, input: &str) -> Result<Arc<Sealed>, Unread> {
    sealed_from(&facts_of(alloc, input)?)
}

/// The history of the facts that an input says.
pub fn history_of(alloc: Global, input: &str) -> Result<History, Unread> {
    let sealed = sealed_of(alloc, input)?;
    let plan = Arc::new(alloc, sealed.history().plan().dup()?)?;
    let events = sealed.history().events().to_vec(alloc)?;
    History::checked(plan, events).ok_or(Unread::Unsealed)
}
