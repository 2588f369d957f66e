//! Plans of two formats, shared plans, and the numbers of faults. Why a fact is refused `tests/texts` asks.

use crate::fixtures::{end, record};
use aud_event::{
    Event, FactFault, Format, Key, ObjDecl, ObjKind, Op, OutOfMemory, Plan, PlanFault,
};
use std::alloc::Global;
use std::sync::Arc;

/// Puts the object into the list. A refused growth is met here, which makes the proof of `counter` short.
fn put(objects: &mut Vec<ObjDecl>, object: ObjDecl) -> Result<(), OutOfMemory> {
    objects.push(object)?;
    Ok(())
}

/// A counter.
fn counter(alloc: Global) -> Result<Vec<ObjDecl>, OutOfMemory> {
    let mut objects = Vec::new(alloc);
    let object = ObjDecl {
        name: String::from_str(alloc, "c")?,
        kind: ObjKind::Counter,
        opening: 0,
    };
    put(&mut objects, object)?;
    Ok(objects)
}

/// Whether a plan is not the same in the other format, and has no sums there.
fn differs_by_format(alloc: Global) -> Result<bool, PlanFault> {
    let one = Plan::new(alloc, 1, counter(alloc)?)?;
    let two = Plan::new_in(alloc, Format::Two, 1, counter(alloc)?)?;
    let sums = record(0, 0, 0, 0, Event::Inv(0, Op::Plus(1)));
    Ok(
        !one.same(&two)
            && one.format() == Format::One
            && sums.check(&one) == Err(FactFault::OpKind)
            && sums.check(&two) == Ok(()),
    )
}

#[test]
fn a_plan_is_of_one_format(rt: HostRuntime) {
    assert!(rt; differs_by_format(rt.alloc()) == Ok(true));
}

/// A copy of a plan that is shared.
fn shared(alloc: Global, plan: Plan) -> Result<Arc<Plan>, OutOfMemory> {
    let shared = Arc::new(alloc, plan)?;
    Ok(shared.clone()?)
}

/// Whether a shared plan finds its object, and is not the same as one of another number of logs.
fn is_shared(alloc: Global) -> Result<bool, PlanFault> {
    let plan = Plan::new(alloc, 64, counter(alloc)?)?;
    let other = Plan::new(alloc, 63, counter(alloc)?)?;
    let shared = shared(alloc, plan)?;
    Ok(shared.number("c") == Some(0) && !other.same(&shared))
}

#[test]
fn plans_are_shared(rt: HostRuntime) {
    assert!(rt; is_shared(rt.alloc()) == Ok(true));
}

#[test]
fn faults_have_their_numbers(rt: HostRuntime) {
    let plans = [PlanFault::NoLogs.number(), PlanFault::KindFormat.number()];
    let facts = [FactFault::LogRange.number(), FactFault::ArgRange.number()];
    let is_less = record(0, 9, 9, 9, Event::Abort) < end(0, 0);
    assert!(rt; plans == [1, 8] && facts == [1, 8] && is_less);
}
