//! Two runs of a world, one after the other: the headline is over both.

ghost use Rattle.std.specs.Prelude.{◌++◌, IfOk, IfSome};
ghost use Rattle.aud_world.specs.Headline.{Headline};

use aud_event::{Dup, OutOfMemory, Plan};
use aud_world::{Move, World};
use std::alloc::Global;
use test_worked::{NOTHING_HAPPENED, Unread, facts_of};

/// Two runs from nothing, if all moves are made.
fn two_runs(
    alloc: Global,
    plan: Plan,
    first: &[Move],
    second: &[Move],
) -> Result<Option<World>, OutOfMemory>
    ensures { IfOk result (λ o. IfSome o (λ w. Headline 3 (first.now ++ second.now) w)) }
{
    let mut world = World::new(alloc, plan, 3)?;
    match world.run(first) {
        Ok(()) => {}
        Err(_) => return Ok(None),
    }
    match world.run(second) {
        Ok(()) => Ok(Some(world)),
        Err(_) => Ok(None),
    }
}

/// How many packets there are after a post in the first run and a delivery in the second.
fn packets(alloc: Global) -> Result<Option<usize>, Unread> {
    let plan = facts_of(alloc, NOTHING_HAPPENED)?.plan().dup()?;
    let world = two_runs(alloc, plan, &[Move::Post(0)], &[Move::Deliver(0, 1)])?;
    Ok(match world {
        Some(world) => Some(world.packets()),
        None => None,
    })
}

#[test]
fn a_run_goes_on_where_the_last_one_ended(rt: HostRuntime) {
    assert!(rt; packets(rt.alloc()) == Ok(Some(1)));
}
