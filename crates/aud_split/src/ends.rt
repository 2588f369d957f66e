//! What the workers of a pool leave, as lists by their numbers.

ghost use Rattle.std.specs.Prelude.{◌≡◌, ◌<◌, ◌≤◌, ◌+◌, ◌++◌, ◌∷◌, [], length, map, IfOk, vec_len, vec_capacity, if◌then◌else◌};
ghost use Rattle.node_pool.specs.Workers.{all_drawn};
ghost use Rattle.aud_split.specs.Ends.{numbered, failures, HaveRoom};
ghost use Rattle.aud_split.specs.declared.fault.PoolFault.TheVariants.{OutOfMemory as Exhausted};
ghost use Rattle.node_pool.specs.Rule.{all_parts};

use crate::fault::PoolFault;
use aud_event::OutOfMemory;
use node_pool::WorkerEnd;
use std::alloc::{Allocator, Global};

/// Lists for what the workers leave: their seats, the tasks that they drew and their faults, with the workers' numbers.
#[derive(Drop)]
pub(crate) struct Lists<T, S, A: Allocator = Global> {
    pub seats: Vec<S, A>,
    pub drawn: Vec<(u32, T), A>,
    pub faults: Vec<(u32, PoolFault), A>,
}

/// Empty lists with room for so many workers and tasks.
pub(crate) fn make_lists<T: Drop, S: Drop, A: Allocator + Copy>(
    alloc: A,
    workers: usize,
    tasks: usize,
) -> Result<Lists<T, S, A>, OutOfMemory>
    ensures empty { IfOk result (λ r. (r.seats.items ≡ []) × (r.drawn.items ≡ []) × (r.faults.items ≡ [])) }
    ensures room { IfOk result (HaveRoom workers tasks) }
{
    Ok(Lists {
        seats: Vec::with_capacity(alloc, workers)?,
        drawn: Vec::with_capacity(alloc, tasks)?,
        faults: Vec::with_capacity(alloc, workers)?,
    })
}

// Notes each task beside its worker's number.
fn note_all<T: Drop, A: Allocator + Copy>(
    worker: u32,
    tasks: Vec<T, A>,
    drawn: &mut Vec<(u32, T), A>,
)
    requires { vec_len drawn.old + vec_len tasks ≤ vec_capacity drawn.old }
    ensures noted { drawn.new.items ≡ drawn.old.items ++ map (λ t. (worker, t)) tasks.items }
    ensures room { vec_capacity drawn.old ≤ vec_capacity drawn.new }
{
    for task in tasks {
        let Ok(()) = drawn.push((worker, task)) else {
            unreachable!()
        };
    }
}

// Notes a worker that failed.
fn note_fault<A: Allocator + Copy>(worker: u32, failed: bool, faults: &mut Vec<(u32, PoolFault), A>)
    requires { vec_len faults.old < vec_capacity faults.old }
    ensures noted { faults.new.items ≡ faults.old.items ++ (if failed then (worker, Exhausted) ∷ [] else []) }
    ensures room { vec_capacity faults.old ≤ vec_capacity faults.new }
{
    if failed {
        let Ok(()) = faults.push((worker, PoolFault::OutOfMemory)) else {
            unreachable!()
        };
    }
}

/// Takes apart what all workers leave. It does not allocate.
pub(crate) fn take_apart<T: Drop, S: Drop, A: Allocator + Copy>(
    workers: Vec<WorkerEnd<T, S, A>, A>,
    lists: &mut Lists<T, S, A>,
)
    requires few { vec_len workers < all_parts }
    requires empty { (lists.old.seats.items ≡ []) × (lists.old.drawn.items ≡ []) × (lists.old.faults.items ≡ []) }
    requires room { HaveRoom (vec_len workers) (length (all_drawn workers.items)) lists.old }
    ensures seats { lists.new.seats.items ≡ map (λ w. w.seat) workers.items }
    ensures drawn { lists.new.drawn.items ≡ numbered 0 workers.items }
    ensures faults { lists.new.faults.items ≡ failures 0 workers.items }
{
    let mut number = 0u32;
    for worker in workers {
        let WorkerEnd {
            seat,
            drawn,
            failed,
        } = worker;
        let Ok(()) = lists.seats.push(seat) else {
            unreachable!()
        };
        note_all(number, drawn, &mut lists.drawn);
        note_fault(number, failed, &mut lists.faults);
        number += 1;
    }
}
