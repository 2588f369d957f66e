//! A pool of workers that search the tasks of one history, each with a pass of one node.

ghost use Rattle.std.specs.Prelude.{◌≡◌, ◌<◌, ◌++◌, ◌⊎◌, ◌↔◌, ℕ, [], true, map, All, IfOk, IfErr, IfNone, IfSome, OnOk, IsTrue, vec_len};
ghost use Rattle.std.specs.List.Sorted.{IsPermutation};
ghost use Rattle.aud_node.specs.Faults.{AreAt};
ghost use Rattle.node_pool.specs.Workers.{all_drawn, AreWorked, HaveGrown, IsCrew, IsRefusal};
ghost use Rattle.aud_split.specs.Ends.{faulted, AreFaults};
ghost use Rattle.aud_split.specs.Pools.{HasRun, HasSearched, HaveSearched, IsPoolFault, IsSettled, MayRun};

use crate::ends::{Lists, make_lists, take_apart};
use crate::explorer::Explorer;
use crate::fault::PoolFault;
use aud_node::{Fleet, Pass, Running};
use aud_order::Shape;
use aud_search::{Scene, Shared};
use aud_witness::Prefix;
use node_pool::{Gate, Refusal, run};
use std::alloc::{Allocator, Global};
use std::marker::Brand;
use std::sync::{Arc, Wait};
use std::thread::Threads;

/// What a pool leaves: the passes in their order, each drawn task with the number of the worker that drew it, the tasks that
/// nobody drew, and the workers that met a fault. Worker `w` had pass `w`.
#[derive(Drop)]
pub struct PoolEnd<J: Fleet, A: Allocator = Global> {
    pub passes: Vec<Pass<J>, A>,
    pub drawn: Vec<(u32, Prefix), A>,
    pub left: Vec<Prefix, A>,
    pub faults: Vec<(u32, PoolFault), A>,
}

// Whether each pass is of the node of the number.
fn are_at<J: Fleet>(number: u32, passes: &[Pass<J>]) -> bool
    ensures { IsTrue result ↔ AreAt number passes.now }
{
    passes.iter().all(|pass| pass.number() == number)
}

// Why the pool does not begin, if anything is against it.
fn fault_of<J: Fleet, S: Wait + Drop>(
    node: &Running<J, S>,
    passes: &[Pass<J>],
    shape: &Shape,
) -> Option<PoolFault>
    ensures some { IfSome result (IsPoolFault node.now passes.now shape.now) }
    ensures none { IfNone result (MayRun node.now passes.now shape.now) }
{
    if passes.is_empty() {
        return Some(PoolFault::NoWorkers);
    }
    if passes.len() > 16 {
        return Some(PoolFault::TooManyWorkers);
    }
    if !shape.sealed().facts().plan().same(node.plan()) {
        return Some(PoolFault::PlanMismatch);
    }
    if !are_at(node.number(), passes) {
        return Some(PoolFault::WrongNode);
    }
    None
}

/// Has a worker for each pass, 1 to 16, search below the tasks. Each worker draws a task, goes on if its node knows a beginning
/// of it to be refuted, and else searches below it, as far as the budget of one task goes, and offers what it found; then it
/// draws again. The gate is called before and after. A worker to which memory is refused ends, and the others go on. It waits
/// as `Node::offer` does, and until each worker has ended. Of what is refused the passes are handed back as they were.
///
/// The workers take part in what searches of the history that the scene names share, and in nothing where that is not there.
///
/// What the pool holds itself is of `alloc`. What its workers search with, and what they offer, is of the global allocator, as the
/// node is.
///
/// Where a thread cannot be had for each worker, some are worked in turn: `NoThread` is never answered.
pub fn run_pool_with<
    H: Scene + Send + Sync,
    J: Fleet + Send + Sync,
    S: Wait + Drop + Send,
    G: Gate<Prefix> + Sync,
    A: Allocator + Copy + Send + Sync,
    R: Threads + Wait + Sync,
>(
    rt: &R,
    alloc: A,
    global: Global,
    node: &Running<J, S>,
    passes: Vec<Pass<J>, A>,
    shape: Arc<Shape>,
    tasks: Vec<Prefix, A>,
    budget: u64,
    shared: Option<&Shared<H>>,
    gate: &G,
) -> Result<PoolEnd<J, A>, (Vec<Pass<J>, A>, PoolFault)>
    requires named { shape.value ≡ H.shape }
    ensures ran { IfOk result (λ e. HasRun shape.value budget tasks.items passes.items e.passes.items (vec_len e.passes) e.drawn.items
        e.left.items e.faults.items) }
    ensures begun { OnOk result (MayRun node.now passes.items shape.value) }
    ensures fault { IfErr result (λ e. IsPoolFault node.now passes.items shape.value e.1) }
    ensures back { IfErr result (λ e. e.0 ≡ passes) }
{
    if let Some(fault) = fault_of(node, &passes, &shape) {
        return Err((passes, fault));
    }
    let Ok(mut lists) = make_lists(alloc, passes.len(), tasks.len()) else {
        return Err((passes, PoolFault::OutOfMemory));
    };
    let explorer = Explorer {
        alloc: global,
        node,
        shape: &shape,
        shared,
        budget,
    };
    match run(rt, alloc, passes, tasks, &explorer, gate) {
        Ok(end) => {
            take_apart(end.workers, &mut lists);
            let Lists {
                seats,
                drawn,
                faults,
            } = lists;
            Ok(PoolEnd {
                passes: seats,
                drawn,
                left: end.left,
                faults,
            })
        }
        Err((passes, Refusal::OutOfMemory)) => Err((passes, PoolFault::OutOfMemory)),
        Err(_) => unreachable!(),
    }
}

/// Runs the pool over a history that a scene names. Its workers alone share what they refute.
fn run_own<
    H: Scene + Send + Sync,
    J: Fleet + Send + Sync,
    S: Wait + Drop + Send,
    G: Gate<Prefix> + Sync,
    A: Allocator + Copy + Send + Sync,
    R: Threads + Wait + Sync,
>(
    rt: &R,
    alloc: A,
    global: Global,
    node: &Running<J, S>,
    passes: Vec<Pass<J>, A>,
    shape: Arc<Shape>,
    tasks: Vec<Prefix, A>,
    budget: u64,
    gate: &G,
) -> Result<PoolEnd<J, A>, (Vec<Pass<J>, A>, PoolFault)>
    requires named { shape.value ≡ H.shape }
    ensures ran { IfOk result (λ e. HasRun shape.value budget tasks.items passes.items e.passes.items (vec_len e.passes) e.drawn.items
        e.left.items e.faults.items) }
    ensures begun { OnOk result (MayRun node.now passes.items shape.value) }
    ensures fault { IfErr result (λ e. IsPoolFault node.now passes.items shape.value e.1) }
    ensures back { IfErr result (λ e. e.0 ≡ passes) }
{
    let shared = Shared::<H>::among(global, passes.len());
    run_pool_with(
        rt,
        alloc,
        global,
        node,
        passes,
        shape,
        tasks,
        budget,
        shared.as_ref(),
        gate,
    )
}

/// Has a worker for each pass search below the tasks, as `run_pool_with` does. The workers of this pool alone share what they refute.
pub fn run_pool<
    J: Fleet + Send + Sync,
    S: Wait + Drop + Send,
    G: Gate<Prefix> + Sync,
    A: Allocator + Copy + Send + Sync,
    R: Threads + Wait + Sync,
>(
    rt: &R,
    alloc: A,
    global: Global,
    node: &Running<J, S>,
    passes: Vec<Pass<J>, A>,
    shape: Arc<Shape>,
    tasks: Vec<Prefix, A>,
    budget: u64,
    gate: &G,
) -> Result<PoolEnd<J, A>, (Vec<Pass<J>, A>, PoolFault)>
    ensures ran { IfOk result (λ e. HasRun shape.value budget tasks.items passes.items e.passes.items (vec_len e.passes) e.drawn.items
        e.left.items e.faults.items) }
    ensures begun { OnOk result (MayRun node.now passes.items shape.value) }
    ensures fault { IfErr result (λ e. IsPoolFault node.now passes.items shape.value e.1) }
    ensures back { IfErr result (λ e. e.0 ≡ passes) }
{
    run_own::<Brand, _, _, _, _, _>(rt, alloc, global, node, passes, shape, tasks, budget, gate)
}
