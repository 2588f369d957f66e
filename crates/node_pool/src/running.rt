//! A whole pool, from its tasks to what its workers leave.

ghost use Rattle.std.specs.Prelude.{◌-◌, ◌++◌, ◌≡◌, ◌<◌, ◌≤◌, ◌+◌, ◌⊎◌, [], true, false, not, map, All, IfOk, IfErr, OnOk, vec_len, vec_capacity};
ghost use Rattle.std.specs.List.Sorted.{IsPermutation};
ghost use Rattle.crossbeam_deque.specs.Handles.{view, worker_deque, stealer_deque, worker_view, worker_flavor, worker_index, worker_capacity, SameWorker};
ghost use Rattle.node_pool.specs.Rule.{tally, all_parts};
ghost use Rattle.node_pool.specs.Workers.{AreWorked, HasParts, HaveGrown, IsCrew, IsHolding, IsReady, IsRefusal, all_drawn, end_of, gathered};

use crate::queue::{add_marks, drain, fill};
use crate::rule::{OnePart, Taker, TaskQueue};
use crate::work::{Gate, Work};
use crate::worker::{Member, WorkerEnd, work_crew};
use base_values::OutOfMemory;
use std::alloc::{Allocator, Global};
use std::sync::Wait;
use std::thread::Threads;
use thiserror::Error;

/// Why a pool does not begin. The first in this order is answered.
#[derive(Clone, Copy, Debug, PartialEq, Eq, Error)]
pub enum Refusal {
    #[error("a pool has at least one worker")]
    NoWorkers,
    #[error("a pool has at most 16 workers")]
    TooManyWorkers,
    #[error("out of memory")]
    OutOfMemory,
}

/// What a pool leaves: what each worker does, in the order of the seats, and the tasks that nobody drew.
#[derive(Drop)]
pub struct RunEnd<T, S, A: Allocator = Global> {
    pub workers: Vec<WorkerEnd<T, S, A>, A>,
    pub left: Vec<T, A>,
}

// All memory that a pool takes outside its workers.
struct Room<T, S, A: Allocator> {
    queue: TaskQueue<T, A>,
    taker: Taker<T, A>,
    members: Vec<Member<T, S, A>, A>,
    workers: Vec<WorkerEnd<T, S, A>, A>,
    left: Vec<T, A>,
}

fn make_room<T: Drop, S: Drop, A: Allocator + Copy>(
    alloc: A,
    count: usize,
    tasks: usize,
) -> Result<Room<T, S, A>, OutOfMemory>
    ensures fresh { IfOk result (λ r. worker_view r.queue ≡ tally all_parts true [] [] false) }
    ensures queue { IfOk result (λ r. (worker_flavor r.queue ≡ 0) × (worker_index r.queue ≡ 0)
        × (tasks + count ≤ worker_capacity r.queue)) }
    ensures taker { IfOk result (λ r. stealer_deque r.taker ≡ worker_deque r.queue) }
    ensures lists { IfOk result (λ r. (r.members.items ≡ []) × (r.workers.items ≡ []) × (r.left.items ≡ [])) }
    ensures room { IfOk result (λ r. (count ≤ vec_capacity r.members) × (count ≤ vec_capacity r.workers)
        × (tasks ≤ vec_capacity r.left)) }
{
    let Some(size) = tasks.checked_add(count) else {
        return Err(OutOfMemory);
    };
    let members = Vec::with_capacity(alloc, count)?;
    let workers = Vec::with_capacity(alloc, count)?;
    let left = Vec::with_capacity(alloc, tasks)?;
    let queue = TaskQueue::fifo_as(alloc, size)?;
    let taker = queue.stealer()?;
    Ok(Room {
        queue,
        taker,
        members,
        workers,
        left,
    })
}

// A worker for each seat.
fn seat_all<T: Drop, S: Drop, A: Allocator + Copy>(
    queue: &mut TaskQueue<T, A>,
    seats: Vec<S, A>,
    members: &mut Vec<Member<T, S, A>, A>,
    alloc: A,
)
    requires full { (worker_view queue.old).parts ≡ all_parts }
    requires few { vec_len seats < all_parts }
    requires none { members.old.items ≡ [] }
    requires room { vec_len seats ≤ vec_capacity members.old }
    ensures same { SameWorker queue.old queue.new }
    ensures cut { HasParts (all_parts - vec_len seats) (worker_view queue.old) (worker_view queue.new) }
    ensures fresh { 0 < vec_len seats → (worker_view queue.new).fresh ≡ false }
    ensures ready { All (IsReady (worker_deque queue.new)) members.new.items }
    ensures seats { map (λ m. m.seat) members.new.items ≡ seats.items }
{
    for seat in seats {
        let token = queue.another::<OnePart>();
        let member = Member {
            seat,
            token,
            drawn: Vec::new(alloc),
            failed: false,
        };
        let Ok(()) = members.push(member) else {
            unreachable!()
        };
    }
}

// Takes all tokens back.
fn gather<T: Drop, S: Drop, A: Allocator + Copy>(
    queue: &mut TaskQueue<T, A>,
    members: Vec<Member<T, S, A>, A>,
    workers: &mut Vec<WorkerEnd<T, S, A>, A>,
)
    requires parts { ((worker_view queue.old).parts + vec_len members ≡ all_parts) × (0 < (worker_view queue.old).parts) }
    requires start { ((worker_view queue.old).fresh ≡ false) × ((worker_view queue.old).taken ≡ []) }
    requires going { (worker_view queue.old).stopped ≡ false }
    requires holding { All (IsHolding (worker_deque queue.old)) members.items }
    requires none { workers.old.items ≡ [] }
    requires room { vec_len members ≤ vec_capacity workers.old }
    ensures same { SameWorker queue.old queue.new }
    ensures workers { workers.new.items ≡ map end_of members.items }
    ensures whole { worker_view queue.new ≡ gathered (worker_view queue.old).put workers.new.items }
{
    for member in members {
        let Member {
            seat,
            token,
            drawn,
            failed,
        } = member;
        queue.absorb::<OnePart>(token);
        let Ok(()) = workers.push(WorkerEnd {
            seat,
            drawn,
            failed,
        }) else {
            unreachable!()
        };
    }
}

/// Has one worker from each seat, 1 to 16, work through the tasks. Each draws the next task, has it worked and draws again, until
/// no task is left or memory is refused to it; then the others go on. A thread is started for each worker where it can be had;
/// else its tasks are worked in turn. All memory but that of the workers' own is there before the first of them starts, so
/// where the pool is refused no task was drawn, and the seats are handed back. It waits until every worker has ended.
pub fn run<
    T: Drop + Send,
    S: Drop + Send,
    Own: Drop + Send,
    W: Work<T, S, Own> + Sync,
    G: Gate<T> + Sync,
    A: Allocator + Copy + Send + Sync,
    R: Threads + Wait + Sync,
>(
    rt: &R,
    alloc: A,
    seats: Vec<S, A>,
    tasks: Vec<T, A>,
    work: &W,
    gate: &G,
) -> Result<RunEnd<T, S, A>, (Vec<S, A>, Refusal)>
    requires may_work { All (W.may_work work.now) seats.items }
    ensures all { IfOk result (λ e. IsPermutation tasks.items (all_drawn e.workers.items ++ e.left.items)) }
    ensures left { IfOk result (λ e. (e.left.items ≡ []) ⊎ All (λ w. w.failed ≡ true) e.workers.items) }
    ensures worked { IfOk result (λ e. All (λ w. AreWorked (W.done work.now w.seat) w.failed w.drawn.items) e.workers.items) }
    ensures seats { IfOk result (λ e. HaveGrown (W.grows work.now) seats.items e.workers.items) }
    ensures begun { OnOk result (IsCrew (vec_len seats)) }
    ensures refused { IfErr result (λ e. IsRefusal (vec_len seats) e.1) }
    ensures back { IfErr result (λ e. e.0 ≡ seats) }
{
    let count = seats.len();
    if count == 0 {
        return Err((seats, Refusal::NoWorkers));
    }
    if count > 16 {
        return Err((seats, Refusal::TooManyWorkers));
    }
    let Ok(room) = make_room(alloc, count, tasks.len()) else {
        return Err((seats, Refusal::OutOfMemory));
    };
    let Room {
        mut queue,
        taker,
        mut members,
        mut workers,
        mut left,
    } = room;
    fill(&mut queue, tasks);
    add_marks(&mut queue, count);
    seat_all(&mut queue, seats, &mut members, alloc);
    work_crew(rt, &taker, work, gate, &mut members);
    gather(&mut queue, members, &mut workers);
    drain(rt, &mut queue, &mut left);
    Ok(RunEnd { workers, left })
}
