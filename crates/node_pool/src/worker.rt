//! One worker, and all of them at once.

ghost use Rattle.std.specs.Prelude.{◌≡◌, ◌<◌, ◌∷◌, [], length, All, vec_len};
ghost use Rattle.crossbeam_deque.specs.Handles.{view, IsPassOf, stealer_deque};
ghost use Rattle.node_pool.specs.Rule.{after_take, all_parts};
ghost use Rattle.node_pool.specs.Workers.{IsReady, IsDone, IsStarting, SeatsHaveGrown};

use crate::rule::{Draws, Taker, Token};
use crate::work::{Gate, Work};
use crossbeam_deque::Steal;
use std::alloc::{Allocator, Global};
use std::sync::Wait;
use std::thread;
use std::thread::Threads;

/// A worker of the pool: its seat, its token of the queue, the tasks that it drew, and whether it failed.
#[derive(Drop)]
pub(crate) struct Member<T, S, A: Allocator = Global> {
    pub seat: S,
    pub token: Token<T, A>,
    pub drawn: Vec<T, A>,
    pub failed: bool,
}

/// What a worker leaves: its seat, the tasks that it drew, in their order, and whether memory was refused to it. Then it ended
/// before the tasks did, and the last task that it drew may be undone.
#[derive(Drop)]
pub struct WorkerEnd<T, S, A: Allocator = Global> {
    pub seat: S,
    pub drawn: Vec<T, A>,
    pub failed: bool,
}

// The next task, or none where the worker took a mark.
fn draw<T, A: Allocator + Copy, R: Wait>(
    rt: &R,
    taker: &Taker<T, A>,
    token: &mut Token<T, A>,
) -> Option<T>
    requires pass { IsPassOf (stealer_deque taker.now) token.old }
    requires part { 0 < (view token.old).parts }
    ensures pass { IsPassOf (stealer_deque taker.now) token.new }
    ensures took { view token.new ≡ after_take (view token.old) (result ∷ []) }
{
    for _ in rt.forever() {
        match taker.steal_as::<Draws>(token) {
            Steal::Success(slot) => return slot,
            Steal::Empty => thread::yield_now(),
            Steal::Retry => {}
        }
    }
    unreachable!()
}

// Draws tasks and works them, until the worker takes a mark or memory is refused to it. Room for the task that it draws is
// there before it draws it, so no drawn task is lost.
fn work_through<
    T: Drop,
    S,
    Own: Drop,
    W: Work<T, S, Own>,
    G: Gate<T>,
    A: Allocator + Copy,
    R: Wait,
>(rt: &R, taker: &Taker<T, A>, work: &W, gate: &G, worker: u32, member: &mut Member<T, S, A>)
    requires ready { IsReady (stealer_deque taker.now) member.old }
    requires may_work { W.may_work work.now member.old.seat }
    ensures done { IsDone (stealer_deque taker.now) (W.done work.now) member.new }
    ensures grows { W.grows work.now member.old.seat member.new.seat }
{
    let mut own: Own = work.begin();
    for _ in rt.forever() {
        if member.drawn.reserve(1).is_err() {
            member.failed = true;
            return;
        }
        let Some(task) = draw(rt, taker, &mut member.token) else {
            return;
        };
        gate.before(worker, &task);
        let end = work.work(rt, &mut member.seat, &mut own, &task);
        gate.after(worker, &task);
        let Ok(()) = member.drawn.push(task) else {
            unreachable!()
        };
        if end.is_err() {
            member.failed = true;
            return;
        }
    }
    unreachable!()
}

// All workers work at once, where threads can be had, and else in turn.
fn work_all<
    T: Drop + Send,
    S: Send,
    Own: Drop + Send,
    W: Work<T, S, Own> + Sync,
    G: Gate<T> + Sync,
    A: Allocator + Copy + Send + Sync,
    R: Threads + Wait + Sync,
>(rt: &R, taker: &Taker<T, A>, work: &W, gate: &G, members: &mut [Member<T, S, A>])
    requires few { length members.old < all_parts }
    requires some { 0 < length members.old }
    requires starting { All (IsStarting (stealer_deque taker.now) (W.may_work work.now)) members.old }
    ensures done { All (IsDone (stealer_deque taker.now) (W.done work.now)) members.new }
    ensures grows { SeatsHaveGrown (W.grows work.now) members.old members.new }
{
    let count = members.len();
    let each = |i: usize, member: &mut Member<T, S, A>|
        requires { (i < all_parts) × IsStarting (stealer_deque taker.now) (W.may_work work.now) member.now }
        ensures { IsDone (stealer_deque taker.entry.now) (W.done work.entry.now) member.exit.now
            × W.grows work.entry.now member.entry.now.seat member.exit.now.seat }
    { work_through(rt, taker, work, gate, i as u32, member) };
    thread::for_each_mut(rt, members, count, &each);
}

/// Has all workers work through the queue. It does not allocate, and starts a thread for each worker where it can.
pub(crate) fn work_crew<
    T: Drop + Send,
    S: Send,
    Own: Drop + Send,
    W: Work<T, S, Own> + Sync,
    G: Gate<T> + Sync,
    A: Allocator + Copy + Send + Sync,
    R: Threads + Wait + Sync,
>(rt: &R, taker: &Taker<T, A>, work: &W, gate: &G, members: &mut Vec<Member<T, S, A>, A>)
    requires few { vec_len members.old < all_parts }
    requires some { 0 < vec_len members.old }
    requires starting { All (IsStarting (stealer_deque taker.now) (W.may_work work.now)) members.old.items }
    ensures done { All (IsDone (stealer_deque taker.now) (W.done work.now)) members.new.items }
    ensures len { vec_len members.new ≡ vec_len members.old }
    ensures grows { SeatsHaveGrown (W.grows work.now) members.old.items members.new.items }
{
    work_all(rt, taker, work, gate, members.as_mut_slice());
}
