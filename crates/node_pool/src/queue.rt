//! Filling the queue before the workers start, and emptying it after they have ended.

ghost use Rattle.std.specs.Prelude.{◌≡◌, ◌≤◌, ◌+◌, ◌++◌, [], true, false, length, vec_len, vec_capacity};
ghost use Rattle.std.specs.List.Sorted.{IsPermutation};
ghost use Rattle.crossbeam_deque.specs.Handles.{worker_view, worker_flavor, worker_index, worker_capacity, SameWorker};
ghost use Rattle.node_pool.specs.Rule.{tally, all_parts};
ghost use Rattle.node_pool.specs.Workers.{HasParts};

use crate::rule::{Drains, Puts, TaskQueue};
use std::alloc::Allocator;
use std::sync::Wait;

/// Puts each task into a fresh queue.
pub(crate) fn fill<T: Drop, A: Allocator + Copy>(queue: &mut TaskQueue<T, A>, tasks: Vec<T, A>)
    requires fresh { worker_view queue.old ≡ tally all_parts true [] [] false }
    requires room { worker_index queue.old + vec_len tasks ≤ worker_capacity queue.old }
    ensures same { SameWorker queue.old queue.new }
    ensures index { worker_index queue.new ≡ worker_index queue.old + vec_len tasks }
    ensures filled { worker_view queue.new ≡ tally all_parts true tasks.items [] false }
{
    for task in tasks {
        let Ok(()) = queue.push_as::<Puts>(Some(task)) else {
            unreachable!()
        };
    }
}

/// Puts so many marks after the tasks.
pub(crate) fn add_marks<T: Drop, A: Allocator + Copy>(queue: &mut TaskQueue<T, A>, count: usize)
    requires full { (worker_view queue.old).parts ≡ all_parts }
    requires room { worker_index queue.old + count ≤ worker_capacity queue.old }
    ensures same { SameWorker queue.old queue.new }
    ensures marked { HasParts all_parts (worker_view queue.old) (worker_view queue.new) }
{
    for _mark in 0..count {
        let Ok(()) = queue.push_as::<Puts>(None) else {
            unreachable!()
        };
    }
}

/// Takes out of the queue the tasks that are left in it.
pub(crate) fn drain<T: Drop, A: Allocator + Copy, R: Wait>(
    rt: &R,
    queue: &mut TaskQueue<T, A>,
    left: &mut Vec<T, A>,
)
    requires first_in_first_out { worker_flavor queue.old ≡ 0 }
    requires full { (worker_view queue.old).parts ≡ all_parts }
    requires none { left.old.items ≡ [] }
    requires room { length (worker_view queue.old).put ≤ vec_capacity left.old }
    ensures all { IsPermutation (worker_view queue.old).put ((worker_view queue.old).taken ++ left.new.items) }
    ensures stopped { (worker_view queue.old).stopped ≡ true → left.new.items ≡ [] }
{
    for _ in rt.forever() {
        match queue.pop_as::<Drains>() {
            None => return,
            Some(None) => {}
            Some(Some(task)) => {
                let Ok(()) = left.push(task) else {
                    unreachable!()
                };
            }
        }
    }
    unreachable!()
}
