//! The rule of the queue: what its holders know of it.

ghost use Rattle.std.specs.Prelude.{◌≡◌, ◌-◌, ◌+◌, ◌++◌, ◌≤◌, [], true, false, length};
ghost use Rattle.std.specs.List.Sorted.{IsPermutation};
ghost use Rattle.node_pool.specs.Rule.{tally, idle, Shared, after_take, after_put, either_stopped, tasks_in, all_parts};

use crossbeam_deque::protocol::{Join, Outcome, Protocol, Split};
use crossbeam_deque::{Pass, Stealer, Worker};
use std::alloc::Global;
use std::collections::LinkedList;

// What a holder has put into the queue and taken out of it, whether it has taken a mark, and its parts of the right to know the
// whole. While it is fresh no mark was put. No value of it is made.
pub struct Tally<T> {
    pub parts: u64,
    pub fresh: bool,
    pub put: LinkedList<T>,
    pub taken: LinkedList<T>,
    pub stopped: bool,
}

// What was put is what was taken and what is there, and marks stand after all tasks.
pub struct Fair;

impl<T> Protocol<Option<T>, Tally<T>> for Fair {
    ghost holds = { Shared };

    ghost first = { tally all_parts true [] [] false };

    ghost guest = { idle };
}

// One part for a holder more, and back.
pub struct OnePart;

impl<T> Split<Tally<T>> for OnePart {
    ghost left = { λ v. tally (v.parts - 1) false v.put v.taken v.stopped };

    ghost right = { λ v. tally 1 false [] [] false };
}

impl<T> Join<Tally<T>> for OnePart {
    ghost both = { λ v w. tally (v.parts + w.parts) false (v.put ++ w.put) (v.taken ++ w.taken) (either_stopped v.stopped w.stopped) };

    ghost spent = { idle };
}

pub struct Puts;

impl<T> Outcome<Option<T>, Tally<T>> for Puts {
    ghost then = { λ v xs w. w ≡ after_put v xs };
}

pub struct Draws;

impl<T> Outcome<Option<T>, Tally<T>> for Draws {
    ghost then = { λ v xs w. w ≡ after_take v xs };
}

// A take by the holder of every part: it finds marks alone once a mark was taken, and an empty queue gave all that was put.
pub struct Drains;

impl<T> Outcome<Option<T>, Tally<T>> for Drains {
    ghost then = { λ v xs w. (w ≡ after_take v xs)
        × (v.stopped ≡ true → tasks_in xs ≡ []) × (v.parts ≡ all_parts → length w.taken ≤ length v.put) };

    ghost empty = { λ v. v.parts ≡ all_parts → IsPermutation v.put v.taken };
}

/// A queue of tasks, first in, first out. `None` is a mark: the worker that takes it ends.
pub type TaskQueue<T, A = Global> = Worker<Option<T>, A, Tally<T>, Fair>;

/// The end of the queue at which workers take.
pub type Taker<T, A = Global> = Stealer<Option<T>, A, Tally<T>, Fair>;

/// What a worker needs beside a `Taker`: its own tally.
pub type Token<T, A = Global> = Pass<Option<T>, Tally<T>, A>;
