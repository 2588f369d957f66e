//! What the workers of a pool do.

ghost use Rattle.std.specs.Prelude.{OnOk};

use base_values::OutOfMemory;
use std::sync::Wait;

/// What is called before and after each task of a worker. All workers share it.
pub trait Gate<T> {
    /// Is called by the worker of the number, from 0, when it has drawn the task.
    fn before(&self, worker: u32, task: &T);

    /// Is called when the worker is done with the task, be it worked or refused.
    fn after(&self, worker: u32, task: &T);
}

/// What a worker does with a task from its seat, over what it has for itself from task to task. All workers share it.
pub trait Work<T, S, Own> {
    // What a worker has for itself is of this work.
    ghost fits: { Self → Own → Type 0 };

    // Tasks may be worked from the seat.
    ghost may_work: { Self → S → Type 0 };

    // What the seat knows of a task once it was worked.
    ghost done: { Self → S → T → Type 0 };

    // The second seat knows what the first one did.
    ghost grows: { Self → S → S → Type 0 };

    /// What a worker has for itself before its first task.
    fn begin(&self) -> Own
        ensures { fits self.now result };

    /// Works the task. Where memory is refused the task may be undone, and the seat still knows what it did.
    fn work<R: Wait>(
        &self,
        rt: &R,
        seat: &mut S,
        own: &mut Own,
        task: &T,
    ) -> Result<(), OutOfMemory>
        requires may_work { may_work self.now seat.old }
        requires fits { fits self.now own.old }
        ensures done { OnOk result (done self.now seat.new task.now) }
        ensures grows { grows self.now seat.old seat.new }
        ensures fits { fits self.now own.new };

    ghost stays: { (w : Self) (s t : S) (x : T) → grows w s t → done w s x → done w t x };

    ghost still_may_work: { (w : Self) (s t : S) → grows w s t → may_work w s → may_work w t };

    ghost grows_from_itself: { (w : Self) (s : S) → grows w s s };

    ghost grows_onward: { (w : Self) (s t u : S) → grows w s t → grows w t u → grows w s u };
}
