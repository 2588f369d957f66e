//! What a block does to a queue.

ghost use Rattle.std.specs.Prelude.{◌≡◌, ℕ, Some, slice_get, IfSome, IsTrue};
ghost use Rattle.search_model.specs.Queues.{adds, takes};
ghost use Rattle.search_model.specs.Blocks.{takes_value, added, Asks};

use crate::operations::{asks_item, is_addition, is_addition_of, is_take, is_take_of};
use aud_event::Answer;
use aud_object::Execution;

/// How many items the executions take from the queue.
pub fn count_takes(executions: &[Execution], queue: u16) -> usize
    ensures { result ≡ takes queue executions.now }
{
    let mut count = 0;
    for execution in executions {
        if is_take(execution, queue) {
            count += 1;
        }
    }
    count
}

/// How many items they add to it.
fn count_additions(executions: &[Execution], queue: u16) -> usize
    ensures { result ≡ adds queue executions.now }
{
    let mut count = 0;
    for execution in executions {
        if is_addition(execution, queue) {
            count += 1;
        }
    }
    count
}

/// Whether some execution takes the value from the queue.
pub fn takes_value(executions: &[Execution], queue: u16, value: i64) -> bool
    ensures { result ≡ takes_value queue value executions.now }
{
    executions
        .iter()
        .any(|execution| is_take_of(execution, queue, value))
}

/// Whether some execution adds the value to the queue.
pub fn adds_value(executions: &[Execution], queue: u16, value: i64) -> bool
    ensures { IsTrue result → (i : ℕ) × (slice_get (added queue executions.now) i ≡ Some value) }
{
    for execution in executions {
        if is_addition_of(execution, queue, value) {
            return true;
        }
    }
    false
}

/// What an execution was answered that asked the queue for an item, after so many takes and so many additions of its block.
#[derive(Clone, Copy)]
pub struct Asked {
    pub takes: usize,
    pub additions: usize,
    pub answer: Answer,
}

/// What the execution at the place was answered, if it asked the queue for an item.
pub fn asked_at(executions: &[Execution], queue: u16, place: usize) -> Option<Asked>
    ensures { IfSome result (λ asked. Asks queue executions.now asked.takes asked.additions asked.answer) }
{
    let execution = executions.get(place)?;
    if !asks_item(execution, queue) {
        return None;
    }
    let front = &executions[..place];
    Some(Asked {
        takes: count_takes(front, queue),
        additions: count_additions(front, queue),
        answer: execution.answer,
    })
}

/// The place of the take of this number, where takes count from 0.
pub fn place_of_take(executions: &[Execution], queue: u16, number: usize) -> Option<usize> {
    let mut left = number;
    for place in 0..executions.len() {
        if is_take(&executions[place], queue) {
            if left == 0 {
                return Some(place);
            }
            left -= 1;
        }
    }
    None
}
