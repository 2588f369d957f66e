//! What executions do to a number, and what they have to find.

ghost use Rattle.std.specs.Prelude.{◌≡◌, ℤ, None, Some, IfSome, IsTrue};
ghost use Rattle.search_model.specs.Quantities.{change, change_by, net, seen, seen_by, asked, Contradict};

use crate::operations::{
    addition, count_change, count_seen, element_change, element_seen, shortening, take,
};
use crate::quantity::{Quantity, object_of};
use aud_event::{Answer, Op};
use aud_object::Execution;

/// By how much an operation that answered so changes the number.
fn change(quantity: Quantity, op: Op, answer: Answer) -> i64
    ensures { result ≡ change quantity op answer }
{
    match quantity {
        Quantity::Count(_) => count_change(op),
        Quantity::Element(_, element) => element_change(element, op, answer),
        Quantity::Takes(_) => take(op, answer),
        Quantity::Additions(_) => addition(op),
        Quantity::Shortening(_) => shortening(op, answer),
    }
}

/// By how much an execution, which may be on another object, changes the number.
pub fn change_by(quantity: Quantity, execution: &Execution) -> i64
    ensures { result ≡ change_by quantity execution.now }
{
    if execution.object == object_of(quantity) {
        change(quantity, execution.op, execution.answer)
    } else {
        0
    }
}

/// By how much the executions change the number, if that is an i64.
pub fn net(quantity: Quantity, executions: &[Execution]) -> Option<i64>
    ensures { IfSome result (λ n. n ≡ net quantity executions.now) }
{
    let mut total: i64 = 0;
    for execution in executions {
        total = total.checked_add(change_by(quantity, execution))?;
    }
    Some(total)
}

/// What an operation that answered so tells of the number as it found it.
fn seen(quantity: Quantity, op: Op, answer: Answer) -> Option<i64>
    ensures { result ≡ seen quantity op answer }
{
    match quantity {
        Quantity::Count(_) => count_seen(op, answer),
        Quantity::Element(_, element) => element_seen(element, op, answer),
        _ => None,
    }
}

/// What an execution, which may be on another object, tells of the number as it found it.
fn seen_by(quantity: Quantity, execution: &Execution) -> Option<i64>
    ensures { result ≡ seen_by quantity execution.now }
{
    if execution.object == object_of(quantity) {
        seen(quantity, execution.op, execution.answer)
    } else {
        None
    }
}

/// The number that the executions have to find, so that the first of them that tells it answers as it did.
pub fn asked(quantity: Quantity, executions: &[Execution]) -> Option<i64>
    ensures { IfSome result (λ n. asked quantity executions.now ≡ Some n) }
{
    let mut before: i64 = 0;
    for execution in executions {
        if let Some(found) = seen_by(quantity, execution) {
            return found.checked_sub(before);
        }
        before = before.checked_add(change_by(quantity, execution))?;
    }
    None
}

/// Whether there is another number already.
fn differs(known: Option<i64>, number: i64) -> bool
    ensures { IsTrue result → (m : ℤ) × ((known ≡ Some m) × (m ≡ number → ⊥)) }
{
    match known {
        Some(other) => other != number,
        None => false,
    }
}

/// Whether the executions contradict themselves: no number at first fits with all that they tell.
pub fn contradict(quantity: Quantity, executions: &[Execution]) -> bool
    ensures { IsTrue result → Contradict quantity executions.now }
{
    let mut before: i64 = 0;
    let mut first: Option<i64> = None;
    for execution in executions {
        if let Some(found) = seen_by(quantity, execution) {
            let Some(number) = found.checked_sub(before) else {
                return false;
            };
            if differs(first, number) {
                return true;
            }
            first = Some(number);
        }
        let Some(sum) = before.checked_add(change_by(quantity, execution)) else {
            return false;
        };
        before = sum;
    }
    false
}
