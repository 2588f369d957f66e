//! What each operation asks of the object that it is of, and what it does to it. No other file of the search or the judge names operations.

ghost use Rattle.std.specs.Prelude.{◌≡◌, ◌-ℤ◌, ◌&&◌, true, nat_eq, IsTrue};
ghost use Rattle.aud_event.specs.declared.object.Op.TheVariants.{Deq};
ghost use Rattle.search_model.specs.Blocks.{is_take_of, is_addition_of, added_item, taken_item};
ghost use Rattle.search_model.specs.Cells.{cell_of, flagged, looked, read, asks, puts};
ghost use Rattle.search_model.specs.Quantities.{is_yes, count_change, element_change, take, addition, member_seen, absence_seen, element_seen, count_seen};
ghost use Rattle.search_model.specs.Queues.{is_addition, is_take};

use crate::cell::{Cell, Need};
use aud_event::{Answer, Op};
use aud_object::Execution;

/// The cell that an operation is of, if it is of one.
pub fn cell_of(op: Op) -> Option<Cell>
    ensures { result ≡ cell_of op }
{
    match op {
        Op::Read | Op::Write(_) => Some(Cell::Whole),
        Op::Add(element) | Op::Remove(element) | Op::Contains(element) => {
            Some(Cell::Element(element))
        }
        Op::Put(key, _) | Op::Look(key) | Op::Del(key) => Some(Cell::Key(key)),
        _ => None,
    }
}

/// What a flag tells of the cell.
fn flagged(so: Need, not_so: Need, answer: Answer) -> Option<Need>
    ensures { result ≡ flagged so not_so answer }
{
    match answer {
        Answer::Flag(flag) => Some(if flag { so } else { not_so }),
        _ => None,
    }
}

/// What a look tells of its key.
fn looked(answer: Answer) -> Option<Need>
    ensures { result ≡ looked answer }
{
    match answer {
        Answer::Int(value) => Some(Need::Holding(value)),
        Answer::Empty => Some(Need::Absent),
        _ => None,
    }
}

/// What a read tells of its register.
fn read(answer: Answer) -> Option<Need>
    ensures { result ≡ read answer }
{
    match answer {
        Answer::Int(value) => Some(Need::Holding(value)),
        _ => None,
    }
}

/// What an operation that answered so needs of the cell.
pub fn asks(cell: Cell, op: Op, answer: Answer) -> Option<Need>
    ensures { result ≡ asks cell op answer }
{
    match (cell, op) {
        (Cell::Whole, Op::Read) => read(answer),
        (Cell::Element(element), Op::Add(value)) if element == value => {
            flagged(Need::Absent, Need::Holding(0), answer)
        }
        (Cell::Element(element), Op::Remove(value)) if element == value => {
            flagged(Need::Holding(0), Need::Absent, answer)
        }
        (Cell::Element(element), Op::Contains(value)) if element == value => {
            flagged(Need::Holding(0), Need::Absent, answer)
        }
        (Cell::Key(key), Op::Look(other)) if key == other => looked(answer),
        (Cell::Key(key), Op::Del(other)) if key == other => {
            flagged(Need::Present, Need::Absent, answer)
        }
        _ => None,
    }
}

/// What an operation that answered so leaves in the cell, if it changes it.
pub fn puts(cell: Cell, op: Op, answer: Answer) -> Option<Option<i64>>
    ensures { result ≡ puts cell op answer }
{
    match (cell, op) {
        (Cell::Whole, Op::Write(value)) => Some(Some(value)),
        (Cell::Element(element), Op::Add(value)) if element == value && is_yes(answer) => {
            Some(Some(0))
        }
        (Cell::Element(element), Op::Remove(value)) if element == value && is_yes(answer) => {
            Some(None)
        }
        (Cell::Key(key), Op::Put(other, value)) if key == other => Some(Some(value)),
        (Cell::Key(key), Op::Del(other)) if key == other && is_yes(answer) => Some(None),
        _ => None,
    }
}

/// Whether the answer is yes.
pub(crate) fn is_yes(answer: Answer) -> bool
    ensures { result ≡ is_yes answer }
{
    match answer {
        Answer::Flag(yes) => yes,
        _ => false,
    }
}

/// By how much an operation changes a count that is far from the ends of its range.
pub fn count_change(op: Op) -> i64
    ensures { result ≡ count_change op }
{
    match op {
        Op::Inc => 1,
        Op::Dec => -1,
        Op::Plus(value) => value,
        _ => 0,
    }
}

/// 1 where an operation that answered so brings the element in, -1 where it takes it out.
pub(crate) fn element_change(element: i64, op: Op, answer: Answer) -> i64
    ensures { result ≡ element_change element op answer }
{
    match op {
        Op::Add(value) if value == element && is_yes(answer) => 1,
        Op::Remove(value) if value == element && is_yes(answer) => -1,
        _ => 0,
    }
}

/// 1 where an operation that answered so takes an item.
pub(crate) fn take(op: Op, answer: Answer) -> i64
    ensures { result ≡ take op answer }
{
    match (op, answer) {
        (Op::Deq, Answer::Int(_)) => 1,
        _ => 0,
    }
}

/// 1 where an operation adds an item.
pub(crate) fn addition(op: Op) -> i64
    ensures { result ≡ addition op }
{
    match op {
        Op::Enq(_) => 1,
        _ => 0,
    }
}

/// 1 where an operation that answered so takes an item, -1 where it adds one.
pub(crate) fn shortening(op: Op, answer: Answer) -> i64
    ensures { result ≡ take op answer -ℤ addition op }
{
    match (op, answer) {
        (Op::Deq, Answer::Int(_)) => 1,
        (Op::Enq(_), _) => -1,
        _ => 0,
    }
}

/// 1 where the answer says that the element is in the set, 0 where it says that it is not.
pub(crate) fn member_seen(answer: Answer) -> Option<i64>
    ensures { result ≡ member_seen answer }
{
    match answer {
        Answer::Flag(true) => Some(1),
        Answer::Flag(false) => Some(0),
        _ => None,
    }
}

/// 0 where the answer says that the element was not in the set and came in, 1 where it says that it was in it.
pub(crate) fn absence_seen(answer: Answer) -> Option<i64>
    ensures { result ≡ absence_seen answer }
{
    match answer {
        Answer::Flag(true) => Some(0),
        Answer::Flag(false) => Some(1),
        _ => None,
    }
}

/// What an operation that answered so tells of the element, as 1 or 0.
pub(crate) fn element_seen(element: i64, op: Op, answer: Answer) -> Option<i64>
    ensures { result ≡ element_seen element op answer }
{
    match op {
        Op::Add(value) if value == element => absence_seen(answer),
        Op::Remove(value) if value == element => member_seen(answer),
        Op::Contains(value) if value == element => member_seen(answer),
        _ => None,
    }
}

/// What an operation that answered so tells of a count.
pub fn count_seen(op: Op, answer: Answer) -> Option<i64>
    ensures { result ≡ count_seen op answer }
{
    match (op, answer) {
        (Op::Get, Answer::Int(count)) => Some(count),
        _ => None,
    }
}

/// The item that an operation adds to its queue, if it adds one.
pub fn added_item(op: Op) -> Option<i64>
    ensures { result ≡ added_item op }
{
    match op {
        Op::Enq(item) => Some(item),
        _ => None,
    }
}

/// The item that an operation that answered so takes from its queue, if it takes one.
pub fn taken_item(op: Op, answer: Answer) -> Option<i64>
    ensures { result ≡ taken_item op answer }
{
    match (op, answer) {
        (Op::Deq, Answer::Int(item)) => Some(item),
        _ => None,
    }
}

/// Whether the execution takes an item from the queue.
pub(crate) fn is_take(execution: &Execution, queue: u16) -> bool
    ensures { result ≡ (nat_eq execution.now.object queue && is_take execution.now.op execution.now.answer) }
{
    if execution.object != queue {
        return false;
    }
    matches!((execution.op, execution.answer), (Op::Deq, Answer::Int(_)))
}

/// Whether the execution adds an item to the queue.
pub fn is_addition(execution: &Execution, queue: u16) -> bool
    ensures { result ≡ (nat_eq execution.now.object queue && is_addition execution.now.op) }
{
    if execution.object != queue {
        return false;
    }
    matches!(execution.op, Op::Enq(_))
}

/// Whether the execution takes this value from the queue.
pub(crate) fn is_take_of(execution: &Execution, queue: u16, value: i64) -> bool
    ensures { result ≡ is_take_of queue value execution.now }
{
    if execution.object != queue {
        return false;
    }
    match (execution.op, execution.answer) {
        (Op::Deq, Answer::Int(item)) => item == value,
        _ => false,
    }
}

/// Whether the execution adds this value to the queue.
pub fn is_addition_of(execution: &Execution, queue: u16, value: i64) -> bool
    ensures { result ≡ is_addition_of queue value execution.now }
{
    if execution.object != queue {
        return false;
    }
    match execution.op {
        Op::Enq(item) => item == value,
        _ => false,
    }
}

/// Whether the execution asks the queue for an item.
pub(crate) fn asks_item(execution: &Execution, queue: u16) -> bool
    ensures { IsTrue result → (nat_eq execution.now.object queue ≡ true) × (execution.now.op ≡ Deq) }
{
    if execution.object != queue {
        return false;
    }
    matches!(execution.op, Op::Deq)
}
