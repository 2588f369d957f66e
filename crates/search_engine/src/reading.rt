//! Reads what the transactions of a history ask of an order.

use crate::cell_index::sort_cells;
use crate::cells::{Touch, add_cell};
use crate::counting::{Counting, list_rows};
use crate::encoding::{Origin, add_pairs};
use crate::literals::{TRUE, Table, at, range, short};
use crate::problem::{Problem, is_large, sort_occurrences, spend, unless_short};
use crate::queues::{NO_OP, PlacedOp, QueueOp, QueueUse, add_queue};
use crate::spans::{NOBODY, Span, count_pairs, read_spans};
use crate::sums::{Gains, Users, add_all_terms, end_sum, find_users, sum_ended};
use aud_event::{Answer, ObjDecl, ObjKind, Op, OutOfMemory};
use aud_history::TxRow;
use aud_order::Shape;
use search_counts::Touch as CountTouch;
use search_model::{
    Cell, Need, added_item, asks, cell_of, count_change, count_seen, meets, puts, taken_item,
};
use std::alloc::Global;

/// What a history asks: an order, as the problem says, or nothing, as one transaction contradicts itself on a cell, or more than there is
/// room for.
#[derive(Clone, Copy)]
pub(crate) enum Encoded {
    Whole,
    Clash(u32, u16, Cell),
    Large,
}

/// An execution: of which object and key, by which row, and at which place of its block.
#[derive(Clone, Copy, PartialEq, Eq, PartialOrd, Ord)]
struct Execution {
    object: u16,
    key: i64,
    row: usize,
    number: usize,
    op: Op,
    answer: Answer,
}

/// What a counter's user first sees, and by how much it changes it.
#[derive(Clone, Copy)]
struct Count {
    row: usize,
    need: Option<i64>,
    gain: i64,
}

const NO_EXECUTION: Execution = Execution {
    object: 0,
    key: 0,
    row: 0,
    number: 0,
    op: Op::Read,
    answer: Answer::Done,
};

const NO_TOUCH: Touch = Touch {
    row: 0,
    need: None,
    leaves: None,
};

const NO_COUNT: Count = Count {
    row: 0,
    need: None,
    gain: 0,
};

/// Room for what the rows do with one counter, or with one element of a set: what each one sees and adds, which rows these are, which of them ran
/// beside which, what each one adds, and what those add that had ended before it began.
#[derive(Drop)]
struct CounterRoom {
    counts: Table<Count>,
    users: Users,
    gains: Gains,
}

/// Room for what the rows do with one object, or with one cell of it.
#[derive(Drop)]
struct Room {
    touches: Table<Touch>,
    counter: CounterRoom,
    ops: Table<PlacedOp>,
    queue: QueueUse,
}

impl Room {
    /// For nothing yet. It does not allocate.
    fn empty(alloc: Global) -> Room {
        Room {
            touches: Table::new(alloc, NO_TOUCH),
            counter: CounterRoom {
                counts: Table::new(alloc, NO_COUNT),
                users: Users::empty(alloc),
                gains: Gains::empty(alloc),
            },
            ops: Table::new(alloc, NO_OP),
            queue: QueueUse::empty(alloc),
        }
    }

    /// Whether some growth was refused.
    fn is_short(&self) -> bool {
        self.touches.is_short()
            | self.counter.counts.is_short()
            | self.counter.users.is_short()
            | self.counter.gains.is_short()
            | self.ops.is_short()
            | self.queue.is_short()
    }
}

/// The element or the key that the operation is about.
fn key_of(op: Op) -> i64 {
    match cell_of(op) {
        Some(Cell::Element(key)) | Some(Cell::Key(key)) => key,
        _ => 0,
    }
}

/// The cell of the object that the operations of the key are about.
pub(crate) fn cell_with(kind: ObjKind, key: i64) -> Cell {
    match kind {
        ObjKind::SetOf => Cell::Element(key),
        ObjKind::MapOf => Cell::Key(key),
        ObjKind::Register | ObjKind::Counter | ObjKind::Queue => Cell::Whole,
    }
}

/// All executions, by their cells.
fn read_executions(executions: &mut Table<Execution>, rows: &[TxRow]) {
    for (row, found) in rows.iter().enumerate() {
        for (number, x) in found.block().executions().iter().enumerate() {
            executions.add(Execution {
                object: x.object,
                key: key_of(x.op),
                row,
                number,
                op: x.op,
                answer: x.answer,
            });
        }
    }
    executions.items_mut().sort_unstable();
}

/// What the cell holds that is as it is needed, where that is one thing.
fn content_of(need: Need) -> Option<Option<i64>> {
    match need {
        Need::Absent => Some(None),
        Need::Present => None,
        Need::Holding(value) => Some(Some(value)),
    }
}

/// What each row does with a cell, by its executions there; or the row that contradicts what it did before there.
fn read_touches(
    touches: &mut Table<Touch>,
    executions: &[Execution],
    kind: ObjKind,
) -> Option<usize> {
    let mut content = None;
    let mut touch = NO_TOUCH;
    touches.clear();
    for found in executions {
        if touches.is_empty() || touch.row != found.row {
            content = None;
            touch = NO_TOUCH;
            touch.row = found.row;
            touches.add(touch);
        }
        let cell = cell_with(kind, found.key);
        if let Some(need) = asks(cell, found.op, found.answer) {
            match content {
                Some(known) if !meets(need, known) => return Some(found.row),
                Some(_) => {}
                None => {
                    touch.need = Some(need);
                    content = content_of(need);
                }
            }
        }
        let left = puts(cell, found.op, found.answer);
        if left.is_some() {
            touch.leaves = left;
            content = left;
        }
        touches.set(touches.len().wrapping_sub(1), touch);
    }
    None
}

/// What each row does with a counter; or the row that contradicts what it did before.
fn read_counts(counts: &mut Table<Count>, executions: &[Execution]) -> Option<usize> {
    let mut count = NO_COUNT;
    counts.clear();
    for found in executions {
        if counts.is_empty() || count.row != found.row {
            count = NO_COUNT;
            count.row = found.row;
            counts.add(count);
        }
        if let Some(seen) = count_seen(found.op, found.answer) {
            let need = seen.checked_sub(count.gain);
            if need.is_none() || (count.need.is_some() && count.need != need) {
                return Some(found.row);
            }
            count.need = need;
        }
        count.gain = count.gain.wrapping_add(count_change(found.op));
        counts.set(counts.len().wrapping_sub(1), count);
    }
    None
}

/// What the row does with an element of a set, as a count of 0 or 1.
fn member_of(touch: Touch) -> Count {
    let need = match touch.need {
        Some(need) => Some(i64::from(need != Need::Absent)),
        None => None,
    };
    let gain = match (touch.need, touch.leaves) {
        (Some(need), Some(left)) if !meets(need, left) => if left.is_some() { 1 } else { -1 },
        _ => 0,
    };
    Count {
        row: touch.row,
        need,
        gain,
    }
}

/// Lists what each row does with the elements of a set, as counts of 0 or 1.
fn list_members(counts: &mut Table<Count>, touches: &Table<Touch>) {
    counts.clear();
    for place in 0..touches.len() {
        counts.add(member_of(touches.at(place)));
    }
}

/// Adds the sum of what stands before the row at the place, if that row reads the counter, or the element of a set.
fn add_sum(
    problem: &mut Problem,
    room: &CounterRoom,
    place: usize,
    (object, element): (u16, Option<i64>),
    opening: i64,
) {
    let count = room.counts.at(place);
    let Some(need) = count.need else {
        return;
    };
    let row = short(count.row);
    let origin = match element {
        Some(element) => Origin::Element(row, object, element),
        None => Origin::Counter(row, object),
    };
    let wanted = need
        .saturating_sub(opening)
        .saturating_sub(room.gains.ended.at(place));
    let from = problem.sums.terms.len();
    add_all_terms(problem, &room.users, &room.gains, place);
    let terms = problem.sums.terms.len().saturating_sub(from);
    spend(&mut problem.allowance, terms);
    end_sum(&mut problem.sums, from, TRUE, wanted, origin);
}

/// Lists the rows, what each one adds, and, for a beam, what it does with the next cell, which opens so.
fn list_counts(
    counting: &mut Counting,
    rows: &mut Table<usize>,
    gains: &mut Table<i64>,
    counts: &Table<Count>,
    opening: i64,
) {
    let (touches, openings) = (&mut counting.touches, &mut counting.openings);
    let cell = openings.len();
    openings.add(opening);
    rows.clear();
    gains.clear();
    for place in 0..counts.len() {
        let count = counts.at(place);
        touches.add(CountTouch {
            row: count.row,
            cell,
            need: count.need,
            gain: count.gain,
        });
        rows.add(count.row);
        gains.add(count.gain);
    }
}

/// Finds which of the rows ran beside which, and adds up what those add that had ended before each one.
fn read_ended(room: &mut CounterRoom, spans: &[Span]) {
    let users = &mut room.users;
    find_users(users, spans);
    sum_ended(&mut room.gains, users, spans);
}

/// Adds what is asked of a counter, or of an element of a set, as far as there is room.
fn add_counts(
    problem: &mut Problem,
    room: &mut CounterRoom,
    named: (u16, Option<i64>),
    opening: i64,
) {
    let (rows, gains) = (&mut room.users.rows, &mut room.gains.own);
    list_counts(&mut problem.counting, rows, gains, &room.counts, opening);
    read_ended(room, &problem.spans);
    for place in 0..room.counts.len() {
        if is_large(problem) {
            break;
        }
        add_sum(problem, room, place, named, opening);
    }
}

/// What the execution does to its queue.
fn queue_op_of(op: Op, answer: Answer) -> QueueOp {
    if let Some(value) = added_item(op) {
        return QueueOp::Adds(value);
    }
    match taken_item(op, answer) {
        Some(value) => QueueOp::Takes(value),
        None => QueueOp::SeesEmpty,
    }
}

/// Lists the rows that touch the queue, and the operations of each.
fn list_ops(ops: &mut Table<PlacedOp>, rows: &mut Table<usize>, executions: &[Execution]) {
    ops.clear();
    for index in 0..executions.len() {
        let found = executions[index];
        let last = rows.at(rows.len().wrapping_sub(1));
        if rows.is_empty() | (last != found.row) {
            rows.add(found.row);
        }
        ops.add(PlacedOp {
            place: rows.len().wrapping_sub(1),
            number: short(found.number),
            op: queue_op_of(found.op, found.answer),
        });
    }
}

/// Adds what is asked of a queue.
fn add_queue_executions(
    problem: &mut Problem,
    room: &mut Room,
    executions: &[Execution],
    object: u16,
) {
    let (queue, ops) = (&mut room.queue, &mut room.ops);
    problem.counting.is_all = false;
    queue.begin(object);
    list_ops(ops, &mut queue.users.rows, executions);
    add_queue(problem, queue, ops.items());
}

/// Adds what is asked of a register, or of a key of a map.
fn add_content(
    problem: &mut Problem,
    touches: &[Touch],
    (object, key): (u16, i64),
    (kind, opening): (ObjKind, i64),
) {
    let mut opens = None;
    if kind == ObjKind::Register {
        opens = Some(opening);
    }
    problem.counting.is_all = false;
    add_cell(problem, touches, (object, cell_with(kind, key)), opens);
}

/// Adds what is asked of a counter; or gives the row that contradicts itself there.
fn add_counter(
    problem: &mut Problem,
    room: &mut CounterRoom,
    executions: &[Execution],
    object: u16,
    opening: i64,
) -> Option<usize> {
    let refused = read_counts(&mut room.counts, executions);
    if refused.is_none() {
        add_counts(problem, room, (object, None), opening);
    }
    refused
}

/// Adds what is asked by the executions of one object and key; or gives the row that contradicts itself there.
fn add_uses(
    problem: &mut Problem,
    room: &mut Room,
    executions: &[Execution],
    (object, key): (u16, i64),
    (kind, opening): (ObjKind, i64),
) -> Option<usize> {
    if kind == ObjKind::Queue {
        add_queue_executions(problem, room, executions, object);
        return None;
    }
    let counter = &mut room.counter;
    if kind == ObjKind::Counter {
        return add_counter(problem, counter, executions, object, opening);
    }
    let touches = &mut room.touches;
    let refused = read_touches(touches, executions, kind);
    if refused.is_some() {
        return refused;
    }
    if kind == ObjKind::SetOf {
        list_members(&mut counter.counts, touches);
        add_counts(problem, counter, (object, Some(key)), 0);
    } else {
        add_content(problem, touches.items(), (object, key), (kind, opening));
    }
    None
}

/// The kind of the object, and what it opens with.
fn declared_as(objects: &[ObjDecl], object: u16) -> (ObjKind, i64) {
    match objects.get(object as usize) {
        Some(found) => (found.kind, found.opening),
        None => (ObjKind::Register, 0),
    }
}

/// Adds what is asked of all objects; or gives the row that contradicts itself, on that object and key.
fn add_all(
    problem: &mut Problem,
    room: &mut Room,
    objects: &[ObjDecl],
    executions: &[Execution],
) -> Option<Execution> {
    let mut from = 0;
    for (place, found) in executions.iter().enumerate() {
        let next = place.wrapping_add(1);
        let named = (found.object, found.key);
        if let Some(other) = executions.get(next) {
            if (other.object, other.key) == named {
                continue;
            }
        }
        let own = range(executions, from, next);
        let declared = declared_as(objects, found.object);
        if let Some(row) = add_uses(problem, room, own, named, declared) {
            return Some(Execution { row, ..*found });
        }
        if is_large(problem) {
            break;
        }
        from = next;
    }
    None
}

/// Sorts what is asked, as the search looks for it.
fn sort_all(problem: &mut Problem) {
    let rows = problem.spans.len();
    sort_cells(&mut problem.cells, rows);
    sort_occurrences(&mut problem.sums, problem.variables.roles.len());
    list_rows(&mut problem.counting, &problem.spans);
}

/// Adds what is asked of all objects, and sorts it; or gives the row that contradicts itself, on that object and key.
fn add_history(
    problem: &mut Problem,
    room: &mut Room,
    executions: &mut Table<Execution>,
    shape: &Shape,
) -> Option<Execution> {
    add_pairs(&mut problem.variables, &mut problem.spans);
    read_executions(executions, shape.table().rows());
    let objects = shape.plan().objects();
    let refused = add_all(problem, room, objects, executions.items());
    sort_all(problem);
    refused
}

/// Adds what is asked of all objects, with room for that. It gives the row that contradicts itself, if one does, and whether some growth was refused.
fn add_with_room(alloc: Global, problem: &mut Problem, shape: &Shape) -> (Option<Execution>, bool) {
    let mut executions = Table::new(alloc, NO_EXECUTION);
    let mut room = Room::empty(alloc);
    let refused = add_history(problem, &mut room, &mut executions, shape);
    let is_short = executions.is_short() | room.is_short() | problem.is_short();
    (refused, is_short)
}

/// Reads what the history asks of an order, if the work and the bytes that the problem may take suffice for it.
pub(crate) fn read(
    alloc: Global,
    shape: &Shape,
    problem: &mut Problem,
) -> Result<Encoded, OutOfMemory> {
    read_spans(&mut problem.spans, shape.table().rows())?;
    if count_pairs(&problem.spans).saturating_mul(100) > problem.allowance.bytes {
        return Ok(Encoded::Large);
    }
    let (refused, is_short) = add_with_room(alloc, problem, shape);
    unless_short(is_short)?;
    if let Some(found) = refused {
        let tx = at(&problem.spans, found.row, NOBODY).tx;
        let (kind, _) = declared_as(shape.plan().objects(), found.object);
        return Ok(Encoded::Clash(tx, found.object, cell_with(kind, found.key)));
    }
    if is_large(problem) {
        return Ok(Encoded::Large);
    }
    Ok(Encoded::Whole)
}
