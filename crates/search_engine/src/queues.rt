//! Queues: which addition is taken, how many are taken and added before, and what was added before is taken before.

use crate::encoding::{Origin, Role, Variables, add_clause, add_variable, ask};
use crate::literals::{FALSE, NONE, TRUE, Table, at, neg, number_item, range, short};
use crate::problem::{Problem, is_large, spend};
use crate::spans::{Span, before, instant, span_of};
use crate::sums::{Gains, Users, add_all_terms, add_terms, end_sum, find_users, sum_ended};
use std::alloc::Global;

/// What a transaction does on a queue.
#[derive(Clone, Copy)]
pub(crate) enum QueueOp {
    Adds(i64),
    Takes(i64),
    SeesEmpty,
}

/// An operation, with the place of its row among those that touch the queue, and its place in the block.
#[derive(Clone, Copy)]
pub(crate) struct PlacedOp {
    pub place: usize,
    pub number: u32,
    pub op: QueueOp,
}

/// A take, or that the queue is seen empty, by the number of the take or the place in the block.
#[derive(Clone, Copy)]
pub(crate) struct TakeOf {
    pub row: usize,
    pub object: u16,
    pub number: u32,
}

/// That what is taken is that addition of the row.
#[derive(Clone, Copy)]
pub(crate) struct ItemOf {
    pub take: u32,
    pub row: usize,
    pub addition: u32,
    /// The sum of what is taken and added before.
    pub sum: u32,
}

/// That the row's value is taken before, as it was added before the item, or, if that is none, before the queue was empty.
#[derive(Clone, Copy)]
pub(crate) struct GoneOf {
    pub take: TakeOf,
    pub item: u32,
    pub row: usize,
    pub value: i64,
}

pub(crate) const NO_OP: PlacedOp = PlacedOp {
    place: 0,
    number: 0,
    op: QueueOp::SeesEmpty,
};

const NO_TAKE: TakeOf = TakeOf {
    row: 0,
    object: 0,
    number: 0,
};

const NO_GONE: GoneOf = GoneOf {
    take: NO_TAKE,
    item: NONE,
    row: 0,
    value: 0,
};

const NO_ITEM: ItemOf = ItemOf {
    take: 0,
    row: 0,
    addition: 0,
    sum: NONE,
};

/// What the clauses of queues are about, by numbers.
#[derive(Drop)]
pub(crate) struct QueueItems {
    pub takes: Table<TakeOf>,
    pub items: Table<ItemOf>,
    pub gone: Table<GoneOf>,
}

impl QueueItems {
    /// No items. It does not allocate.
    pub(crate) fn empty(alloc: Global) -> QueueItems {
        QueueItems {
            takes: Table::new(alloc, NO_TAKE),
            items: Table::new(alloc, NO_ITEM),
            gone: Table::new(alloc, NO_GONE),
        }
    }

    /// Whether some growth was refused.
    pub(crate) fn is_short(&self) -> bool {
        self.takes.is_short() | self.items.is_short() | self.gone.is_short()
    }
}

/// A value that a row adds or takes: the place of the row, and how many of its additions were before.
#[derive(Clone, Copy, PartialEq, Eq, PartialOrd, Ord)]
struct Holding {
    value: i64,
    place: usize,
    index: u32,
}

/// A value that a row adds, who may take it, when the first of those ended, and the next one that matters.
#[derive(Clone, Copy)]
struct Added {
    place: usize,
    value: i64,
    takers: usize,
    takers_end: usize,
    taken: u32,
    next: usize,
}

/// What is known of one queue while its clauses are made.
#[derive(Drop)]
pub(crate) struct QueueUse {
    object: u16,
    pub users: Users,
    /// How many each row takes, and less how many it adds, if it may commit; and both together.
    takes: Gains,
    adds: Gains,
    both: Gains,
    /// Who adds and who takes each value.
    adders: Table<Holding>,
    takers: Table<Holding>,
    added: Table<Added>,
    /// Those additions that one take may be of, the literals that say which, and a clause that is being made.
    found: Table<Holding>,
    choices: Table<u32>,
    clause: Table<u32>,
}

impl QueueUse {
    /// Of no queue. It does not allocate.
    pub(crate) fn empty(alloc: Global) -> QueueUse {
        QueueUse {
            object: 0,
            users: Users::empty(alloc),
            takes: Gains::empty(alloc),
            adds: Gains::empty(alloc),
            both: Gains::empty(alloc),
            adders: Table::new(alloc, NOT_HELD),
            takers: Table::new(alloc, NOT_HELD),
            added: Table::new(alloc, NOT_ADDED),
            found: Table::new(alloc, NOT_HELD),
            choices: Table::new(alloc, FALSE),
            clause: Table::new(alloc, FALSE),
        }
    }

    /// Of that queue, before its rows and operations are read.
    pub(crate) fn begin(&mut self, object: u16) {
        self.object = object;
        self.users.rows.clear();
    }

    /// Whether some growth was refused.
    pub(crate) fn is_short(&self) -> bool {
        self.users.is_short()
            | self.takes.is_short()
            | self.adds.is_short()
            | self.both.is_short()
            | self.adders.is_short()
            | self.takers.is_short()
            | self.added.is_short()
            | self.found.is_short()
            | self.choices.is_short()
            | self.clause.is_short()
    }
}

const NOT_HELD: Holding = Holding {
    value: 0,
    place: 0,
    index: 0,
};

const NOT_ADDED: Added = Added {
    place: 0,
    value: 0,
    takers: 0,
    takers_end: 0,
    taken: 0,
    next: 0,
};

/// The first place in the order of values whose value is not below, or, if it is to be above, is above that one.
fn place_of(held: &[Holding], value: i64, above: bool) -> usize {
    let mut low = 0;
    let mut high = held.len();
    for _ in 0..64 {
        if low >= high {
            break;
        }
        let middle = low.midpoint(high);
        let found = at(held, middle, NOT_HELD).value;
        if found > value || (found == value && !above) {
            high = middle;
        } else {
            low = middle.saturating_add(1);
        }
    }
    low
}

/// Adds the amount to the count of the place.
fn count(counts: &mut Table<i64>, place: usize, amount: i64) {
    counts.set(place, counts.at(place).wrapping_add(amount));
}

/// Whether the row at the place may commit.
fn may_commit(rows: &Table<usize>, spans: &[Span], place: usize) -> bool {
    span_of(spans, rows.at(place)).commits != FALSE
}

/// Counts how many each row takes, and less how many it adds, if it may commit.
fn count_ops(
    takes: &mut Table<i64>,
    adds: &mut Table<i64>,
    rows: &Table<usize>,
    spans: &[Span],
    ops: &[PlacedOp],
) {
    takes.clear();
    adds.clear();
    takes.fill(rows.len());
    adds.fill(rows.len());
    for index in 0..ops.len() {
        let found = ops[index];
        if may_commit(rows, spans, found.place) {
            match found.op {
                QueueOp::Adds(_) => count(adds, found.place, -1),
                QueueOp::Takes(_) => count(takes, found.place, 1),
                QueueOp::SeesEmpty => {}
            }
        }
    }
}

/// Lists by the values who adds them, as which of its own additions, and who takes them, of those that may commit.
fn list_holdings(
    adders: &mut Table<Holding>,
    takers: &mut Table<Holding>,
    rows: &Table<usize>,
    spans: &[Span],
    ops: &[PlacedOp],
) {
    adders.clear();
    takers.clear();
    let mut last = NOT_HELD;
    last.place = usize::MAX;
    for number in 0..ops.len() {
        let found = ops[number];
        if found.place != last.place {
            last.place = found.place;
            last.index = 0;
        }
        match found.op {
            QueueOp::Adds(value) => {
                last.value = value;
                adders.add(last);
                last.index = last.index.wrapping_add(1);
            }
            QueueOp::Takes(value) => if may_commit(rows, spans, found.place) {
                takers.add(Holding {
                    value,
                    place: found.place,
                    index: 0,
                });
            },
            QueueOp::SeesEmpty => {}
        }
    }
    adders.items_mut().sort_unstable();
    takers.items_mut().sort_unstable();
}

/// What each row takes, less what it adds.
fn add_counts(both: &mut Table<i64>, takes: &Table<i64>, adds: &Table<i64>) {
    both.clear();
    for place in 0..takes.len() {
        both.add(takes.at(place).wrapping_add(adds.at(place)));
    }
}

/// The value that the row at the place adds, with who may take it. There is no next one yet.
fn added_by(
    takers: &Table<Holding>,
    rows: &Table<usize>,
    spans: &[Span],
    place: usize,
    value: i64,
) -> Added {
    let first = place_of(takers.items(), value, false);
    let takers_end = place_of(takers.items(), value, true);
    let mut taken = NONE;
    for number in first..takers_end {
        let row = rows.at(takers.at(number).place);
        taken = taken.min(span_of(spans, row).last);
    }
    Added {
        place,
        value,
        takers: first,
        takers_end,
        taken,
        next: 0,
    }
}

/// Lists the values that are added by those that may commit, in the order of their rows, after one that is none. A row's value after
/// itself counts once.
fn list_added(
    added: &mut Table<Added>,
    takers: &Table<Holding>,
    rows: &Table<usize>,
    spans: &[Span],
    ops: &[PlacedOp],
) {
    let mut last = NOT_ADDED;
    last.place = usize::MAX;
    last.next = 1;
    added.clear();
    added.add(last);
    for number in 0..ops.len() {
        let found = ops[number];
        let QueueOp::Adds(value) = found.op else {
            continue;
        };
        let is_same = (last.place == found.place) & (last.value == value);
        if !is_same && may_commit(rows, spans, found.place) {
            last = added_by(takers, rows, spans, found.place, value);
            last.next = added.len().wrapping_add(1);
            added.add(last);
        }
    }
}

/// What a row asks of the queue at one of its operations.
#[derive(Clone, Copy)]
struct Demand {
    take: TakeOf,
    number: u32,
    place: usize,
    taken: i64,
    added: i64,
}

/// What is asked where a literal holds: of the item of that number, or, if that is none, of the queue that is empty.
#[derive(Clone, Copy)]
struct Guard {
    literal: u32,
    item: u32,
}

/// Adds to the clause that one of the takers of what was added stands before the asked row, that row's own takes aside.
fn list_takers(
    clause: &mut Table<u32>,
    takers: &Table<Holding>,
    rows: &Table<usize>,
    spans: &[Span],
    asked: Demand,
    added: Added,
) {
    let mut last = asked.place;
    for number in added.takers..added.takers_end {
        let place = takers.at(number).place;
        if (place != asked.place) & (place != last) {
            last = place;
            clause.add(before(spans, rows.at(place), asked.take.row));
        }
    }
}

/// The values of the variables of all these literals may be chosen.
fn ask_all(variables: &mut Variables, literals: &[u32]) {
    for place in 0..literals.len() {
        ask(variables, literals[place]);
    }
}

/// The law that the value that another row added before is taken before: one of its takers stands before the asked row, that row's own takes
/// aside.
fn add_gone(
    queue: &mut QueueUse,
    problem: &mut Problem,
    asked: Demand,
    known: usize,
    ahead: u32,
    guard: Guard,
) {
    let added = queue.added.at(known);
    let rows = &queue.users.rows;
    let clause = &mut queue.clause;
    let spans = &problem.spans[..];
    let row = rows.at(added.place);
    let gone = GoneOf {
        take: asked.take,
        item: guard.item,
        row,
        value: added.value,
    };
    let origin = Origin::Gone(number_item(&mut problem.items.gone, gone));
    let commits = span_of(spans, row).commits;
    clause.clear();
    clause.add_all(&[neg(ahead), neg(guard.literal), neg(commits)]);
    list_takers(clause, &queue.takers, rows, spans, asked, added);
    ask_all(&mut problem.variables, clause.items());
    add_clause(&mut problem.clauses, origin, clause.items());
}

/// Whether the row takes the value from the queue. Its operations are given.
fn takes_value(ops: &[PlacedOp], value: i64) -> bool {
    for number in 0..ops.len() {
        if let QueueOp::Takes(taken) = ops[number].op {
            if taken == value {
                return true;
            }
        }
    }
    false
}

/// The next of the values after the known one, which are in the order of their rows, that not surely is taken before the stamp; or their
/// number. Those between go out of the list for all rows that follow.
fn next_added(added: &mut Table<Added>, known: usize, began: u32) -> usize {
    for _ in 0..added.len() {
        let mut before = added.at(known);
        let found = added.at(before.next);
        if before.next >= added.len() || found.taken >= began {
            return before.next;
        }
        before.next = found.next;
        added.set(known, before);
    }
    added.len()
}

/// Whether what was added at the place, and all after it, surely was added after the item of the row at the other place.
fn is_past(queue: &QueueUse, problem: &Problem, known: usize, adder: usize) -> bool {
    let spans = &problem.spans[..];
    let row = queue.users.rows.at(queue.added.at(known).place);
    let last = span_of(spans, queue.users.rows.at(adder)).last;
    (known >= queue.added.len()) | (span_of(spans, row).first > last)
}

/// The literal that what was added at the place was added before the item of the row at the other place. It never holds where that row or the asked
/// one added it, or the asked row's own operations take it.
fn added_ahead(
    queue: &QueueUse,
    problem: &Problem,
    own: &[PlacedOp],
    asked: Demand,
    known: usize,
    adder: usize,
) -> u32 {
    let added = queue.added.at(known);
    let row = queue.users.rows.at(added.place);
    let ahead = before(&problem.spans, row, queue.users.rows.at(adder));
    if (added.place == asked.place) | (added.place == adder) | (ahead == FALSE) {
        return FALSE;
    }
    if takes_value(own, added.value) {
        return FALSE;
    }
    ahead
}

/// What was added before the item of the row at that place, or before the queue is empty, is taken before.
fn add_all_gone(
    queue: &mut QueueUse,
    problem: &mut Problem,
    own: &[PlacedOp],
    asked: Demand,
    adder: usize,
    guard: Guard,
) {
    let began = span_of(&problem.spans, asked.take.row).first;
    let mut known = 0;
    for _ in 0..queue.added.len() {
        spend(&mut problem.allowance, 1);
        known = next_added(&mut queue.added, known, began);
        if is_past(queue, problem, known, adder) {
            break;
        }
        let ahead = added_ahead(queue, problem, own, asked, known, adder);
        if ahead != FALSE {
            add_gone(queue, problem, asked, known, ahead, guard);
        }
    }
}

/// Begins the list of the additions that the row may take the value from, with its own ones before.
fn find_own(found: &mut Table<Holding>, own: &[PlacedOp], asked: Demand, value: i64) {
    let mut held = NOT_HELD;
    held.value = value;
    held.place = asked.place;
    found.clear();
    for place in 0..own.len() {
        let known = own[place];
        if known.number >= asked.number {
            break;
        }
        if let QueueOp::Adds(added) = known.op {
            if added == value {
                found.add(held);
            }
            held.index = held.index.wrapping_add(1);
        }
    }
}

/// Finds the additions of others that the row may take the value from: those that may commit, and stand before it.
fn find_others(
    found: &mut Table<Holding>,
    adders: &Table<Holding>,
    rows: &Table<usize>,
    spans: &[Span],
    asked: Demand,
    value: i64,
) {
    let from = place_of(adders.items(), value, false);
    let to = place_of(adders.items(), value, true);
    for number in from..to {
        let held = adders.at(number);
        let stands = before(spans, rows.at(held.place), asked.take.row);
        if (held.place != asked.place) & (stands != FALSE) {
            if may_commit(rows, spans, held.place) {
                found.add(held);
            }
        }
    }
}

/// Finds the additions that the row may take the value from: first its own ones before, then those of others that may commit, and stand before
/// it.
fn find_items(queue: &mut QueueUse, spans: &[Span], own: &[PlacedOp], asked: Demand, value: i64) {
    let found = &mut queue.found;
    find_own(found, own, asked, value);
    find_others(found, &queue.adders, &queue.users.rows, spans, asked, value);
}

/// As many are taken before the row at the place as are added, less what is wanted, where the literal holds.
fn add_own_place(
    queue: &QueueUse,
    problem: &mut Problem,
    place: usize,
    wanted: i64,
    literal: u32,
    origin: Origin,
) {
    let wanted = wanted.wrapping_sub(queue.both.ended.at(place));
    let from = problem.sums.terms.len();
    add_all_terms(problem, &queue.users, &queue.both, place);
    end_sum(&mut problem.sums, from, literal, wanted, origin);
}

/// Adds what it asks that the addition is taken: that of another row stands before the taker, commits, and as many are taken before as were
/// added before it.
fn add_item(queue: &QueueUse, problem: &mut Problem, asked: Demand, held: Holding, guard: Guard) {
    let origin = Origin::Place(guard.item);
    let wanted = i64::from(held.index).wrapping_sub(asked.taken);
    let place = asked.place;
    let adder = held.place;
    if adder == place {
        add_own_place(queue, problem, place, wanted, guard.literal, origin);
        return;
    }
    let row = queue.users.rows.at(adder);
    let stands = before(&problem.spans, row, asked.take.row);
    let commits = span_of(&problem.spans, row).commits;
    ask(&mut problem.variables, stands);
    let denied = neg(guard.literal);
    let law = Origin::ItemStands(guard.item);
    add_clause(&mut problem.clauses, law, &[denied, stands]);
    add_clause(&mut problem.clauses, law, &[denied, commits]);
    let wanted = wanted.wrapping_sub(queue.takes.ended.at(place));
    let wanted = wanted.wrapping_sub(queue.adds.ended.at(adder));
    let from = problem.sums.terms.len();
    add_all_terms(problem, &queue.users, &queue.takes, place);
    add_terms(problem, &queue.users, &queue.adds, adder, place);
    end_sum(&mut problem.sums, from, guard.literal, wanted, origin);
}

/// Which of the additions is tried first: the first that took effect before the taker did.
fn favoured(queue: &QueueUse, spans: &[Span], row: usize) -> usize {
    let own = instant(span_of(spans, row), 15);
    for index in 0..queue.found.len() {
        let other = queue.users.rows.at(queue.found.at(index).place);
        if instant(span_of(spans, other), 15) <= own {
            return index;
        }
    }
    usize::MAX
}

/// A new item, which is that the take is of the addition, with its literal.
fn begin_item(
    queue: &QueueUse,
    problem: &mut Problem,
    take: u32,
    held: Holding,
    is_favoured: bool,
) -> Guard {
    let item = ItemOf {
        take,
        row: queue.users.rows.at(held.place),
        addition: held.index,
        sum: short(problem.sums.sums.len()),
    };
    let item = number_item(&mut problem.items.items, item);
    let literal = add_variable(&mut problem.variables, Role::Item(item), is_favoured, true);
    Guard { literal, item }
}

/// Adds that a take is of one of the additions that were found, each of which has a literal, and what each of them asks.
fn add_take(queue: &mut QueueUse, problem: &mut Problem, own: &[PlacedOp], asked: Demand) {
    let best = favoured(queue, &problem.spans, asked.take.row);
    let take = number_item(&mut problem.items.takes, asked.take);
    queue.choices.clear();
    for index in 0..queue.found.len() {
        let held = queue.found.at(index);
        let guard = begin_item(queue, problem, take, held, index == best);
        queue.choices.add(guard.literal);
        add_item(queue, problem, asked, held, guard);
        add_all_gone(queue, problem, own, asked, held.place, guard);
    }
    let origin = Origin::Items(take);
    add_clause(&mut problem.clauses, origin, queue.choices.items());
}

/// Adds what it asks that the queue is seen empty.
fn add_empty(queue: &mut QueueUse, problem: &mut Problem, own: &[PlacedOp], asked: Demand) {
    let place = asked.place;
    let wanted = asked.added.wrapping_sub(asked.taken);
    let origin = Origin::Empty(short(asked.take.row), asked.take.object, asked.number);
    add_own_place(queue, problem, place, wanted, TRUE, origin);
    let guard = Guard {
        literal: TRUE,
        item: NONE,
    };
    add_all_gone(queue, problem, own, asked, place, guard);
}

/// What the operation asks, before which its row took and added so many. A take goes by the number of takes before it.
fn demand_of(queue: &QueueUse, found: PlacedOp, taken: i64, added: i64) -> Demand {
    let mut number = (taken & 0xffff_ffff) as u32;
    if matches!(found.op, QueueOp::SeesEmpty) {
        number = found.number;
    }
    Demand {
        take: TakeOf {
            row: queue.users.rows.at(found.place),
            object: queue.object,
            number,
        },
        number: found.number,
        place: found.place,
        taken,
        added,
    }
}

/// Adds what the operations of one row ask.
fn add_row(queue: &mut QueueUse, problem: &mut Problem, own: &[PlacedOp]) {
    let mut taken: i64 = 0;
    let mut added: i64 = 0;
    for number in 0..own.len() {
        if is_large(problem) {
            break;
        }
        let found = own[number];
        let asked = demand_of(queue, found, taken, added);
        match found.op {
            QueueOp::Adds(_) => added = added.wrapping_add(1),
            QueueOp::Takes(value) => {
                spend(&mut problem.allowance, own.len());
                find_items(queue, &problem.spans, own, asked, value);
                add_take(queue, problem, own, asked);
                taken = taken.wrapping_add(1);
            }
            QueueOp::SeesEmpty => add_empty(queue, problem, own, asked),
        }
    }
}

/// Reads how many each row takes and adds.
fn read_counts(queue: &mut QueueUse, spans: &[Span], ops: &[PlacedOp]) {
    let (takes, adds) = (&mut queue.takes.own, &mut queue.adds.own);
    count_ops(takes, adds, &queue.users.rows, spans, ops);
    add_counts(&mut queue.both.own, takes, adds);
}

/// Reads who adds and who takes what.
fn read_holdings(queue: &mut QueueUse, spans: &[Span], ops: &[PlacedOp]) {
    let (rows, takers) = (&queue.users.rows, &mut queue.takers);
    list_holdings(&mut queue.adders, takers, rows, spans, ops);
    list_added(&mut queue.added, takers, rows, spans, ops);
}

/// Finds which of the rows ran beside which, and adds up what those take and add that had ended before each one.
fn read_ended(queue: &mut QueueUse, spans: &[Span]) {
    let users = &mut queue.users;
    find_users(users, spans);
    sum_ended(&mut queue.takes, users, spans);
    sum_ended(&mut queue.adds, users, spans);
    sum_ended(&mut queue.both, users, spans);
}

/// Adds what all operations ask, which are in the order of the rows and of their blocks.
fn add_rows(queue: &mut QueueUse, problem: &mut Problem, ops: &[PlacedOp]) {
    let mut from = 0;
    for place in 0..ops.len() {
        let next = place.wrapping_add(1);
        if (next == ops.len()) | (at(ops, next, NO_OP).place != ops[place].place) {
            add_row(queue, problem, range(ops, from, next));
            from = next;
        }
    }
}

/// Adds a queue, whose rows are read: their operations, in the order of the rows and of their blocks.
pub(crate) fn add_queue(problem: &mut Problem, queue: &mut QueueUse, ops: &[PlacedOp]) {
    read_counts(queue, &problem.spans, ops);
    read_holdings(queue, &problem.spans, ops);
    read_ended(queue, &problem.spans);
    add_rows(queue, problem, ops);
}
