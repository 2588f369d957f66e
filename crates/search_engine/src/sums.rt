//! Sums: of those that stand before one, each changes a count, and what that sees is the sum.

use crate::encoding::{Origin, ask};
use crate::literals::{FALSE, NONE, TRUE, Table, at, short};
use crate::problem::Problem;
use crate::spans::{Span, before, span_of};
use std::alloc::Global;

/// What is added if both literals hold.
#[derive(Clone, Copy)]
pub(crate) struct Term {
    pub gain: i64,
    pub literals: [u32; 2],
    pub sum: u32,
    /// How many of the literals are known to hold, and to fail.
    pub holding: u8,
    pub failing: u8,
}

/// If the guard holds, the terms sum up to what is wanted.
#[derive(Clone, Copy)]
pub(crate) struct Sum {
    pub origin: Origin,
    pub guard: u32,
    pub from: usize,
    pub to: usize,
    pub wanted: i64,
}

/// How far the least that the sum can be, by what is known, is below what is wanted, and the greatest above it; below 0 where it cannot be.
#[derive(Clone, Copy)]
pub(crate) struct Slack {
    pub below: i64,
    pub above: i64,
    /// The most that one term changes.
    pub most: i64,
    /// Whether the sum waits to be looked at.
    pub waits: bool,
}

const NO_SLACK: Slack = Slack {
    below: 0,
    above: 0,
    most: 0,
    waits: false,
};

const NO_TERM: Term = Term {
    gain: 0,
    literals: [FALSE, FALSE],
    sum: NONE,
    holding: 0,
    failing: 0,
};

const NO_SUM: Sum = Sum {
    origin: Origin::Tried,
    guard: FALSE,
    from: 0,
    to: 0,
    wanted: 0,
};

/// The sums with their terms.
#[derive(Drop)]
pub(crate) struct Sums {
    pub sums: Table<Sum>,
    pub slacks: Table<Slack>,
    pub terms: Table<Term>,
    /// The terms of each variable, as twice their number, and one more where it is the opposite; and where those of each begin.
    pub occurrences: Table<u32>,
    pub starts: Table<u32>,
    /// The sums that wait.
    pub waiting: Table<u32>,
}

impl Sums {
    /// No sums. It does not allocate.
    pub(crate) fn empty(alloc: Global) -> Sums {
        Sums {
            sums: Table::new(alloc, NO_SUM),
            slacks: Table::new(alloc, NO_SLACK),
            terms: Table::new(alloc, NO_TERM),
            occurrences: Table::new(alloc, 0),
            starts: Table::new(alloc, 0),
            waiting: Table::new(alloc, 0),
        }
    }

    /// Whether some growth was refused.
    pub(crate) fn is_short(&self) -> bool {
        self.sums.is_short()
            | self.slacks.is_short()
            | self.terms.is_short()
            | self.occurrences.is_short()
            | self.starts.is_short()
            | self.waiting.is_short()
    }
}

/// For the rows that touch one object, in their order: which of them ran beside each one, and after which each one had ended.
#[derive(Drop)]
struct Concurrent {
    starts: Table<usize>,
    others: Table<usize>,
    /// The first of the rows that began after it ended.
    ended: Table<usize>,
    active: Table<usize>,
}

impl Concurrent {
    /// Of no rows. It does not allocate.
    fn empty(alloc: Global) -> Concurrent {
        Concurrent {
            starts: Table::new(alloc, 0),
            others: Table::new(alloc, 0),
            ended: Table::new(alloc, 0),
            active: Table::new(alloc, 0),
        }
    }

    /// Whether some growth was refused.
    fn is_short(&self) -> bool {
        self.starts.is_short()
            | self.others.is_short()
            | self.ended.is_short()
            | self.active.is_short()
    }

    /// Those that ran beside the row of that place.
    fn others_of(&self, place: usize) -> &[usize] {
        let from = self.starts.at(place);
        self.others
            .range(from, self.starts.at(place.wrapping_add(1)))
    }
}

/// The rows that touch one object, in their order, and which of them ran beside which.
#[derive(Drop)]
pub(crate) struct Users {
    pub rows: Table<usize>,
    concurrent: Concurrent,
}

impl Users {
    /// No rows. It does not allocate.
    pub(crate) fn empty(alloc: Global) -> Users {
        Users {
            rows: Table::new(alloc, 0),
            concurrent: Concurrent::empty(alloc),
        }
    }

    /// Whether some growth was refused.
    pub(crate) fn is_short(&self) -> bool {
        self.rows.is_short() | self.concurrent.is_short()
    }
}

/// By how much each of the rows that touch one object changes a count, and by how much those do together that had ended before each one and commit.
#[derive(Drop)]
pub(crate) struct Gains {
    pub own: Table<i64>,
    pub ended: Table<i64>,
}

impl Gains {
    /// Of no rows. It does not allocate.
    pub(crate) fn empty(alloc: Global) -> Gains {
        Gains {
            own: Table::new(alloc, 0),
            ended: Table::new(alloc, 0),
        }
    }

    /// Whether some growth was refused.
    pub(crate) fn is_short(&self) -> bool {
        self.own.is_short() | self.ended.is_short()
    }
}

/// Finds which of the rows ran beside the one at the place. Those stay active that had not ended before it began; of the others it is noted
/// that they had.
fn find_others(concurrent: &mut Concurrent, spans: &[Span], rows: &[usize], place: usize) {
    let span = span_of(spans, at(rows, place, 0));
    let mut kept: usize = 0;
    for index in 0..concurrent.active.len() {
        let other = concurrent.active.at(index);
        if span_of(spans, at(rows, other, 0)).last < span.first {
            concurrent.ended.set(other, place);
        } else {
            concurrent.active.set(kept, other);
            kept = kept.wrapping_add(1);
        }
    }
    concurrent.active.truncate(kept);
    concurrent.starts.add(concurrent.others.len());
    concurrent.others.add_all(concurrent.active.items());
    for later in place.wrapping_add(1)..rows.len() {
        if rows[later] >= span.end {
            break;
        }
        concurrent.others.add(later);
    }
    concurrent.active.add(place);
}

/// Finds which of the rows ran beside which.
fn find_concurrent(concurrent: &mut Concurrent, spans: &[Span], rows: &[usize]) {
    concurrent.starts.clear();
    concurrent.others.clear();
    concurrent.ended.clear();
    concurrent.active.clear();
    for _ in 0..rows.len() {
        concurrent.ended.add(rows.len());
    }
    for place in 0..rows.len() {
        find_others(concurrent, spans, rows, place);
    }
    concurrent.starts.add(concurrent.others.len());
}

/// Finds which of the rows ran beside which.
pub(crate) fn find_users(users: &mut Users, spans: &[Span]) {
    find_concurrent(&mut users.concurrent, spans, users.rows.items());
}

/// Adds up what those gain together that had ended before each of the rows began, and commit.
pub(crate) fn sum_ended(gains: &mut Gains, users: &Users, spans: &[Span]) {
    let (own, sums) = (&gains.own, &mut gains.ended);
    sums.clear();
    sums.fill(users.rows.len().wrapping_add(1));
    for place in 0..users.rows.len() {
        if span_of(spans, users.rows.at(place)).commits == TRUE {
            let first = users.concurrent.ended.at(place);
            sums.set(first, sums.at(first).wrapping_add(own.at(place)));
        }
    }
    let mut sum: i64 = 0;
    for place in 0..sums.len() {
        sum = sum.wrapping_add(sums.at(place));
        sums.set(place, sum);
    }
}

/// Adds the term to the sum that is being made that the row gains so much where it stands before the other and commits, if it can.
fn add_term(problem: &mut Problem, row: usize, other: usize, gain: i64) {
    let commits = span_of(&problem.spans, row).commits;
    let stands = before(&problem.spans, row, other);
    if (gain == 0) | (commits == FALSE) | (stands == FALSE) {
        return;
    }
    ask(&mut problem.variables, stands);
    let sums = &mut problem.sums;
    let sum = short(sums.sums.len());
    sums.terms.add(Term {
        gain,
        literals: [stands, commits],
        sum,
        holding: u8::from(stands == TRUE).wrapping_add(u8::from(commits == TRUE)),
        failing: 0,
    });
}

/// Adds the terms of those that ran beside the row of that place, but for the one that is skipped, to the sum that is being made: each
/// stands before the row, and commits.
pub(crate) fn add_terms(
    problem: &mut Problem,
    users: &Users,
    gains: &Gains,
    place: usize,
    skipped: usize,
) {
    let row = users.rows.at(place);
    let others = users.concurrent.others_of(place);
    for index in 0..others.len() {
        let other = others[index];
        if other != skipped {
            add_term(problem, users.rows.at(other), row, gains.own.at(other));
        }
    }
}

/// Adds the terms of all that ran beside the row of that place.
pub(crate) fn add_all_terms(problem: &mut Problem, users: &Users, gains: &Gains, place: usize) {
    add_terms(problem, users, gains, place, usize::MAX);
}

/// The greatest sum of amounts that is counted here. The trial of an order still asks for the others.
const GREATEST: i64 = 1_099_511_627_776;

/// More steps than Euclid's algorithm takes of two i64s.
const STEPS: usize = 100;

/// The greatest number that divides both, of two that are not negative.
fn common(one: i64, other: i64) -> i64 {
    let (mut whole, mut part) = (one, other);
    for _ in 0..STEPS {
        let Some(rest) = whole.checked_rem(part) else {
            break;
        };
        whole = part;
        part = rest;
    }
    whole
}

/// What the terms of a sum can add up to at least, at most, and by one of them.
#[derive(Clone, Copy)]
struct Reach {
    low: i64,
    high: i64,
    most: i64,
}

/// The origin and what is wanted of a sum of the terms from the place on; where they leave another remainder, a sum that is out of reach.
fn remainder_or_sum(
    terms: &Table<Term>,
    from: usize,
    origin: Origin,
    wanted: i64,
    high: i64,
) -> (Origin, i64) {
    let Origin::Counter(row, object) = origin else {
        return (origin, wanted);
    };
    let mut modulus: i64 = 0;
    for place in from..terms.len() {
        modulus = common(terms.at(place).gain.saturating_abs(), modulus);
    }
    match wanted.checked_rem(modulus) {
        Some(0) | None => (origin, wanted),
        Some(_) => (
            Origin::Remainder(row, object, modulus),
            high.saturating_add(1),
        ),
    }
}

/// What the terms from the place on can add up to.
fn reach_of(terms: &Table<Term>, from: usize) -> Reach {
    let mut low: i64 = 0;
    let mut high: i64 = 0;
    let mut most: i64 = 1;
    for place in from..terms.len() {
        let gain = terms.at(place).gain;
        most = most.max(gain.saturating_abs());
        high = high.saturating_add(gain.max(0));
        low = low.saturating_add(gain.min(0));
    }
    Reach { low, high, most }
}

/// Ends the sum of the terms from the place on. Where it cannot be reached, the slack says so.
pub(crate) fn end_sum(sums: &mut Sums, from: usize, guard: u32, wanted: i64, origin: Origin) {
    let terms = &mut sums.terms;
    let reach = reach_of(terms, from);
    if (reach.high > GREATEST) | (reach.low < -GREATEST) | (wanted == i64::MAX) {
        terms.truncate(from);
        return;
    }
    let (origin, wanted) = remainder_or_sum(terms, from, origin, wanted, reach.high);
    let to = terms.len();
    let wanted = wanted.max(-4 * GREATEST).min(4 * GREATEST);
    sums.waiting.add(short(sums.sums.len()));
    sums.slacks.add(Slack {
        below: wanted.saturating_sub(reach.low),
        above: reach.high.saturating_sub(wanted),
        most: reach.most,
        waits: true,
    });
    sums.sums.add(Sum {
        origin,
        guard,
        from,
        to,
        wanted,
    });
}
