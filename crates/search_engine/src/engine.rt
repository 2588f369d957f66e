//! The engine.

use crate::closure::Closure;
use crate::counting::find_order;
use crate::encoding::Role;
use crate::heap::Heap;
use crate::known::Known;
use crate::literals::{NONE, Table, at, neg, push, short};
use crate::orders::{NO_DECISION, Trial, block, first_bad, order_rows};
use crate::problem::{Allowance, Problem, unless_short};
use crate::reading::{Encoded, read};
use crate::refuted::refutation_of;
use crate::solver::{
    Course, Found, Learning, Solver, backjump, begin, bytes_held, check_room, is_over, prepare,
    search,
};
use crate::spans::{Span, instant, span_of};
use aud_event::{ObjKind, OutOfMemory};
use aud_order::Shape;
use aud_witness::Decision;
use judge_clauses::{Reason, Refutation, Step};
use judge_laws::{CellLaw, ObjectLaw, SumLaw};
use search_model::Cell;
use std::alloc::Global;

/// What the engine came to: an order that it tried, steps that refute the history, or nothing within its effort.
#[derive(Drop)]
pub enum Solved {
    Order(Vec<Decision>),
    Refuted(Refutation<ObjectLaw>),
    Unknown,
}

/// How far the engine goes: it ends with any of these. A unit of work is a look at a clause or a term, and the bytes are those that it
/// holds.
#[derive(Clone, Copy)]
pub struct Effort {
    pub conflicts: u64,
    pub work: u64,
    pub bytes: usize,
}

/// An order by an instant, near which orders are sought: after how many twentieths of its time each transaction took effect, how many
/// places one may stand away, and whether there may be such orders.
#[derive(Clone, Copy)]
struct Near {
    twentieths: u64,
    reach: usize,
    is_open: bool,
}

/// Orders near the instants after so many twentieths of each time, by up to so many places; there may be such.
fn nearby(twentieths: u64, reach: usize) -> Near {
    Near {
        twentieths,
        reach,
        is_open: true,
    }
}

/// How many units of conflicts the restarts of a search are given: 1, 1, 2, 1, 1, 2, 4 and so on (Luby, Sinclair and Zuckerman, Optimal
/// speedup of Las Vegas algorithms, 1993; by Knuth's two counters).
#[derive(Clone, Copy)]
struct Luby {
    index: u64,
    share: u64,
}

/// A row by when it takes effect.
#[derive(Clone, Copy, PartialEq, Eq, PartialOrd, Ord)]
pub(crate) struct Ranked {
    key: u64,
    row: usize,
}

const NOT_RANKED: Ranked = Ranked { key: 0, row: 0 };

/// The rows in the order of an instant, and the rank of each.
#[derive(Drop)]
pub(crate) struct Ranking {
    ranked: Table<Ranked>,
    ranks: Table<usize>,
}

impl Ranking {
    /// Of no rows yet. It does not allocate.
    pub(crate) fn empty(alloc: Global) -> Ranking {
        Ranking {
            ranked: Table::new(alloc, NOT_RANKED),
            ranks: Table::new(alloc, 0),
        }
    }

    /// Whether some growth was refused.
    pub(crate) fn is_short(&self) -> bool {
        self.ranked.is_short() | self.ranks.is_short()
    }
}

/// Sorts the rows by their instants.
fn sort_rows(ranked: &mut Table<Ranked>, spans: &[Span], twentieths: u64) {
    ranked.clear();
    for row in 0..spans.len() {
        let key = instant(span_of(spans, row), twentieths);
        ranked.add(Ranked { key, row });
    }
    ranked.items_mut().sort_unstable();
}

/// Notes the rank of each row.
fn note_ranks(ranks: &mut Table<usize>, ranked: &Table<Ranked>) {
    ranks.fill(ranked.len());
    for rank in 0..ranked.len() {
        ranks.set(ranked.at(rank).row, rank);
    }
}

/// Ranks the rows in the order of their instants.
fn rank_rows(ranking: &mut Ranking, spans: &[Span], twentieths: u64) {
    sort_rows(&mut ranking.ranked, spans, twentieths);
    note_ranks(&mut ranking.ranks, &ranking.ranked);
}

/// Whether both rows ended.
fn have_ended(spans: &[Span], row: usize, other: usize) -> bool {
    (span_of(spans, row).last != NONE) & (span_of(spans, other).last != NONE)
}

/// Assumes that pairs of those that ended stand as in the order of the ranks, if they stand so far apart in it.
fn assume_near(assumed: &mut Table<u32>, problem: &Problem, ranks: &Table<usize>, reach: usize) {
    for variable in 1..problem.variables.roles.len() {
        let Role::Precedence(row, other) = problem.variables.roles.at(variable) else {
            continue;
        };
        let (row, other) = (row as usize, other as usize);
        let one = ranks.at(row);
        let two = ranks.at(other);
        let is_asked = problem.variables.choices.at(variable);
        if is_asked & (one.abs_diff(two) > reach) & have_ended(&problem.spans, row, other) {
            let literal = short(variable).wrapping_mul(2);
            assumed.add(if one < two { literal } else { neg(literal) });
        }
    }
}

/// The next of the instants that may have orders near it, from that one on.
fn next_near(nears: &[Near], turn: usize) -> Option<usize> {
    for step in 0..nears.len() {
        let place = turn.wrapping_add(1).wrapping_add(step) % 4;
        if at(nears, place, nearby(0, 0)).is_open {
            return Some(place);
        }
    }
    None
}

/// There is no order so near that instant, if near one: the next ones may be further away.
fn widen(nears: &mut [Near], near: Option<usize>, count: usize) {
    let Some(place) = near else {
        return;
    };
    if let Some(found) = nears.get_mut(place) {
        found.reach = (found.reach.saturating_mul(4) / 3).saturating_add(1);
        if found.reach > count / 2 {
            found.is_open = false;
        }
    }
}

/// The restarts of a search: plain ones, whose lengths are in units of so many conflicts, and ones near the orders of instants by turns.
#[derive(Clone, Copy)]
struct Schedule {
    nears: [Near; 4],
    turn: usize,
    luby: Luby,
    unit: u64,
    restart: u64,
    /// How many beams were tried, and the work that they did.
    beams: usize,
    beam_work: u64,
}

/// The restarts for so many rows, from the first one on.
fn schedule_for(rows: usize) -> Schedule {
    Schedule {
        nears: [
            nearby(19, 6),
            nearby(10, 12),
            nearby(19, 10),
            nearby(15, 12),
        ],
        turn: 0,
        luby: Luby { index: 1, share: 1 },
        unit: (rows as u64 / 8).max(100),
        restart: 0,
        beams: 0,
        beam_work: 0,
    }
}

/// The share of the next restart.
fn next_share(luby: &mut Luby) -> u64 {
    let share = luby.share;
    if luby.index & luby.index.wrapping_neg() == share {
        luby.index = luby.index.wrapping_add(1);
        luby.share = 1;
    } else {
        luby.share = share.wrapping_mul(2);
    }
    share
}

/// Assumes pairs as in the order of the instant, if they stand far apart in it.
fn assume_instant(assumed: &mut Table<u32>, ranking: &mut Ranking, problem: &Problem, found: Near) {
    rank_rows(ranking, &problem.spans, found.twentieths);
    assume_near(assumed, problem, &ranking.ranks, found.reach);
}

/// Assumes what the next restart does, and gives how many conflicts it may take, and the instant that it is near, if it is near one.
fn begin_restart(
    schedule: &mut Schedule,
    solver: &mut Solver<'_>,
    ranking: &mut Ranking,
) -> (u64, Option<usize>) {
    let restart = schedule.restart;
    let share = next_share(&mut schedule.luby);
    schedule.restart = restart.wrapping_add(1);
    solver.course.tries_best = restart % 2 == 0;
    solver.course.assumed.clear();
    let plain = (share.saturating_mul(schedule.unit), None);
    if restart < 6 || restart % 2 == 1 {
        return plain;
    }
    let Some(place) = next_near(&schedule.nears, schedule.turn) else {
        return plain;
    };
    schedule.turn = place;
    backjump(solver, 0);
    let assumed = &mut solver.course.assumed;
    assume_instant(assumed, ranking, solver.problem, schedule.nears[place % 4]);
    (restart.saturating_mul(100).saturating_add(300), Some(place))
}

/// Whether it is time for the next beam: the rows only count, and the other search did as much as all beams before.
fn is_beam_due(solver: &Solver<'_>, schedule: &Schedule) -> bool {
    solver.problem.counting.is_all
        && schedule.restart >= 6
        && schedule.beam_work.saturating_mul(2) <= solver.known.work
}

/// Searches for an order by the next beam. Whether it finds a good one.
fn try_beam(
    alloc: Global,
    shape: &Shape,
    solver: &mut Solver<'_>,
    trial: &mut Trial,
    schedule: &mut Schedule,
    effort: Effort,
) -> Result<bool, OutOfMemory> {
    let (number, done) = (schedule.beams, solver.known.work);
    schedule.beams = number.saturating_add(1);
    let most = effort.work.saturating_sub(done);
    let bytes = effort.bytes.saturating_sub(bytes_held(solver)) / 2;
    let order = &mut trial.order;
    let (is_found, work) = find_order(alloc, solver.problem, order, number, most, bytes)?;
    schedule.beam_work = schedule.beam_work.saturating_add(work);
    solver.known.work = done.saturating_add(work);
    if !is_found {
        return Ok(false);
    }
    unless_short(trial.is_short())?;
    Ok(first_bad(alloc, shape, trial.order.items())?.is_none())
}

/// How a search ended.
#[derive(Clone, Copy)]
enum Ended {
    /// By an order, which is the solver's.
    Order,
    NoOrder,
    /// As its effort was spent.
    Spent,
}

/// Tries the order that the search found. If the trial refutes it, the search goes on without it, if it can: then it has not ended.
fn try_found(
    alloc: Global,
    shape: &Shape,
    solver: &mut Solver<'_>,
    trial: &mut Trial,
) -> Result<Option<Ended>, OutOfMemory> {
    order_rows(solver, trial);
    let Some(place) = first_bad(alloc, shape, trial.order.items())? else {
        return Ok(Some(Ended::Order));
    };
    if block(solver, trial, place) {
        Ok(None)
    } else {
        Ok(Some(Ended::NoOrder))
    }
}

/// What the restart came to. None where the search goes on.
fn end_restart(
    alloc: Global,
    shape: &Shape,
    solver: &mut Solver<'_>,
    trial: &mut Trial,
    effort: Effort,
    found: Found,
) -> Result<Option<Ended>, OutOfMemory> {
    match found {
        Found::NoOrder => Ok(Some(Ended::NoOrder)),
        Found::All => try_found(alloc, shape, solver, trial),
        Found::Spent if is_over(solver, effort) => Ok(Some(Ended::Spent)),
        Found::Spent | Found::NotAssumed => Ok(None),
    }
}

/// Makes the next restart, after a beam, if it is time for one. None where the search goes on.
fn restart(
    alloc: Global,
    shape: &Shape,
    solver: &mut Solver<'_>,
    trial: &mut Trial,
    schedule: &mut Schedule,
    effort: Effort,
) -> Result<Option<Ended>, OutOfMemory> {
    if is_beam_due(solver, schedule) && try_beam(alloc, shape, solver, trial, schedule, effort)? {
        return Ok(Some(Ended::Order));
    }
    let (budget, near) = begin_restart(schedule, solver, &mut trial.ranking);
    let most = solver.course.conflicts.saturating_add(budget);
    let limits = Effort {
        conflicts: most.min(effort.conflicts),
        work: effort.work,
        bytes: effort.bytes,
    };
    let found = search(solver, limits);
    if found == Found::NotAssumed {
        widen(&mut schedule.nears, near, solver.problem.spans.len());
    }
    let ended = end_restart(alloc, shape, solver, trial, effort, found)?;
    check_room(solver)?;
    unless_short(trial.is_short())?;
    Ok(ended)
}

/// Searches by restarts, plainly and near the orders of instants by turns.
fn search_by_restarts(
    alloc: Global,
    shape: &Shape,
    solver: &mut Solver<'_>,
    trial: &mut Trial,
    effort: Effort,
) -> Result<Ended, OutOfMemory> {
    let mut schedule = schedule_for(solver.problem.spans.len());
    for _ in 0..u64::MAX {
        let ended = restart(alloc, shape, solver, trial, &mut schedule, effort)?;
        if let Some(ended) = ended {
            return Ok(ended);
        }
    }
    Ok(Ended::Spent)
}

/// The refutation that the search wrote down. None where it wrote nothing down.
fn refuted(alloc: Global, solver: &Solver<'_>) -> Result<Option<Solved>, OutOfMemory> {
    let log = &solver.learning.log;
    let (steps, last) = (&log.steps, log.last);
    if last == NONE {
        return Ok(None);
    }
    match refutation_of(alloc, solver.problem, steps, last)? {
        Some(refutation) => Ok(Some(Solved::Refuted(refutation))),
        None => Ok(Some(Solved::Unknown)),
    }
}

/// The law that the transaction breaks which contradicts itself on the cell.
fn law_of_clash(shape: &Shape, tx: u32, object: u16, cell: Cell) -> ObjectLaw {
    match shape.plan().object(usize::from(object)) {
        Some(decl) if decl.kind == ObjKind::Counter => ObjectLaw::Sum(SumLaw::Clash(tx, object)),
        _ => ObjectLaw::Cell(CellLaw::Clash(tx, object, cell)),
    }
}

/// The refutation of a history by one law.
fn refuted_by(alloc: Global, law: ObjectLaw) -> Result<Solved, OutOfMemory> {
    let mut steps = Vec::new(alloc);
    push(&mut steps, Step::new(Vec::new(alloc), Reason::Law(law)))?;
    let atoms = Vec::new(alloc);
    Ok(Solved::Refuted(Refutation { atoms, steps }))
}

/// Follows what holds in any case, and searches on from there.
fn search_on(
    alloc: Global,
    shape: &Shape,
    solver: &mut Solver<'_>,
    trial: &mut Trial,
    effort: Effort,
) -> Result<Ended, OutOfMemory> {
    check_room(solver)?;
    let is_open = begin(solver);
    check_room(solver)?;
    if !is_open {
        return Ok(Ended::NoOrder);
    }
    search_by_restarts(alloc, shape, solver, trial, effort)
}

/// Takes the order that was tried.
fn take_order(alloc: Global, trial: &mut Trial) -> Vec<Decision> {
    let empty = Table::new(alloc, NO_DECISION);
    std::mem::replace(&mut trial.order, empty).into_items()
}

/// What a search comes to. None where there is no order, and nothing was written down of that.
fn solve_by(
    alloc: Global,
    shape: &Shape,
    solver: &mut Solver<'_>,
    trial: &mut Trial,
    effort: Effort,
) -> Result<Option<Solved>, OutOfMemory> {
    match search_on(alloc, shape, solver, trial, effort)? {
        Ended::Spent => Ok(Some(Solved::Unknown)),
        Ended::NoOrder => refuted(alloc, solver),
        Ended::Order => Ok(Some(Solved::Order(take_order(alloc, trial)))),
    }
}

/// Makes what a search works with, and searches. The parts are made by three functions, since one that drops many tables is dear to prove.
fn search_with(
    alloc: Global,
    shape: &Shape,
    problem: &mut Problem,
    learning: &mut Learning,
    effort: Effort,
) -> Result<Option<Solved>, OutOfMemory> {
    let mut known = Known::empty(alloc);
    let mut closure = Closure::empty(alloc);
    let mut heap = Heap::empty(alloc);
    let mut trial = Trial::empty(alloc);
    let mut course = Course::empty(alloc);
    prepare(problem, &mut known, &mut closure, &mut heap, learning);
    let mut solver = Solver {
        problem,
        known: &mut known,
        closure: &mut closure,
        heap: &mut heap,
        learning,
        course: &mut course,
    };
    solve_by(alloc, shape, &mut solver, &mut trial, effort)
}

/// Reads what the history asks, and searches for an order of it. None where there is no order, and nothing was written down of that.
fn read_and_search(
    alloc: Global,
    shape: &Shape,
    problem: &mut Problem,
    effort: Effort,
    logs: bool,
) -> Result<Option<Solved>, OutOfMemory> {
    match read(alloc, shape, problem)? {
        Encoded::Whole => {
            let mut learning = Learning::empty(alloc, logs);
            search_with(alloc, shape, problem, &mut learning, effort)
        }
        Encoded::Large => Ok(Some(Solved::Unknown)),
        Encoded::Clash(tx, object, cell) => {
            let law = law_of_clash(shape, tx, object, cell);
            Ok(Some(refuted_by(alloc, law)?))
        }
    }
}

/// Searches once, and writes its steps down, if that is asked for.
fn search_once(
    alloc: Global,
    shape: &Shape,
    effort: Effort,
    logs: bool,
) -> Result<Option<Solved>, OutOfMemory> {
    let allowance = Allowance {
        work: 0,
        most: effort.work,
        bytes: effort.bytes,
    };
    let mut problem = Problem::empty(alloc, allowance);
    read_and_search(alloc, shape, &mut problem, effort, logs)
}

/// Searches for an order that shows the history, or for steps that refute it, within the effort. The order is tried; whoever needs it
/// proved tries it again. Where the steps were not written down, the same search is made again.
pub fn solve(alloc: Global, shape: &Shape, effort: Effort) -> Result<Solved, OutOfMemory> {
    if let Some(answer) = search_once(alloc, shape, effort, false)? {
        return Ok(answer);
    }
    match search_once(alloc, shape, effort, true)? {
        Some(answer) => Ok(answer),
        None => Ok(Solved::Unknown),
    }
}
