//! The search for values of all variables.

use crate::analysis::{Analysis, count_levels, learn, make_marks, read_conflict};
use crate::betweens::{check_commits, propagate_pair, propagate_source};
use crate::bounds::{clear_waiting, count_terms, propagate_waiting, wake_guarded};
use crate::closure::{Closure, close, close_spans, reopen};
use crate::encoding::{Clauses, LITERALS, Role, Variables, append};
use crate::engine::Effort;
use crate::explanation::{View, pair_of};
use crate::heap::{Heap, heaviest, insert, make_heap, take_heaviest};
use crate::known::{Antecedent, Conflict, Known, assign, make_room};
use crate::literals::{NONE, TRUE, Table, at, neg, short, var};
use crate::log::{Log, bytes_logged, log_conflict, log_learned, make_log};
use crate::problem::{Problem, bytes_of, unless_short};
use crate::reduce::reduce;
use crate::spans::{Span, instant, span_of};
use crate::sums::Sums;
use crate::watches::{follow_clauses, watch_all, watch_both};
use aud_event::OutOfMemory;
use std::alloc::Global;

/// After so many conflicts the worse half of the learned clauses goes.
const REDUCE_EVERY: u64 = 3000;

/// So many levels are too far to go back at once.
const FAR: u32 = 30;

/// A learned clause that forces its first literal from a lower level on than the one to which the search went back.
#[derive(Clone, Copy)]
struct Late {
    clause: u32,
    level: u32,
}

const NOT_LATE: Late = Late {
    clause: NONE,
    level: 0,
};

/// The course of a search.
#[derive(Drop)]
pub(crate) struct Course {
    /// The phases of the longest trail that was seen, its length, how many of its first literals still hold, and whether its phases are tried.
    best: Table<bool>,
    best_count: usize,
    best_kept: usize,
    pub tries_best: bool,
    late: Table<Late>,
    /// Literals that are taken to hold for a while.
    pub assumed: Table<u32>,
    /// How many conflicts it met, and after how many it looks through what it learned.
    pub conflicts: u64,
    reduce_at: u64,
    /// How many values were chosen, and how many before the last conflict.
    choices: u64,
    at_conflict: u64,
    /// How many levels it goes back, where more would be far.
    stride: u32,
}

impl Course {
    /// Of a search that begins. It does not allocate.
    pub(crate) fn empty(alloc: Global) -> Course {
        Course {
            best: Table::new(alloc, false),
            best_count: 0,
            best_kept: 0,
            tries_best: false,
            late: Table::new(alloc, NOT_LATE),
            assumed: Table::new(alloc, TRUE),
            conflicts: 0,
            reduce_at: REDUCE_EVERY,
            choices: 0,
            at_conflict: 0,
            stride: 1,
        }
    }

    /// Whether some growth was refused.
    fn is_short(&self) -> bool {
        self.best.is_short() | self.late.is_short() | self.assumed.is_short()
    }

    /// Whether something is taken to hold for a while.
    fn has_assumed(&self) -> bool {
        !self.assumed.is_empty()
    }
}

/// What is learned from conflicts, and what is written down of that.
#[derive(Drop)]
pub(crate) struct Learning {
    analysis: Analysis,
    pub log: Log,
}

impl Learning {
    /// Of no conflict yet. Steps are written down where it says so. It does not allocate.
    pub(crate) fn empty(alloc: Global, logs: bool) -> Learning {
        Learning {
            analysis: Analysis::empty(alloc),
            log: Log::empty(alloc, logs),
        }
    }

    /// Whether some growth was refused.
    fn is_short(&self) -> bool {
        self.analysis.is_short() | self.log.is_short()
    }
}

/// A search, as far as it is: what is asked, what is known, and what it works with.
#[derive(Drop)]
pub(crate) struct Solver<'a> {
    pub problem: &'a mut Problem,
    pub known: &'a mut Known,
    pub closure: &'a mut Closure,
    pub heap: &'a mut Heap,
    pub learning: &'a mut Learning,
    pub course: &'a mut Course,
}

/// What a search came to.
#[derive(Clone, Copy, PartialEq, Eq)]
pub(crate) enum Found {
    /// All values are chosen.
    All,
    /// There is no order.
    NoOrder,
    /// Nothing yet.
    Spent,
    /// Not all that was assumed holds.
    NotAssumed,
}

/// Whether some growth was refused since the search began.
fn is_short(solver: &Solver<'_>) -> bool {
    solver.problem.is_short()
        | solver.known.is_short()
        | solver.closure.is_short()
        | solver.heap.is_short()
        | solver.learning.is_short()
        | solver.course.is_short()
}

/// Want of memory, where some growth was refused since the search began.
pub(crate) fn check_room(solver: &Solver<'_>) -> Result<(), OutOfMemory> {
    unless_short(is_short(solver))
}

/// The greatest stamp at which something was last seen.
fn last_stamp(spans: &[Span]) -> u32 {
    let mut last: u32 = 0;
    for row in 0..spans.len() {
        last = span_of(spans, row).until.max(last);
    }
    last
}

/// Tries pairs first as they took effect, the earlier ones first.
fn weigh_pairs(variables: &mut Variables, spans: &[Span], weights: &mut Table<f64>) {
    let whole = f64::from(last_stamp(spans)) * 20.0 + 20.0;
    for variable in 1..variables.roles.len() {
        if let Role::Precedence(row, other) = variables.roles.at(variable) {
            let one = instant(span_of(spans, row as usize), 15);
            let two = instant(span_of(spans, other as usize), 15);
            let late = f64::from(short(one.max(two) as usize));
            variables.phases.set(variable, one < two);
            weights.set(variable, 1.0 - 0.5 * (late / whole));
        }
    }
}

/// Puts the variables whose values may be chosen on the heap.
fn insert_all(heap: &mut Heap, choices: &Table<bool>) {
    for variable in 1..choices.len() {
        if choices.at(variable) {
            insert(heap, variable);
        }
    }
}

/// Decides first what comes first.
fn weigh_all(problem: &mut Problem, heap: &mut Heap) {
    let variables = &mut problem.variables;
    weigh_pairs(variables, &problem.spans, &mut heap.weights);
    insert_all(heap, &variables.choices);
}

/// Makes room for the variables, and begins with what real time says, and with the work that reading took.
fn make_tables(problem: &Problem, known: &mut Known, closure: &mut Closure, heap: &mut Heap) {
    let count = problem.variables.roles.len();
    close_spans(closure, &problem.spans);
    make_room(known, count);
    make_heap(heap, count);
    known.work = problem.allowance.work;
}

/// Makes room for what is learned.
fn make_learning(learning: &mut Learning, problem: &Problem) {
    let count = problem.variables.roles.len();
    make_marks(&mut learning.analysis, count);
    make_log(&mut learning.log, count, problem.clauses.origins.len());
}

/// Watches the clauses, and decides first what comes first.
fn watch_and_weigh(problem: &mut Problem, heap: &mut Heap) {
    let count = problem.variables.roles.len();
    watch_all(&mut problem.clauses, count.saturating_mul(2));
    weigh_all(problem, heap);
}

/// Makes room for a search of the problem, and decides first what comes first.
pub(crate) fn prepare(
    problem: &mut Problem,
    known: &mut Known,
    closure: &mut Closure,
    heap: &mut Heap,
    learning: &mut Learning,
) {
    make_tables(problem, known, closure, heap);
    make_learning(learning, problem);
    watch_and_weigh(problem, heap);
}

/// Follows a literal that holds by real time, by pairs and by cells.
fn follow_literal(
    problem: &Problem,
    known: &mut Known,
    closure: &mut Closure,
    literal: u32,
) -> Option<Conflict> {
    let (cells, spans) = (&problem.cells, &problem.spans[..]);
    if let Some((row, other)) = pair_of(&problem.variables.roles, literal) {
        let conflict = close(known, closure, spans, row, other);
        if conflict.is_some() {
            return conflict;
        }
        return propagate_pair(known, cells, spans, row, other);
    }
    if literal & 1 == 1 {
        return None;
    }
    match problem.variables.roles.at(var(literal)) {
        Role::Source(source) => propagate_source(known, cells, spans, source),
        Role::Commits(row) => check_commits(known, cells, spans, row as usize),
        Role::Nothing | Role::Precedence(..) | Role::Item(_) => None,
    }
}

/// The literal holds: if it says which item is taken, its sum is to be looked at.
fn wake_item(problem: &mut Problem, literal: u32) {
    if literal & 1 == 0 {
        if let Role::Item(item) = problem.variables.roles.at(var(literal)) {
            let sum = problem.items.items.at(item as usize).sum;
            wake_guarded(&mut problem.sums, sum);
        }
    }
}

/// Follows the next literal that holds by all but clauses.
fn propagate_next(
    problem: &mut Problem,
    known: &mut Known,
    closure: &mut Closure,
) -> Option<Conflict> {
    let literal = known.trail.at(known.propagated);
    let count = count_terms(&mut problem.sums, literal, true);
    known.propagated = known.propagated.wrapping_add(1);
    known.work = known.work.wrapping_add(count as u64);
    wake_item(problem, literal);
    follow_literal(problem, known, closure, literal)
}

/// Follows what holds by clauses.
fn propagate_clauses(known: &mut Known, clauses: &mut Clauses) -> Option<Conflict> {
    let (arena, heads) = (clauses.arena.items_mut(), clauses.heads.items_mut());
    follow_clauses(known, arena, heads)
}

/// Follows what holds as far as it forces more.
fn propagate(problem: &mut Problem, known: &mut Known, closure: &mut Closure) -> Option<Conflict> {
    for _ in 0..u64::MAX {
        let conflict = propagate_clauses(known, &mut problem.clauses);
        if conflict.is_some() {
            return conflict;
        }
        let conflict = if known.propagated < known.count {
            propagate_next(problem, known, closure)
        } else if problem.sums.waiting.is_empty() {
            return None;
        } else {
            propagate_waiting(known, &mut problem.sums)
        };
        if conflict.is_some() {
            return conflict;
        }
    }
    None
}

/// The literal holds no longer. What it said is tried first the next time.
fn unassign(
    variables: &mut Variables,
    values: &mut Table<i8>,
    closure: &mut Closure,
    heap: &mut Heap,
    literal: u32,
) {
    let variable = var(literal);
    if let Some((row, other)) = pair_of(&variables.roles, literal) {
        reopen(closure, row, other);
    }
    values.set(literal as usize, 0);
    values.set(neg(literal) as usize, 0);
    variables.phases.set(variable, literal & 1 == 0);
    if variables.choices.at(variable) {
        insert(heap, variable);
    }
}

/// The literals of the trail from the place on hold no longer.
fn unassign_from(
    variables: &mut Variables,
    known: &mut Known,
    closure: &mut Closure,
    heap: &mut Heap,
    from: usize,
) {
    for place in from..known.count {
        let literal = known.trail.at(place);
        unassign(variables, &mut known.values, closure, heap, literal);
    }
    known.count = from;
    known.seen = from;
    known.propagated = known.propagated.min(from);
}

/// The sums count the literals of the trail from the place on no longer, and none waits.
fn uncount_from(sums: &mut Sums, known: &Known, from: usize) {
    for place in from..known.propagated {
        let _count = count_terms(sums, known.trail.at(place), false);
    }
    clear_waiting(sums);
}

/// Where in the trail the level begins, or none, where there is no such level.
fn begin_of(known: &Known, level: u32) -> Option<usize> {
    if known.levels.len() <= level as usize {
        return None;
    }
    Some(known.levels.at(level as usize))
}

/// Takes back what holds since the place of the trail at which the level begins.
fn take_back(
    problem: &mut Problem,
    known: &mut Known,
    closure: &mut Closure,
    heap: &mut Heap,
    (level, from): (u32, usize),
) {
    uncount_from(&mut problem.sums, known, from);
    unassign_from(&mut problem.variables, known, closure, heap, from);
    known.levels.truncate(level as usize);
}

/// Goes back to the level.
pub(crate) fn backjump(solver: &mut Solver<'_>, level: u32) {
    let Some(from) = begin_of(solver.known, level) else {
        return;
    };
    let (problem, known, course) = (
        &mut *solver.problem,
        &mut *solver.known,
        &mut *solver.course,
    );
    take_back(problem, known, solver.closure, solver.heap, (level, from));
    force_late(known, &problem.clauses, &mut course.late, level);
    course.best_kept = course.best_kept.min(from);
}

/// What late clauses forced that are of this level or of lower ones they force again; the others are late no longer.
fn force_late(known: &mut Known, clauses: &Clauses, late: &mut Table<Late>, level: u32) {
    let mut kept: usize = 0;
    for place in 0..late.len() {
        let found = late.at(place);
        if found.level > level {
            continue;
        }
        let place = (found.clause as usize).wrapping_add(LITERALS);
        let first = clauses.arena.at(place);
        if known.value(first) == 0 {
            assign(known, first, Antecedent::Clause(found.clause));
        }
        late.set(kept, found);
        kept = kept.wrapping_add(1);
    }
    late.truncate(kept);
}

/// Notes the phases of the literals of the trail between the places.
fn note_phases(phases: &mut Table<bool>, trail: &Table<u32>, from: usize, to: usize) {
    for place in from..to {
        let literal = trail.at(place);
        phases.set(var(literal), literal & 1 == 0);
    }
}

/// Notes the phases of the first literals of the trail, so many, if none longer was noted. Those that held when the last one was noted, and
/// still do, are noted already.
fn note_best(course: &mut Course, problem: &Problem, known: &Known, count: usize) {
    if count <= course.best_count {
        return;
    }
    let best = &mut course.best;
    if best.is_empty() {
        best.add_all(problem.variables.phases.items());
    }
    note_phases(best, &known.trail, course.best_kept, count);
    course.best_count = count;
    course.best_kept = count;
}

/// What was learned from a conflict, beside the clause: the level from which on the clause forces its first literal, of how many levels
/// its literals are, and the step that gives it.
#[derive(Clone, Copy)]
struct Learned {
    level: u32,
    levels: u32,
    step: u32,
}

/// Adds a learned clause, which is watched from now on, and gives its place.
fn add_clause(clauses: &mut Clauses, literals: &[u32], learned: Learned) -> u32 {
    let arena = &mut clauses.arena;
    let clause = append(arena, literals, learned.levels, NONE, learned.step);
    watch_both(arena.items_mut(), clauses.heads.items_mut(), clause);
    clauses.learned.add(clause);
    clause
}

/// Adds the learned clause, and takes to hold what it forces since its level.
fn add_learned(
    problem: &mut Problem,
    known: &mut Known,
    course: &mut Course,
    literals: &[u32],
    learned: Learned,
) {
    let clause = add_clause(&mut problem.clauses, literals, learned);
    let first = at(literals, 0, 0);
    if known.value(first) == 0 {
        assign(known, first, Antecedent::Clause(clause));
    }
    let level = learned.level;
    if level < short(known.levels.len()) {
        course.late.add(Late { clause, level });
    }
}

/// The level to which the search goes back, where the clause forces a literal from that one on. Where that is far, it is one below the
/// highest, and further with each conflict since the last choice: what was chosen between stays.
fn backjump_level(course: &mut Course, level: u32, top: u32) -> u32 {
    if course.choices > course.at_conflict {
        course.stride = 1;
    } else {
        course.stride = course.stride.saturating_mul(2);
    }
    course.at_conflict = course.choices;
    if top.saturating_sub(level) > FAR {
        return top.saturating_sub(course.stride).max(level);
    }
    level
}

/// Learns a clause from the conflict, whose highest level is given, and writes down what it follows from, if that is asked for.
fn learn_clause(
    problem: &Problem,
    known: &Known,
    heap: &mut Heap,
    learning: &mut Learning,
    top: u32,
) -> Learned {
    let view = View { problem, known };
    let (analysis, log) = (&mut learning.analysis, &mut learning.log);
    let level = learn(analysis, heap, &view, top);
    heap.step /= 0.95;
    let levels = count_levels(analysis, known);
    let mut step = NONE;
    if log.is_on {
        step = log_learned(log, &view, analysis);
    }
    Learned {
        level,
        levels,
        step,
    }
}

/// Learns a clause from the conflict, whose highest level is given, and goes back to where the clause forces a literal.
fn learn_and_return(solver: &mut Solver<'_>, top: u32) {
    let (problem, known) = (&*solver.problem, &*solver.known);
    let learned = learn_clause(problem, known, solver.heap, solver.learning, top);
    let level = backjump_level(solver.course, learned.level, top);
    backjump(solver, level);
    let literals = solver.learning.analysis.clause.items();
    add_learned(
        solver.problem,
        solver.known,
        solver.course,
        literals,
        learned,
    );
}

/// Reads what the conflict needs, and gives the highest level of it. The conflict is noted, if that is asked for, or if that level is the lowest
/// and nothing was learned yet: then the search is at its end, and needs no second one for its steps.
fn read_needed(
    problem: &Problem,
    known: &Known,
    learning: &mut Learning,
    conflict: Conflict,
) -> u32 {
    let view = View { problem, known };
    let (analysis, log) = (&mut learning.analysis, &mut learning.log);
    let top = read_conflict(analysis, &view, conflict);
    let ends = problem.clauses.learned.is_empty();
    if log.is_on | (ends & (top == 0)) {
        log_conflict(
            log,
            &view,
            conflict,
            analysis.explained.literals.items(),
            top == 0,
        );
    }
    top
}

/// Drops learned clauses, if it is time for that.
fn reduce_in_time(problem: &mut Problem, known: &mut Known, course: &mut Course) {
    if course.conflicts >= course.reduce_at {
        reduce(&mut problem.clauses, known);
        course.late.clear();
        course.reduce_at = course.conflicts.saturating_add(REDUCE_EVERY);
    }
}

/// Counts the conflict, notes how far the search came, and reads what the conflict needs, whose highest level is given.
fn meet_conflict(
    problem: &Problem,
    known: &Known,
    learning: &mut Learning,
    course: &mut Course,
    conflict: Conflict,
) -> u32 {
    note_conflict(course);
    note_best(course, problem, known, begin_of_last(known));
    read_needed(problem, known, learning, conflict)
}

/// Learns from the conflict, and goes back. None where the search goes on.
fn handle_conflict(solver: &mut Solver<'_>, conflict: Conflict) -> Option<Found> {
    let (problem, known) = (&*solver.problem, &*solver.known);
    let top = meet_conflict(problem, known, solver.learning, solver.course, conflict);
    if top == 0 {
        return Some(Found::NoOrder);
    }
    if (top == 1) & solver.course.has_assumed() {
        backjump(solver, 0);
        return Some(Found::NotAssumed);
    }
    backjump(solver, top);
    learn_and_return(solver, top);
    reduce_in_time(solver.problem, solver.known, solver.course);
    if is_short(solver) {
        return Some(Found::Spent);
    }
    None
}

/// Counts a conflict.
fn note_conflict(course: &mut Course) {
    course.conflicts = course.conflicts.wrapping_add(1);
}

/// Where in the trail the last level begins.
fn begin_of_last(known: &Known) -> usize {
    known.levels.at(known.levels.len().wrapping_sub(1))
}

/// Opens a level.
fn open_level(known: &mut Known) {
    let count = known.count;
    known.levels.add(count);
}

/// Takes the assumed literals to hold, at a level of their own, as far as they are open. False where they cannot all.
fn assume(
    problem: &mut Problem,
    known: &mut Known,
    closure: &mut Closure,
    assumed: &Table<u32>,
) -> bool {
    open_level(known);
    for place in 0..assumed.len() {
        let literal = assumed.at(place);
        if known.value(literal) == 0 {
            assign(known, literal, Antecedent::Choice);
            if propagate(problem, known, closure).is_some() {
                return false;
            }
        }
    }
    true
}

/// Takes the heaviest variable that has no value.
fn next_variable(heap: &mut Heap, known: &Known) -> Option<u32> {
    for _ in 0..known.values.len() {
        let Some(variable) = take_heaviest(heap) else {
            return None;
        };
        if known.value(variable.wrapping_mul(2)) == 0 {
            return Some(variable);
        }
    }
    None
}

/// The literal of the variable that is tried first.
fn first_literal(course: &Course, problem: &Problem, variable: u32) -> u32 {
    let place = variable as usize;
    let mut holds = problem.variables.phases.at(place);
    if course.tries_best & (course.best_count > 0) {
        holds = course.best.at(place);
    }
    let literal = variable.wrapping_mul(2);
    if holds { literal } else { neg(literal) }
}

/// Decides the next variable. False where none is left.
fn choose(problem: &Problem, known: &mut Known, heap: &mut Heap, course: &mut Course) -> bool {
    let Some(variable) = next_variable(heap, known) else {
        return false;
    };
    let literal = first_literal(course, problem, variable);
    course.choices = course.choices.wrapping_add(1);
    open_level(known);
    assign(known, literal, Antecedent::Choice);
    true
}

/// Takes the clauses of one literal to hold. The clause that cannot is given, if one cannot.
fn force_single(known: &mut Known, arena: &Table<u32>) -> Option<Conflict> {
    let mut place: usize = 0;
    for _ in 0..arena.len() {
        if place >= arena.len() {
            break;
        }
        let length = arena.at(place);
        let literal = arena.at(place.wrapping_add(LITERALS));
        let clause = short(place);
        let found = known.value(literal);
        if (length == 0) | ((length == 1) & (found == -1)) {
            return Some(Conflict::Clause(clause));
        }
        if (length == 1) & (found == 0) {
            assign(known, literal, Antecedent::Clause(clause));
        }
        place = place.wrapping_add(LITERALS).wrapping_add(length as usize);
    }
    None
}

/// Follows what holds in any case: the clauses of one literal, and what they force. What cannot be is given, if something cannot.
fn begin_all(problem: &mut Problem, known: &mut Known, closure: &mut Closure) -> Option<Conflict> {
    let conflict = force_single(known, &problem.clauses.arena);
    if conflict.is_some() {
        return conflict;
    }
    propagate(problem, known, closure)
}

/// Follows what holds in any case. False where that cannot be.
pub(crate) fn begin(solver: &mut Solver<'_>) -> bool {
    let Some(conflict) = begin_all(solver.problem, solver.known, solver.closure) else {
        return true;
    };
    read_needed(solver.problem, solver.known, solver.learning, conflict);
    false
}

/// How many bytes the search takes, about.
pub(crate) fn bytes_held(solver: &Solver<'_>) -> usize {
    bytes_of(solver.problem).saturating_add(bytes_logged(&solver.learning.log.steps))
}

/// Whether the effort is spent.
pub(crate) fn is_over(solver: &Solver<'_>, effort: Effort) -> bool {
    solver.course.conflicts >= effort.conflicts
        || solver.known.work >= effort.work
        || bytes_held(solver) > effort.bytes
}

/// The weight of the heaviest variable that has no value. Those above it go from the heap.
fn next_weight(heap: &mut Heap, known: &Known) -> f64 {
    for _ in 0..known.values.len() {
        let Some(variable) = heaviest(heap) else {
            break;
        };
        if known.value(variable.wrapping_mul(2)) == 0 {
            return heap.weights.at(variable as usize);
        }
        let _taken = take_heaviest(heap);
    }
    0.0
}

/// How many of the first levels chose variables that weigh so much or more.
fn levels_above(known: &Known, weights: &Table<f64>, least: f64) -> u32 {
    let mut kept: usize = 0;
    for level in 0..known.levels.len() {
        let literal = known.trail.at(known.levels.at(level));
        if weights.at(var(literal)) < least {
            break;
        }
        kept = level.wrapping_add(1);
    }
    short(kept)
}

/// How many levels stay where the search begins again: the first ones whose variables weigh more than the next one would.
fn kept_levels(heap: &mut Heap, known: &Known) -> u32 {
    let next = next_weight(heap, known);
    levels_above(known, &heap.weights, next)
}

/// Notes how far the search came, and goes back to where other variables would be chosen now.
fn pause(solver: &mut Solver<'_>) {
    let count = solver.known.count;
    note_best(solver.course, solver.problem, solver.known, count);
    let mut kept = 0;
    if !solver.course.has_assumed() {
        kept = kept_levels(solver.heap, solver.known);
    }
    backjump(solver, kept);
}

/// Whether the assumed literals are still to be taken to hold.
fn is_to_assume(known: &Known, course: &Course) -> bool {
    known.levels.is_empty() & course.has_assumed()
}

/// Searches within the limits, or until a growth is refused.
pub(crate) fn search(solver: &mut Solver<'_>, limits: Effort) -> Found {
    for _ in 0..u64::MAX {
        let conflict = propagate(solver.problem, solver.known, solver.closure);
        if let Some(conflict) = conflict {
            if let Some(found) = handle_conflict(solver, conflict) {
                return found;
            }
        } else if is_over(solver, limits) {
            pause(solver);
            return Found::Spent;
        } else if is_to_assume(solver.known, solver.course) {
            let assumed = &solver.course.assumed;
            if !assume(solver.problem, solver.known, solver.closure, assumed) {
                note_conflict(solver.course);
                backjump(solver, 0);
                return Found::NotAssumed;
            }
        } else if !choose(solver.problem, solver.known, solver.heap, solver.course) {
            return Found::All;
        }
    }
    Found::Spent
}
