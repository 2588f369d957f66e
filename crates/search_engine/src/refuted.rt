//! Refutations from the steps of a search.

use crate::encoding::{Origin, Role};
use crate::literals::{NONE, Table, push, short, var};
use crate::log::{StepLog, Why};
use crate::problem::{Problem, unless_short};
use crate::queues::TakeOf;
use crate::spans::span_of;
use aud_event::OutOfMemory;
use judge_clauses::{Atom, Literal, Read, Reason, Refutation, Step, Take};
use judge_laws::{CellLaw, FrontItem, ObjectLaw, QueueLaw, SumLaw};
use std::alloc::Global;

/// The transaction of the row.
fn tx_of(problem: &Problem, row: usize) -> u32 {
    span_of(&problem.spans, row).tx
}

/// What the reader of that number reads.
fn read_of(problem: &Problem, reader: u32) -> Read {
    let found = problem.cells.readers.at(reader as usize);
    let cell = problem.cells.cells.at(found.cell as usize);
    Read {
        reader: tx_of(problem, found.row),
        object: cell.object,
        cell: cell.cell,
    }
}

/// The transaction of the writer, if there is one.
fn writer_of(problem: &Problem, writer: u32) -> Option<u32> {
    if writer == NONE {
        None
    } else {
        Some(tx_of(problem, problem.cells.writers.at(writer as usize).row))
    }
}

/// The take as laws name it.
fn take_of(problem: &Problem, take: TakeOf) -> Take {
    Take {
        taker: tx_of(problem, take.row),
        object: take.object,
        number: take.number,
    }
}

/// The take of the item, and the addition that it is.
fn item_of(problem: &Problem, item: u32) -> (Take, u32, u32) {
    let found = problem.items.items.at(item as usize);
    let take = problem.items.takes.at(found.take as usize);
    let adder = tx_of(problem, found.row);
    (take_of(problem, take), adder, found.addition)
}

/// The source: what is read, and by whom it was written, or that it was there from the beginning.
fn source_of(problem: &Problem, source: u32) -> (Read, Option<u32>) {
    let found = problem.cells.sources.at(source as usize);
    (
        read_of(problem, found.reader),
        writer_of(problem, found.writer),
    )
}

/// What the variable says.
fn atom_of(problem: &Problem, variable: usize) -> Atom {
    match problem.variables.roles.at(variable) {
        Role::Nothing => Atom::Commits(0),
        Role::Precedence(row, other) => {
            let first = tx_of(problem, row as usize);
            Atom::Before(first, tx_of(problem, other as usize))
        }
        Role::Commits(row) => Atom::Commits(tx_of(problem, row as usize)),
        Role::Source(source) => match source_of(problem, source) {
            (read, Some(writer)) => Atom::Source(read, writer),
            (read, None) => Atom::Opening(read),
        },
        Role::Item(item) => {
            let (take, adder, addition) = item_of(problem, item);
            Atom::Item(take, adder, addition)
        }
    }
}

/// The law that what was added before is taken before.
fn gone_of(problem: &Problem, number: u32) -> QueueLaw {
    let found = problem.items.gone.at(number as usize);
    let front = FrontItem {
        adder: tx_of(problem, found.row),
        value: found.value,
    };
    if found.item == NONE {
        let taker = tx_of(problem, found.take.row);
        let (object, place) = (found.take.object, found.take.number);
        return QueueLaw::Left(taker, object, place, front);
    }
    let (take, adder, addition) = item_of(problem, found.item);
    QueueLaw::Gone(take, adder, addition, front)
}

/// The law of the origin, if it is one of objects.
fn law_of(problem: &Problem, origin: Origin) -> Option<ObjectLaw> {
    let law = match origin {
        Origin::Sources(reader) => ObjectLaw::Cell(CellLaw::Sources(read_of(problem, reader))),
        Origin::SourceStands(source) => {
            let (read, writer) = source_of(problem, source);
            ObjectLaw::Cell(CellLaw::SourceStands(read, writer?))
        }
        Origin::Between(source, other) => {
            let (read, writer) = source_of(problem, source);
            let other = writer_of(problem, other)?;
            ObjectLaw::Cell(CellLaw::Between(read, writer, other))
        }
        Origin::Counter(row, object) => {
            ObjectLaw::Sum(SumLaw::Counter(tx_of(problem, row as usize), object))
        }
        Origin::Remainder(row, object, modulus) => {
            let tx = tx_of(problem, row as usize);
            ObjectLaw::Sum(SumLaw::Remainder(tx, object, modulus))
        }
        Origin::Element(row, object, element) => {
            let tx = tx_of(problem, row as usize);
            ObjectLaw::Sum(SumLaw::Element(tx, object, element))
        }
        _ => ObjectLaw::Queue(queue_law(problem, origin)?),
    };
    Some(law)
}

/// The law of a queue that the origin is, if it is one.
fn queue_law(problem: &Problem, origin: Origin) -> Option<QueueLaw> {
    match origin {
        Origin::Items(take) => {
            let found = problem.items.takes.at(take as usize);
            Some(QueueLaw::Items(take_of(problem, found)))
        }
        Origin::ItemStands(item) => {
            let (take, adder, addition) = item_of(problem, item);
            Some(QueueLaw::ItemStands(take, adder, addition))
        }
        Origin::Place(item) => {
            let (take, adder, addition) = item_of(problem, item);
            Some(QueueLaw::Place(take, adder, addition))
        }
        Origin::Empty(row, object, place) => {
            Some(QueueLaw::Empty(tx_of(problem, row as usize), object, place))
        }
        Origin::Gone(number) => Some(gone_of(problem, number)),
        _ => None,
    }
}

/// What is named in a refutation: the steps that the last one needs, by their numbers among these, the variables, by those of their atoms, and
/// the atoms.
#[derive(Drop)]
struct Names {
    steps: Table<u32>,
    variables: Table<u32>,
    atoms: Table<Atom>,
    /// Whether the growth of a clause or of a reason was refused.
    is_list_short: bool,
}

const NO_ATOM: Atom = Atom::Commits(0);

const NO_LITERAL: Literal = Literal {
    atom: NONE,
    holds: false,
};

impl Names {
    /// No names. It does not allocate.
    fn empty(alloc: Global) -> Names {
        Names {
            steps: Table::new(alloc, NONE),
            variables: Table::new(alloc, NONE),
            atoms: Table::new(alloc, NO_ATOM),
            is_list_short: false,
        }
    }

    /// Whether some growth was refused.
    fn is_short(&self) -> bool {
        self.steps.is_short()
            | self.variables.is_short()
            | self.atoms.is_short()
            | self.is_list_short
    }
}

/// The numbers of the steps that the last one needs, and room for those of atoms.
fn begin_names(names: &mut Names, problem: &Problem, steps: &StepLog, last: u32) {
    names.steps.fill(steps.steps.len());
    names.variables.fill(problem.variables.roles.len());
    number_needed(&mut names.steps, steps, last);
}

/// Numbers the steps that the last one needs.
fn number_needed(numbers: &mut Table<u32>, steps: &StepLog, last: u32) {
    let count = (last as usize).saturating_add(1);
    numbers.set(last as usize, 0);
    for gone in 0..count {
        let number = count - 1 - gone;
        if numbers.at(number) != NONE {
            if let Why::Units(from, to) = steps.steps.at(number).why {
                for hint in steps.hints.range(from, to) {
                    numbers.set(*hint as usize, 0);
                }
            }
        }
    }
    let mut next: u32 = 0;
    for number in numbers.items_mut() {
        if *number != NONE {
            *number = next;
            next = next.wrapping_add(1);
        }
    }
}

/// Names the atoms of the literals that are new.
fn name_atoms(names: &mut Names, problem: &Problem, literals: &[u32]) {
    let (variables, atoms) = (&mut names.variables, &mut names.atoms);
    for place in 0..literals.len() {
        let variable = var(literals[place]);
        if (variable < variables.len()) & (variables.at(variable) == NONE) {
            variables.set(variable, short(atoms.len()));
            atoms.add(atom_of(problem, variable));
        }
    }
}

/// Adds those of the literals to the clause that deny a source or an item, or those that do not.
fn add_literals(
    clause: &mut Table<Literal>,
    variables: &Table<u32>,
    problem: &Problem,
    literals: &[u32],
    is_guard: bool,
) {
    for place in 0..literals.len() {
        let literal = literals[place];
        let role = problem.variables.roles.at(var(literal));
        let denies = matches!(role, Role::Source(_) | Role::Item(_)) & (literal & 1 == 1);
        if denies == is_guard {
            let atom = variables.at(var(literal));
            let holds = literal & 1 == 0;
            clause.add(Literal { atom, holds });
        }
    }
}

/// The clause, those of its literals first that deny a source or an item. The atoms of the literals that are new are named.
fn clause_of(
    alloc: Global,
    names: &mut Names,
    problem: &Problem,
    literals: &[u32],
) -> Vec<Literal> {
    name_atoms(names, problem, literals);
    let mut clause = Table::new(alloc, NO_LITERAL);
    let variables = &names.variables;
    add_literals(&mut clause, variables, problem, literals, true);
    add_literals(&mut clause, variables, problem, literals, false);
    names.is_list_short |= clause.is_short();
    clause.into_items()
}

/// The numbers of the steps that the hints name.
fn steps_named(alloc: Global, names: &mut Names, hints: &[u32]) -> Vec<u32> {
    let mut list = Table::new(alloc, NONE);
    for place in 0..hints.len() {
        list.add(names.steps.at(hints[place] as usize));
    }
    names.is_list_short |= list.is_short();
    list.into_items()
}

/// Puts the number at the end of the list, if it is not in it.
fn add_new(list: &mut Table<u32>, number: u32) {
    if !list.items().contains(&number) {
        list.add(number);
    }
}

/// The transactions of the rows, each once.
fn transactions_of(
    alloc: Global,
    names: &mut Names,
    problem: &Problem,
    rows: [u32; 4],
) -> Vec<u32> {
    let mut list = Table::new(alloc, NONE);
    for place in 0..4 {
        add_new(&mut list, tx_of(problem, rows[place] as usize));
    }
    names.is_list_short |= list.is_short();
    list.into_items()
}

/// What the step follows from, if that can be said.
fn reason_of(
    alloc: Global,
    names: &mut Names,
    problem: &Problem,
    steps: &StepLog,
    why: Why,
) -> Option<Reason<ObjectLaw>> {
    match why {
        Why::Units(from, to) => {
            let hints = steps.hints.range(from, to);
            Some(Reason::Units(steps_named(alloc, names, hints)))
        }
        Why::Origin(Origin::Circle(first, row, other, last)) => {
            let rows = [first, row, other, last];
            Some(Reason::Circle(transactions_of(alloc, names, problem, rows)))
        }
        Why::Origin(origin) => Some(Reason::Law(law_of(problem, origin)?)),
    }
}

/// Adds the steps to the refutation that are needed. False where a reason cannot be said.
fn add_steps(
    alloc: Global,
    said: &mut Vec<Step<ObjectLaw>>,
    names: &mut Names,
    problem: &Problem,
    steps: &StepLog,
) -> Result<bool, OutOfMemory> {
    let mut is_said = true;
    for number in 0..steps.steps.len() {
        if names.steps.at(number) == NONE {
            continue;
        }
        let found = steps.steps.at(number);
        let literals = steps.literals.range(found.from, found.to);
        let clause = clause_of(alloc, names, problem, literals);
        match reason_of(alloc, names, problem, steps, found.why) {
            Some(reason) => push(said, Step::new(clause, reason))?,
            None => {
                is_said = false;
                break;
            }
        }
    }
    unless_short(names.is_short())?;
    Ok(is_said)
}

/// The refutation that ends with the step, with no step that it does not need; or none, where a step cannot be said.
pub(crate) fn refutation_of(
    alloc: Global,
    problem: &Problem,
    steps: &StepLog,
    last: u32,
) -> Result<Option<Refutation<ObjectLaw>>, OutOfMemory> {
    let mut names = Names::empty(alloc);
    let mut said = Vec::new(alloc);
    begin_names(&mut names, problem, steps, last);
    if !add_steps(alloc, &mut said, &mut names, problem, steps)? {
        return Ok(None);
    }
    let empty = Table::new(alloc, NO_ATOM);
    let atoms = std::mem::replace(&mut names.atoms, empty);
    Ok(Some(Refutation {
        atoms: atoms.into_items(),
        steps: said,
    }))
}
