//! Reading the text of a refutation.

use crate::atoms::Atoms;
use crate::fields::Fields;
use crate::reasons::reason;
use aud_event::{OutOfMemory, Plan};
use aud_text::{TextFault, count_lines, json_in, next_filled};
use judge_clauses::{Literal, Refutation, Step};
use judge_laws::ObjectLaw;
use serde_json::Value;
use std::alloc::Global;

/// The longest line that is read, in bytes: a clause may name each transaction.
const LINE_MAX: usize = 1 << 20;

/// Why the text is no refutation.
#[derive(Clone, Copy, PartialEq, Eq)]
pub enum EvidenceFault {
    /// The line is none of a refutation, or the text ends too early. Lines are counted from 1.
    Line(usize),
    OutOfMemory,
}

impl From<OutOfMemory> for EvidenceFault {
    fn from(_: OutOfMemory) -> EvidenceFault {
        EvidenceFault::OutOfMemory
    }
}

/// The line as JSON, if it is.
fn value_of(alloc: Global, line: &[u8]) -> Result<Option<Value>, OutOfMemory> {
    match json_in(alloc, line, LINE_MAX) {
        Ok(value) => Ok(Some(value)),
        Err(TextFault::OutOfMemory) => Err(OutOfMemory),
        Err(_) => Ok(None),
    }
}

/// How many members the object has, if the value is one.
fn members_of(value: &Value) -> usize {
    match value.as_object() {
        Some(members) => members.len(),
        None => 0,
    }
}

/// How many steps the header says that there are.
fn count_of(value: &Value) -> Option<usize> {
    if members_of(value) != 1 {
        return None;
    }
    usize::try_from(value.get("refutation")?.as_u64()?).ok()
}

/// The literals of a clause, if the value is one.
fn clause_of(
    alloc: Global,
    atoms: &mut Atoms,
    fields: Fields<'_>,
) -> Result<Option<Vec<Literal>>, OutOfMemory> {
    let mut clause = Vec::new(alloc);
    for value in fields.values {
        let Some(parts) = Fields::of(value, fields.plan) else {
            return Ok(None);
        };
        let Some(literal) = atoms.literal(parts)? else {
            return Ok(None);
        };
        clause.push(literal)?;
    }
    Ok(Some(clause))
}

/// The array at the key.
fn array_at<'a>(value: &'a Value, key: &str, plan: &'a Plan) -> Option<Fields<'a>> {
    Fields::of(value.get(key)?, plan)
}

/// The step of a line, if it has one.
fn step_of(
    alloc: Global,
    plan: &Plan,
    atoms: &mut Atoms,
    line: &[u8],
) -> Result<Option<Step<ObjectLaw>>, OutOfMemory> {
    let Some(value) = value_of(alloc, line)? else {
        return Ok(None);
    };
    if members_of(&value) != 2 {
        return Ok(None);
    }
    let (Some(by), Some(literals)) = (array_at(&value, "by", plan), array_at(&value, "c", plan))
    else {
        return Ok(None);
    };
    let Some(clause) = clause_of(alloc, atoms, literals)? else {
        return Ok(None);
    };
    match reason(alloc, by)? {
        Some(reason) => Ok(Some(Step::new(clause, reason))),
        None => Ok(None),
    }
}

/// A line that is not empty, with its number, and what comes after it.
#[derive(Clone, Copy)]
struct Next<'a> {
    number: usize,
    line: &'a [u8],
    rest: &'a [u8],
}

/// The next line that is not empty, where the text begins at the line of that number.
fn next_of(text: &[u8], number: usize) -> Option<Next<'_>> {
    let _room = number.checked_add(text.len())?;
    let next = next_filled(text, number)?;
    Some(Next {
        number: next.number,
        line: next.line,
        rest: next.rest,
    })
}

/// Steps, and the number of the line of each.
#[derive(Drop)]
struct Steps {
    steps: Vec<Step<ObjectLaw>>,
    lines: Vec<usize>,
}

impl Steps {
    /// Adds a step with the number of its line.
    fn add(&mut self, step: Step<ObjectLaw>, line: usize) -> Result<(), OutOfMemory> {
        self.steps.push(step)?;
        self.lines.push(line)?;
        Ok(())
    }
}

/// The steps that follow the header, as many as it says, and nothing after them.
fn steps_of(
    alloc: Global,
    plan: &Plan,
    atoms: &mut Atoms,
    text: &[u8],
    first: usize,
    count: usize,
) -> Result<Steps, EvidenceFault> {
    let mut found = Steps {
        steps: Vec::new(alloc),
        lines: Vec::new(alloc),
    };
    let (mut rest, mut number) = (text, first);
    for _ in 0..count {
        let Some(next) = next_of(rest, number) else {
            return Err(EvidenceFault::Line(count_lines(text).saturating_add(first)));
        };
        let Some(step) = step_of(alloc, plan, atoms, next.line)? else {
            return Err(EvidenceFault::Line(next.number));
        };
        found.add(step, next.number)?;
        rest = next.rest;
        number = next.number.saturating_add(1);
    }
    match next_of(rest, number) {
        None => Ok(found),
        Some(more) => Err(EvidenceFault::Line(more.number)),
    }
}

/// A refutation that was read, and the number of the line of each of its steps.
#[derive(Drop)]
pub struct ReadRefutation {
    pub refutation: Refutation<ObjectLaw>,
    lines: Vec<usize>,
}

impl ReadRefutation {
    /// The line of the step of the number, or the one after the last, where there is no such step.
    pub fn line_of(&self, step: usize) -> usize {
        match self.lines.get(step) {
            Some(line) => *line,
            None => match self.lines.last() {
                Some(line) => line.saturating_add(1),
                None => 2,
            },
        }
    }
}

/// The refutation that a text spells, for a plan: a header line says how many lines follow, and each of them is a step. Empty lines are skipped
/// and counted; a line has at most 1,048,576 bytes. A text that ends too early is refused at the line after its last.
pub fn read_refutation(
    alloc: Global,
    plan: &Plan,
    text: &[u8],
) -> Result<ReadRefutation, EvidenceFault> {
    let Some(header) = next_of(text, 1) else {
        return Err(EvidenceFault::Line(1));
    };
    let Some(value) = value_of(alloc, header.line)? else {
        return Err(EvidenceFault::Line(header.number));
    };
    let Some(count) = count_of(&value) else {
        return Err(EvidenceFault::Line(header.number));
    };
    let mut atoms = Atoms::new(alloc);
    let first = header.number.saturating_add(1);
    let steps = steps_of(alloc, plan, &mut atoms, header.rest, first, count)?;
    let Steps { steps, lines } = steps;
    Ok(ReadRefutation {
        refutation: Refutation {
            atoms: atoms.into_list(),
            steps,
        },
        lines,
    })
}
