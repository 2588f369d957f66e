//! The clause that names all that may have left in a cell what a reader needs of it.

ghost use Rattle.std.specs.Prelude.{◌≡◌, false, Some, IfOk, IfSome, IsTrue, slice_get};
ghost use Rattle.judge_clauses.specs.Clauses.{IsValid, Unless, says};
ghost use Rattle.judge_clauses.specs.Values.{atom_of, AreValues};
ghost use Rattle.judge_clauses.specs.declared.clause.Atom.TheVariants.{Opening};
ghost use Rattle.judge_clauses.specs.declared.question.Question.TheVariants.{IsSource};
ghost use Rattle.judge_cells.specs.Sources.{IsRead, IsHiding, AreOut};

use crate::opening::opening;
use crate::outside::{is_outside, latest};
use aud_event::OutOfMemory;
use judge_clauses::{Atom, KnownFacts, Literal, Question, Read};
use search_model::{Need, meets, needs};
use std::alloc::Allocator;

/// What the reader first needs of the cell, if it is in the history and needs something.
fn need<A: Allocator + Copy>(facts: &KnownFacts<A>, read: Read) -> Option<Need>
    ensures { IfSome result (IsRead facts.now read) }
{
    let row = facts.row(read.reader)?;
    let _opening = opening(facts, read.object, read.cell)?;
    needs(row.block().executions(), read.object, read.cell)
}

/// Whether the reader does not see the opening where the clause does not hold.
fn is_opening_out<A: Allocator + Copy>(
    facts: &KnownFacts<A>,
    clause: &[Literal],
    read: Read,
    need: Need,
    latest: Option<u32>,
) -> bool
    requires read { IsRead facts.now read need }
    requires latest { IfSome latest (IsHiding facts.now read) }
    ensures { IsTrue result → Unless facts.now clause.now (λ p. says facts.now.history p (Opening read) ≡ false) }
{
    let _history = facts.history();
    let Some(content) = opening(facts, read.object, read.cell) else {
        return false;
    };
    if !meets(need, content) {
        return true;
    }
    if let Some(_) = latest {
        return true;
    }
    facts.is_not_so(clause, Atom::Opening(read))
}

/// Whether the table says no at the place.
fn is_denied(values: &[Option<bool>], place: usize) -> bool
    ensures { IsTrue result → slice_get values.now place ≡ Some (Some false) }
{
    match values.get(place) {
        Some(Some(value)) => !*value,
        _ => false,
    }
}

/// Whether no row is the source where the clause does not hold.
fn are_out<A: Allocator + Copy>(
    facts: &KnownFacts<A>,
    clause: &[Literal],
    read: Read,
    need: Need,
    latest: Option<u32>,
    values: &[Option<bool>],
) -> bool
    requires read { IsRead facts.now read need }
    requires latest { IfSome latest (IsHiding facts.now read) }
    requires valued { AreValues facts.now clause.now (atom_of (IsSource read)) values.now }
    ensures { IsTrue result → AreOut facts.now clause.now read }
{
    let rows = facts.rows();
    for place in 0..rows.len() {
        if is_denied(values, place) {
            continue;
        }
        if !facts.touches(place, read.object) {
            continue;
        }
        if !is_outside(facts, read, need, latest, rows[place].tx()) {
            return false;
        }
    }
    true
}

/// Whether the clause says of each row that may have left what the reader needs that it is the source, and of the opening if it is that.
pub(crate) fn are_listed<A: Allocator + Copy>(
    alloc: A,
    facts: &KnownFacts<A>,
    clause: &[Literal],
    read: Read,
) -> Result<bool, OutOfMemory>
    ensures { IfOk result (λ yes. IsTrue yes → IsValid facts.now clause.now) }
{
    let Some(need) = need(facts, read) else {
        return Ok(false);
    };
    let latest = latest(facts, read);
    if !is_opening_out(facts, clause, read, need, latest) {
        return Ok(false);
    }
    let values = facts.values(alloc, clause, Question::IsSource(read))?;
    Ok(are_out(facts, clause, read, need, latest, &values))
}
