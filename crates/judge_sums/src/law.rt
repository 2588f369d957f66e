//! The laws of sums.

ghost use Rattle.std.specs.Prelude.{◌≡◌, IfOk, IfSome, IsTrue};
ghost use Rattle.judge_clauses.specs.Clauses.{IsValid};
ghost use Rattle.search_model.specs.declared.quantity.Quantity.TheVariants.{Count, Element};
ghost use Rattle.judge_sums.specs.Laws.{ComesTo, CountsFrom, IsSet, IsAskedBy};

use crate::bounds::{NOTHING, estimated};
use crate::estimate::Estimate;
use crate::remainder::Remainder;
use crate::room::has_room;
use aud_event::{ObjKind, OutOfMemory};
use judge_clauses::{KnownFacts, Law, Literal};
use search_model::{Quantity, asked, contradict};
use std::alloc::Allocator;

/// Where no literal of a clause holds, what those before a reader come to lies between bounds, or leaves a remainder, and the number that
/// the reader finds does not.
#[derive(Clone, Copy)]
pub enum SumLaw {
    /// What the reader finds on the counter.
    Counter(u32, u16),
    /// What the reader finds on the counter, by what is left where the counts are divided by a number, of which each that is open is a multiple.
    Remainder(u32, u16, i64),
    /// Whether the reader finds the element in the set.
    Element(u32, u16, i64),
    /// The transaction's block contradicts itself on the counter.
    Clash(u32, u16),
}

/// The count at which the counter opens, if the object is one.
fn first_count<A: Allocator + Copy>(facts: &KnownFacts<A>, counter: u16) -> Option<i64>
    ensures { IfSome result (CountsFrom facts.now counter) }
{
    let decl = facts.history().plan().object(usize::from(counter))?;
    match decl.kind {
        ObjKind::Counter => Some(decl.opening),
        _ => None,
    }
}

/// Whether the object is a set.
fn is_set<A: Allocator + Copy>(facts: &KnownFacts<A>, object: u16) -> bool
    ensures { IsTrue result → IsSet facts.now object }
{
    match facts.history().plan().object(usize::from(object)) {
        Some(decl) => matches!(decl.kind, ObjKind::SetOf),
        None => false,
    }
}

/// What the reader has to find, by its own answers.
fn asked_by<A: Allocator + Copy>(
    facts: &KnownFacts<A>,
    reader: u32,
    quantity: Quantity,
) -> Option<i64>
    ensures { IfSome result (IsAskedBy facts.now reader quantity) }
{
    let row = facts.row(reader)?;
    asked(quantity, row.block().executions())
}

/// What those before the reader change the count by.
fn counted<A: Allocator + Copy>(facts: &KnownFacts<A>, reader: u32, counter: u16) -> Option<i64>
    ensures { IfSome result (ComesTo facts.now (Count counter) reader) }
{
    let _history = facts.history();
    let opening = first_count(facts, counter)?;
    let wanted = asked_by(facts, reader, Quantity::Count(counter))?;
    if !has_room(facts, counter, opening) {
        return None;
    }
    wanted.checked_sub(opening)
}

/// What those before the reader come to on the element.
fn found<A: Allocator + Copy>(
    facts: &KnownFacts<A>,
    reader: u32,
    set: u16,
    element: i64,
) -> Option<i64>
    ensures { IfSome result (ComesTo facts.now (Element set element) reader) }
{
    let _history = facts.history();
    if !is_set(facts, set) {
        return None;
    }
    asked_by(facts, reader, Quantity::Element(set, element))
}

/// Whether the sum cannot be the number where the clause does not hold, by what is said of it as `start` says it.
fn is_excluded<E: Estimate, A: Allocator + Copy>(
    alloc: A,
    start: E,
    facts: &KnownFacts<A>,
    clause: &[Literal],
    quantity: Quantity,
    reader: u32,
    number: i64,
) -> Result<bool, OutOfMemory>
    requires { ComesTo facts.now quantity reader number }
    ensures { IfOk result (λ yes. IsTrue yes → IsValid facts.now clause.now) }
{
    match estimated(alloc, start, facts, clause, quantity, reader)? {
        Some(sum) => Ok(sum.excludes(number)),
        None => Ok(false),
    }
}

/// Whether the transaction's block contradicts itself on the counter.
fn is_clash<A: Allocator + Copy>(
    facts: &KnownFacts<A>,
    clause: &[Literal],
    tx: u32,
    counter: u16,
) -> bool
    ensures { IsTrue result → IsValid facts.now clause.now }
{
    let _history = facts.history();
    let _clause = clause;
    let Some(opening) = first_count(facts, counter) else {
        return false;
    };
    if !has_room(facts, counter, opening) {
        return false;
    }
    match facts.row(tx) {
        Some(row) => contradict(Quantity::Count(counter), row.block().executions()),
        None => false,
    }
}

impl Law for SumLaw {
    fn is_right<A: Allocator + Copy>(
        &self,
        alloc: A,
        facts: &KnownFacts<A>,
        clause: &[Literal],
    ) -> Result<bool, OutOfMemory> {
        match self {
            SumLaw::Counter(reader, counter) => match counted(facts, *reader, *counter) {
                Some(number) => {
                    let quantity = Quantity::Count(*counter);
                    is_excluded(alloc, NOTHING, facts, clause, quantity, *reader, number)
                }
                None => Ok(false),
            },
            SumLaw::Remainder(reader, counter, modulus) => {
                match counted(facts, *reader, *counter) {
                    Some(number) => {
                        let start = Remainder::zero_of(*modulus);
                        let quantity = Quantity::Count(*counter);
                        is_excluded(alloc, start, facts, clause, quantity, *reader, number)
                    }
                    None => Ok(false),
                }
            }
            SumLaw::Element(reader, set, element) => {
                match found(facts, *reader, *set, *element) {
                    Some(number) => {
                        let quantity = Quantity::Element(*set, *element);
                        is_excluded(alloc, NOTHING, facts, clause, quantity, *reader, number)
                    }
                    None => Ok(false),
                }
            }
            SumLaw::Clash(tx, counter) => Ok(is_clash(facts, clause, *tx, *counter)),
        }
    }
}
