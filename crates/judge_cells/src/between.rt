//! Clauses on the source of what a transaction needs of a cell.

ghost use Rattle.std.specs.Prelude.{IsTrue};
ghost use Rattle.judge_clauses.specs.Clauses.{IsValid};

use crate::change::is_change;
use judge_clauses::{Atom, KnownFacts, Literal, Read};
use std::alloc::Allocator;

/// The source stands before the reader, and it commits: the clause denies one of these, or that it is the source.
pub(crate) fn is_standing<A: Allocator + Copy>(
    facts: &KnownFacts<A>,
    clause: &[Literal],
    read: Read,
    source: u32,
) -> bool
    ensures { IsTrue result → IsValid facts.now clause.now }
{
    if !facts.is_there(read.reader) {
        return false;
    }
    if !facts.is_so(clause, Atom::Source(read, source)) {
        return false;
    }
    if facts.is_not_so(clause, Atom::Before(source, read.reader)) {
        return true;
    }
    facts.is_not_so(clause, Atom::Commits(source))
}

/// Another one that commits and changes the cell stands before the source or after the reader.
pub(crate) fn is_after_source<A: Allocator + Copy>(
    facts: &KnownFacts<A>,
    clause: &[Literal],
    read: Read,
    source: u32,
    other: u32,
) -> bool
    ensures { IsTrue result → IsValid facts.now clause.now }
{
    if other == source || other == read.reader {
        return false;
    }
    if !facts.is_there(read.reader) {
        return false;
    }
    if !is_change(facts, other, read.object, read.cell) {
        return false;
    }
    if !facts.is_so(clause, Atom::Source(read, source)) {
        return false;
    }
    if !facts.is_so(clause, Atom::Commits(other)) {
        return false;
    }
    if !facts.is_not_so(clause, Atom::Before(read.reader, other)) {
        return false;
    }
    facts.is_not_so(clause, Atom::Before(other, source))
}

/// Where there is no source, another one that commits and changes the cell stands after the reader.
pub(crate) fn is_after_opening<A: Allocator + Copy>(
    facts: &KnownFacts<A>,
    clause: &[Literal],
    read: Read,
    other: u32,
) -> bool
    ensures { IsTrue result → IsValid facts.now clause.now }
{
    if other == read.reader {
        return false;
    }
    if !facts.is_there(read.reader) {
        return false;
    }
    if !is_change(facts, other, read.object, read.cell) {
        return false;
    }
    if !facts.is_so(clause, Atom::Opening(read)) {
        return false;
    }
    if !facts.is_so(clause, Atom::Commits(other)) {
        return false;
    }
    facts.is_not_so(clause, Atom::Before(read.reader, other))
}
