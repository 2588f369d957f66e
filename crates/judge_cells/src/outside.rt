//! Transactions that cannot have left in a cell what a reader needs of it.

ghost use Rattle.std.specs.Prelude.{◌≡◌, false, IfSome, IsTrue};
ghost use Rattle.judge_clauses.specs.Clauses.{Always, says};
ghost use Rattle.judge_clauses.specs.declared.clause.Atom.TheVariants.{Source};
ghost use Rattle.judge_cells.specs.Sources.{IsRead, IsHiding};

use crate::change::change;
use aud_witness::Fate;
use judge_clauses::{KnownFacts, Read};
use search_model::{Need, meets};
use std::alloc::Allocator;

/// The stamp of the transaction's first event, if all that ended before it is hidden from the reader after it: it is committed, changes the
/// cell and ended before the reader began.
fn hiding<A: Allocator + Copy>(facts: &KnownFacts<A>, read: Read, tx: u32) -> Option<u32>
    ensures { IfSome result (IsHiding facts.now read) }
{
    if !facts.cannot(tx, Fate::A) || !facts.is_before(tx, read.reader) {
        return None;
    }
    let row = facts.row(tx)?;
    let _left = change(row.block().executions(), read.object, read.cell)?;
    Some(row.first())
}

/// Whether the stamp is later than the latest so far.
fn is_later(stamp: u32, latest: Option<u32>) -> bool {
    match latest {
        Some(other) => other < stamp,
        None => true,
    }
}

/// The latest stamp before which all is hidden that ended, if something is.
pub(crate) fn latest<A: Allocator + Copy>(facts: &KnownFacts<A>, read: Read) -> Option<u32>
    ensures { IfSome result (IsHiding facts.now read) }
{
    let rows = facts.rows();
    let mut latest = None;
    for place in 0..rows.len() {
        if !facts.touches(place, read.object) {
            continue;
        }
        if let Some(stamp) = hiding(facts, read, rows[place].tx()) {
            if is_later(stamp, latest) {
                latest = Some(stamp);
            }
        }
    }
    latest
}

/// Whether the transaction ended before the stamp.
fn is_hidden<A: Allocator + Copy>(
    facts: &KnownFacts<A>,
    read: Read,
    latest: Option<u32>,
    tx: u32,
) -> bool
    requires { IfSome latest (IsHiding facts.now read) }
    ensures { IsTrue result → Always facts.now (λ p. says facts.now.history p (Source read tx) ≡ false) }
{
    let Some(stamp) = latest else {
        return false;
    };
    match facts.ended(tx) {
        Some(end) => end < stamp,
        None => false,
    }
}

/// Whether the transaction does not leave in the cell what is needed.
fn is_other<A: Allocator + Copy>(facts: &KnownFacts<A>, read: Read, need: Need, tx: u32) -> bool
    requires { IsRead facts.now read need }
    ensures { IsTrue result → Always facts.now (λ p. says facts.now.history p (Source read tx) ≡ false) }
{
    let _history = facts.history();
    let Some(row) = facts.row(tx) else {
        return false;
    };
    match change(row.block().executions(), read.object, read.cell) {
        Some(left) => !meets(need, left),
        None => true,
    }
}

/// Whether the transaction cannot be the source: it cannot commit, is the reader, stands after it, is hidden, or does not leave what is
/// needed.
pub(crate) fn is_outside<A: Allocator + Copy>(
    facts: &KnownFacts<A>,
    read: Read,
    need: Need,
    latest: Option<u32>,
    tx: u32,
) -> bool
    requires read { IsRead facts.now read need }
    requires latest { IfSome latest (IsHiding facts.now read) }
    ensures { IsTrue result → Always facts.now (λ p. says facts.now.history p (Source read tx) ≡ false) }
{
    if facts.cannot(tx, Fate::C) {
        return true;
    }
    if tx == read.reader {
        return true;
    }
    if facts.is_before(read.reader, tx) {
        return true;
    }
    if is_hidden(facts, read, latest, tx) {
        return true;
    }
    is_other(facts, read, need, tx)
}
