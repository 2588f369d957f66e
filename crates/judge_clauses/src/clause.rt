//! Atoms, literals, clauses and the steps of a refutation.

ghost use Rattle.std.specs.Prelude.{◌≡◌, not};

use search_model::Cell;
use std::alloc::{Allocator, Global};
use std::marker::Model;

/// What a transaction first needs of a cell, before it changes it.
#[derive(Clone, Copy, PartialEq, Eq)]
pub struct Read {
    pub reader: u32,
    pub object: u16,
    pub cell: Cell,
}

/// An item that a transaction takes from a queue. Its own takes of that queue count from 0.
#[derive(Clone, Copy, PartialEq, Eq)]
pub struct Take {
    pub taker: u32,
    pub object: u16,
    pub number: u32,
}

/// What may be so in an order that shows a history.
#[derive(Clone, Copy, PartialEq, Eq)]
pub enum Atom {
    /// The first transaction stands before the second one.
    Before(u32, u32),
    /// The transaction has the fate `C`.
    Commits(u32),
    /// Of the transactions with fate `C` before the reader, this one is the last that changes the cell.
    Source(Read, u32),
    /// No transaction with fate `C` before the reader changes the cell.
    Opening(Read),
    /// What is taken is an addition of this transaction, the one of this number. Its own additions to that queue count from 0.
    Item(Take, u32, u32),
}

/// An atom, by its number in the refutation, that is so or is not so.
#[derive(Clone, Copy, PartialEq, Eq)]
pub struct Literal {
    pub atom: u32,
    pub holds: bool,
}

impl Literal {
    /// The atom is not so, or is so.
    pub(crate) fn opposite(&self) -> Literal
        ensures { result ≡ record { atom = self.now.atom; holds = not self.now.holds } }
    {
        Literal {
            atom: self.atom,
            holds: !self.holds,
        }
    }
}

/// Why a clause holds in each order that shows the history.
#[derive(Drop)]
pub enum Reason<L, A: Allocator = Global> {
    /// It follows from earlier steps, by their numbers: where none of its literals holds, each of them in turn leaves one literal, and the
    /// last one leaves none.
    Units(Vec<u32, A>),
    /// Where none of its literals holds, each of these transactions stands before the next one, and the last one before the first.
    Circle(Vec<u32, A>),
    /// A law of objects.
    Law(L),
}

/// A clause, of which one literal at least is to hold, with its reason. Contracts see the clause alone.
#[derive(Drop)]
pub struct Step<L, A: Allocator = Global> {
    clause: Vec<Literal, A>,
    reason: Reason<L, A>,
}

impl<L, A: Allocator> Model for Step<L, A> {
    ghost use Rattle.std.specs.Prelude.{List};
    ghost use Rattle.judge_clauses.specs.declared.clause.Literal.{Literal};

    ghost Value = { List Literal };

    ghost view = { λ s. s.clause.items };
}

impl<L, A: Allocator> Step<L, A> {
    /// The clause with its reason. It does not allocate.
    pub fn new(clause: Vec<Literal, A>, reason: Reason<L, A>) -> Step<L, A>
        ensures { result ≡ clause.items }
    {
        Step { clause, reason }
    }

    /// The literals, of which one at least is to hold.
    pub fn clause(&self) -> &[Literal]
        ensures { result.now ≡ self.now }
    {
        &self.clause
    }

    /// Why.
    pub fn reason(&self) -> &Reason<L, A> {
        &self.reason
    }
}

/// Steps in turn, with the atoms of their literals by number.
#[derive(Drop)]
pub struct Refutation<L, A: Allocator = Global> {
    pub atoms: Vec<Atom, A>,
    pub steps: Vec<Step<L, A>, A>,
}
