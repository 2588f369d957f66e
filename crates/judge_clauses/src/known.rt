//! What atoms are in each order that shows a history, and where a clause does not hold.

ghost use Rattle.std.specs.Prelude.{◌≡◌, true, false, not, IfSome, IsTrue};
ghost use Rattle.aud_witness.specs.Orders.{stands_before};
ghost use Rattle.judge_clauses.specs.Clauses.{says, is_kept_in, Always, Unless, UnlessOne};

use crate::clause::{Atom, Literal};
use crate::facts::KnownFacts;
use aud_witness::Fate;
use std::alloc::Allocator;

impl<'a, A: Allocator + Copy> KnownFacts<'a, A> {
    /// Whether the first stands before the second, where real time tells, or they are one.
    fn order(&self, first: u32, second: u32) -> Option<bool>
        ensures { IfSome result (λ b. Always self.now (λ p. stands_before p first second ≡ b)) }
    {
        if first == second {
            return Some(false);
        }
        if self.is_before(first, second) {
            return Some(true);
        }
        if self.is_before(second, first) {
            return Some(false);
        }
        None
    }

    /// Whether the transaction commits, where it can have one fate only.
    fn fate(&self, tx: u32) -> Option<bool>
        ensures { IfSome result (λ b. Always self.now (λ p. is_kept_in p tx ≡ b)) }
    {
        if self.cannot(tx, Fate::A) {
            return Some(true);
        }
        if self.cannot(tx, Fate::C) {
            return Some(false);
        }
        None
    }

    /// What the atom is in each order that shows the history, where real time or a sure fate tells.
    pub fn sure(&self, atom: Atom) -> Option<bool>
        ensures { IfSome result (λ b. Always self.now (λ p. says self.now.history p atom ≡ b)) }
    {
        match atom {
            Atom::Before(first, second) => self.order(first, second),
            Atom::Commits(tx) => self.fate(tx),
            _ => None,
        }
    }

    /// Whether they are two transactions of the history.
    fn are_two(&self, first: u32, second: u32) -> bool
        ensures { IsTrue result → Always self.now (λ p. stands_before p first second ≡ not (stands_before p second first)) }
    {
        if first == second || !self.is_there(first) {
            return false;
        }
        self.is_there(second)
    }

    /// Whether the one atom says that T stands before U, and the other that U stands before T: two transactions of the history.
    fn are_contrary(&self, one: Atom, other: Atom) -> bool
        ensures { IsTrue result → Always self.now (λ p. says self.now.history p other ≡ not (says self.now.history p one)) }
    {
        let Atom::Before(first, second) = one else {
            return false;
        };
        if other != Atom::Before(second, first) {
            return false;
        }
        self.are_two(second, first)
    }

    /// What the atom is where the literal does not hold, if the literal speaks of it.
    pub(crate) fn value_by(&self, literal: Literal, atom: Atom) -> Option<bool>
        ensures { IfSome result (λ b. UnlessOne self.now literal (λ p. says self.now.history p atom ≡ b)) }
    {
        let found = self.atom(literal.atom)?;
        if found == atom {
            return Some(!literal.holds);
        }
        if self.are_contrary(found, atom) {
            return Some(literal.holds);
        }
        None
    }

    /// What the atom is where the clause does not hold, if that is known at once: by real time, a sure fate, or a literal.
    pub fn value(&self, clause: &[Literal], atom: Atom) -> Option<bool>
        ensures { IfSome result (λ b. Unless self.now clause.now (λ p. says self.now.history p atom ≡ b)) }
    {
        if let Some(value) = self.sure(atom) {
            return Some(value);
        }
        for literal in clause {
            if let Some(value) = self.value_by(*literal, atom) {
                return Some(value);
            }
        }
        None
    }

    /// Whether the atom is so where the clause does not hold.
    pub fn is_so(&self, clause: &[Literal], atom: Atom) -> bool
        ensures { IsTrue result → Unless self.now clause.now (λ p. says self.now.history p atom ≡ true) }
    {
        match self.value(clause, atom) {
            Some(value) => value,
            None => false,
        }
    }

    /// Whether the atom is not so where the clause does not hold.
    pub fn is_not_so(&self, clause: &[Literal], atom: Atom) -> bool
        ensures { IsTrue result → Unless self.now clause.now (λ p. says self.now.history p atom ≡ false) }
    {
        match self.value(clause, atom) {
            Some(value) => !value,
            None => false,
        }
    }
}
