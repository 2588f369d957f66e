//! Literals that are taken to hold.

ghost use Rattle.std.specs.Prelude.{◌≡◌, ℕ, Bool, true, false, IfOk, IfSome, IsTrue, OnOk, [], ◌∷◌, ◌++◌};
ghost use Rattle.judge_clauses.specs.Clauses.{is_true, are_true};

use crate::clause::Literal;
use aud_event::OutOfMemory;
use std::alloc::{Allocator, Global};
use std::marker::Model;

/// Literals that are taken to hold, found by the numbers of their atoms. What stands in the table of places is only a hint where to look, so
/// that nothing has to be wiped.
#[derive(Drop)]
pub(crate) struct Trail<A: Allocator = Global> {
    places: Vec<usize, A>,
    literals: Vec<Literal, A>,
}

impl<A: Allocator> Model for Trail<A> {
    ghost use Rattle.std.specs.Prelude.{List};
    ghost use Rattle.judge_clauses.specs.declared.clause.Literal.{Literal};

    ghost Value = { List Literal };

    ghost view = { λ t. t.literals.items };
}

impl<A: Allocator + Copy> Trail<A> {
    /// No literal yet, of so many atoms.
    pub(crate) fn new(alloc: A, atoms: usize) -> Result<Trail<A>, OutOfMemory>
        ensures { IfOk result (λ trail. trail ≡ []) }
    {
        let mut places = Vec::new(alloc);
        for _ in 0..atoms {
            places.push(0)?;
        }
        Ok(Trail {
            places,
            literals: Vec::new(alloc),
        })
    }
}

impl<A: Allocator> Trail<A> {
    /// Takes all literals out; their places stay, and are read only where a literal of that place is the one asked for.
    pub(crate) fn clear(&mut self)
        ensures { self.new ≡ [] }
    {
        self.literals.clear();
    }

    /// Adds a literal that holds.
    pub(crate) fn put(&mut self, literal: Literal) -> Result<(), OutOfMemory>
        ensures { OnOk result (self.new ≡ self.old ++ literal ∷ []) }
    {
        let place = self.literals.len();
        self.literals.push(literal)?;
        if let Some(slot) = self.places.get_mut(literal.atom as usize) {
            *slot = place;
        }
        Ok(())
    }

    /// What the atom is taken to be.
    fn value(&self, atom: u32) -> Option<bool>
        ensures { IfSome result (λ b. (v : ℕ → Bool) → are_true v self.now ≡ true → v atom ≡ b) }
    {
        let place = self.places.get(atom as usize)?;
        let literal = self.literals.get(*place)?;
        if literal.atom == atom {
            Some(literal.holds)
        } else {
            None
        }
    }

    /// Whether the literal does not hold where those here do.
    pub(crate) fn refutes(&self, literal: &Literal) -> bool
        ensures { IsTrue result → (v : ℕ → Bool) → are_true v self.now ≡ true → is_true v literal.now ≡ false }
    {
        match self.value(literal.atom) {
            Some(value) => value != literal.holds,
            None => false,
        }
    }
}
