//! What one and the same atom of each row is where a clause does not hold: a table by the rows' places, in time linear in rows and literals.

ghost use Rattle.std.specs.Prelude.{◌≡◌, length, Some, slice_set, IfOk, IfSome};
ghost use Rattle.aud_history.specs.Table.{table_of};
ghost use Rattle.judge_clauses.specs.Values.{atom_of, AreValues, HasValueAt};

use crate::clause::{Atom, Literal};
use crate::facts::KnownFacts;
use crate::question::Question;
use aud_event::OutOfMemory;
use std::alloc::Allocator;

/// Writes the value at the place, if there is one.
fn put(values: &mut [Option<bool>], place: usize, value: bool)
    ensures { values.new ≡ slice_set values.old place (Some value) }
{
    if place < values.len() {
        values[place] = Some(value);
    }
}

impl<'a, A: Allocator + Copy> KnownFacts<'a, A> {
    /// The answers that real time and sure fates give.
    fn sure_values(
        &self,
        alloc: A,
        clause: &[Literal],
        question: Question,
    ) -> Result<Vec<Option<bool>, A>, OutOfMemory>
        ensures valued { IfOk result (λ values. AreValues self.now clause.now (atom_of question) values.items) }
        ensures count { IfOk result (λ values. length values.items ≡ length (table_of self.now.history)) }
    {
        let mut values = Vec::new(alloc);
        for row in self.rows() {
            values.push(self.sure(question.of(row.tx())))?;
        }
        Ok(values)
    }

    /// At which place the literal gives which answer.
    fn value_at(&self, literal: Literal, question: Question) -> Option<(usize, bool)>
        ensures { IfSome result (λ valued. HasValueAt self.now literal (atom_of question) valued.0 valued.1) }
    {
        let tx = question.subject(self.atom(literal.atom)?)?;
        let value = self.value_by(literal, question.of(tx))?;
        let place = self.place(tx)?;
        Some((place, value))
    }

    /// Adds the answers that the clause gives.
    fn add_values(&self, clause: &[Literal], question: Question, values: &mut [Option<bool>])
        requires { AreValues self.now clause.now (atom_of question) values.old }
        ensures valued { AreValues self.now clause.now (atom_of question) values.new }
        ensures count { length values.new ≡ length values.old }
    {
        for literal in clause {
            let Some((place, value)) = self.value_at(*literal, question) else {
                continue;
            };
            put(values, place, value);
        }
    }

    /// What the answer is for each row where the clause does not hold, by the rows' places, where that is known at once.
    pub fn values(
        &self,
        alloc: A,
        clause: &[Literal],
        question: Question,
    ) -> Result<Vec<Option<bool>, A>, OutOfMemory>
        ensures valued { IfOk result (λ values. AreValues self.now clause.now (atom_of question) values.items) }
        ensures count { IfOk result (λ values. length values.items ≡ length (table_of self.now.history)) }
    {
        let mut values = self.sure_values(alloc, clause, question)?;
        self.add_values(clause, question, &mut values);
        Ok(values)
    }
}
