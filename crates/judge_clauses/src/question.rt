//! What may be asked of each transaction.

ghost use Rattle.std.specs.Prelude.{◌≡◌};
ghost use Rattle.judge_clauses.specs.Values.{atom_of};

use crate::clause::{Atom, Read};

/// What is asked of a transaction.
#[derive(Clone, Copy)]
pub enum Question {
    /// Whether it stands before this one.
    StandsBefore(u32),
    /// Whether it has the fate `C`.
    DoesCommit,
    /// Whether it is the last that changes the cell before the reader.
    IsSource(Read),
}

impl Question {
    /// The atom that says so of the transaction.
    pub fn of(self, tx: u32) -> Atom
        ensures { result ≡ atom_of self tx }
    {
        match self {
            Question::StandsBefore(other) => Atom::Before(tx, other),
            Question::DoesCommit => Atom::Commits(tx),
            Question::IsSource(read) => Atom::Source(read, tx),
        }
    }

    /// The transaction of which the atom may answer the question.
    pub(crate) fn subject(self, atom: Atom) -> Option<u32> {
        match (self, atom) {
            (Question::StandsBefore(other), Atom::Before(first, second)) => {
                if first == other {
                    Some(second)
                } else {
                    Some(first)
                }
            }
            (Question::DoesCommit, Atom::Commits(tx)) => Some(tx),
            (Question::IsSource(_), Atom::Source(_, tx)) => Some(tx),
            _ => None,
        }
    }
}
