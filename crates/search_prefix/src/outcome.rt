//! What a search answers.

ghost use Rattle.std.specs.Prelude.{◌≡◌};
ghost use Rattle.search_prefix.specs.Tried.{outcome_of};

use aud_witness::Prefix;
use std::alloc::{Allocator, Global};

/// What a search with a budget found out about the prefixes that begin with a prefix.
#[derive(Debug, Drop)]
pub enum Outcome<A: Allocator = Global> {
    /// None of them shows the history.
    Refuted,
    /// This one does.
    Witness(Prefix<A>),
    /// The budget is spent, and neither was found.
    Spent,
}

/// Whether a history is opaque.
#[derive(Debug, Drop)]
pub enum Decided<A: Allocator = Global> {
    /// It is: the prefix shows it.
    Opaque(Prefix<A>),
    /// It is not: no prefix shows it.
    NotOpaque,
}

/// How a search over a recorder ended.
#[derive(Drop)]
pub enum SearchEnd<N: Copy, A: Allocator = Global> {
    /// No prefix that begins with the one that it began at shows the history, and this is its note.
    Refuted(N),
    /// This one does.
    Witness(Prefix<A>),
    /// The budget is spent, and neither was found.
    Spent,
}

impl<N: Copy, A: Allocator> SearchEnd<N, A> {
    /// How the search ended, without the note.
    pub fn outcome(self) -> Outcome<A>
        ensures { result ≡ outcome_of self }
    {
        match self {
            SearchEnd::Refuted(_) => Outcome::Refuted,
            SearchEnd::Witness(witness) => Outcome::Witness(witness),
            SearchEnd::Spent => Outcome::Spent,
        }
    }
}

/// Whether a history is opaque, by a search over a recorder.
#[derive(Drop)]
pub enum Searched<R: Drop, N: Copy, A: Allocator = Global> {
    /// It is: the prefix shows it.
    Opaque(Prefix<A>),
    /// It is not: no prefix shows it. The recorder has the note of the empty prefix.
    NotOpaque(R, N),
}
