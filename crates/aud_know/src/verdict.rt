//! What may be said of a run.

use aud_facts::Kind;
use aud_history::Rule;
use aud_witness::Prefix;
use std::alloc::{Allocator, Global};

/// What a Knowledge says of its run: the first of these that holds.
#[derive(Debug, Drop)]
pub enum Verdict<A: Allocator = Global> {
    /// Two facts contradict each other: the least kind, and its least log and place.
    Conflict(Kind, u32, u32),
    /// The least log without an end mark, or with fewer records than its count.
    Waiting(u32),
    /// The least stamp that is missing.
    Gap(u32),
    /// The history is not well-formed: the stamp of the first event at which it is not, and the rule that is broken.
    IllFormed(u32, Rule),
    /// The order shows the history opaque; it is the least witness.
    Opaque(Prefix<A>),
    /// No order shows it.
    NotOpaque,
    /// No witness is known, and not every order is refuted.
    Unfinished,
}
