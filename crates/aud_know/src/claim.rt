//! What is said of a history.

use aud_witness::Prefix;
use std::alloc::{Allocator, Global};

/// What is said of a history.
#[derive(Debug, Drop)]
pub enum Claim<A: Allocator = Global> {
    /// No order that begins so shows it.
    Refuted(Prefix<A>),
    /// The order shows it.
    Witness(Prefix<A>),
}
