#![tactic(auto)]
//! The search of the prefixes of an order for one that shows a history opaque.

mod outcome;
mod ready;
mod searching;

pub use outcome::{Decided, Outcome, Searched};
pub use searching::{explore, search, search_with};
