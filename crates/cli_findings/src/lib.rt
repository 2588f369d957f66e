#![tactic(auto)]
//! What an audit searches, and what it says of what was found: all of an audit that needs no thread.

mod joining;
mod judging;
mod searching;

pub use joining::joined;
pub use judging::{Findings, conclude, has_all};
pub use searching::{TaskSearch, search_of};
