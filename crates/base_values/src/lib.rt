#![tactic(auto)]
//! What all crates stand on: want of memory as an ordinary error, copies that may meet it, orders that sets and maps can trust, and
//! budgets.

mod budget;
mod key;
mod memory;
mod rank;

pub use budget::spend;
pub use key::Key;
pub use memory::{Dup, OutOfMemory};
pub use rank::Rank;
