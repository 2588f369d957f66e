//! Marks at places, a bit each.
#![tactic(auto)]

mod marks;

pub use marks::{Marks, are_same, with_bit};
