#![tactic(auto)]
//! Clauses on sums of what transactions do to a number.

mod bounds;
mod estimate;
mod law;
mod remainder;
mod room;

pub use bounds::{Bounds, sum_bounds, sum_bounds_without};
pub use estimate::Estimate;
pub use law::SumLaw;
