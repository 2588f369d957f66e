#![tactic(auto)]
//! A source and a sink for tests of what reads and writes: `DrippingSource` gives a byte a read, `ChokingSink` takes a byte a write, and
//! each fails where it is told to. Only tests stand on this crate.

mod faulty;

pub use faulty::{ChokingSink, DrippingSource};
