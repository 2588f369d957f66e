#![tactic(auto)]
//! Sets of facts of one plan: what contradicts in them, what is missing, and the history of a set that is sealed.
//!
//! For whoever has facts that fit a plan. `Facts::from_vec`, `insert` and `join` gather them; `status` says which of them contradict each other, or
//! what is missing; `seal_or_status` gives the history, where nothing is missing.
//!
//! ```
//! if all_fit(&plan, &list) {
//!     let facts = Facts::from_vec(alloc, plan, list)?;
//!     match facts.seal_or_status()? {
//!         Ok(sealed) => print(sealed.history().first_fault()),
//!         Err(status) => print(status),
//!     }
//! }
//! ```

mod conflict;
mod fact_set;
pub mod laws;
mod placing;
mod scan;
mod sealed;
mod share;
mod status;
mod survey;
mod table;

pub use fact_set::{Facts, all_fit};
pub use sealed::Sealed;
pub use status::{FactStatus, Kind};
