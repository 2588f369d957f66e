#![tactic(auto)]
//! Histories: events in the order of their stamps, when they are well-formed, and what each transaction is in one.
//!
//! For whoever has the events of a run in their order. `History::checked` takes those that fit the plan; `first_fault` says whether they are
//! well-formed, or at which stamp which rule is broken; `TxTable::of` has a row for each transaction of a well-formed one.
//!
//! ```
//! if let Some(history) = History::checked(plan, events) {
//!     if history.first_fault().is_none() {
//!         for row in TxTable::of(alloc, &history)?.rows() {
//!             print(row.tx(), row.status(), row.block().executions());
//!         }
//!     }
//! }
//! ```

mod history;
pub mod laws;
mod rule;
mod state;
mod status;
mod table;

pub use history::History;
pub use rule::Rule;
pub use state::TxState;
pub use status::Status;
pub use table::{TxRow, TxTable};
