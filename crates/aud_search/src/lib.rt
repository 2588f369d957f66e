#![tactic(auto)]
//! Whether a history is opaque, and whether some order that begins with a prefix shows it.
//!
//! For whoever has a sealed well-formed history. `decide` answers for the whole, with an order that shows it; `explore` within a budget, for
//! the orders that begin with a prefix; a `Session` does so again and again, and remembers what it refuted; `learn` by clauses alone, with a
//! refutation that can be handed on.
//!
//! ```
//! let shape = Shape::of(alloc, sealed)?;
//! match decide(alloc, &shape)? {
//!     Decided::Opaque(order) => print(&order),
//!     Decided::NotOpaque => {}
//! }
//! ```

mod deciding;
mod learning;
mod searches;

pub use deciding::{LONG, decide};
pub use learning::{Effort, Learned, learn};
pub use search_memo::{Recorder, Scene, Shared};
pub use search_prefix::{Decided, Outcome, Searched, explore, search_with};
pub use searches::Session;
