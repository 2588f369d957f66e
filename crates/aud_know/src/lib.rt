#![tactic(auto)]
//! What a node knows of a run: the facts it took, the prefixes that are refuted, and a witness.
//!
//! For whoever gathers what others found. `Knowledge::empty` knows nothing; `take` takes a fact, a finding, or what another one knows, and `join`
//! the last alone; `verdict` is what may be said of the run; `beyond` is what another one has not.
//!
//! ```
//! let mut known = Knowledge::empty(alloc, plan)?;
//! known.take(&Item::Fact(fact))?;
//! known.take_finding(&Finding::refuted(shape, prefix))?;
//! known.join(&other)?;
//! match known.verdict()? {
//!     Verdict::Opaque(order) => print(&order),
//!     Verdict::NotOpaque => {}
//!     _ => {}
//! }
//! ```

mod claim;
mod fault;
mod finding;
mod item;
mod judge;
mod knowledge;
pub mod laws;
mod parts;
mod reading;
mod verdict;

pub use claim::Claim;
pub use fault::KnowFault;
pub use finding::Finding;
pub use item::Item;
pub use knowledge::Knowledge;
pub use reading::well_formed_history;
pub use verdict::Verdict;
