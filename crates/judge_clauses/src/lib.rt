#![tactic(auto)]
//! Refutations by clauses: steps that a search hands over, each of which is checked, so that an accepted list of steps refutes a history.
//!
//! For whoever is handed a refutation, or makes one. `Step::new` is a clause with its reason; `judge` says whether the steps refute a well-formed
//! history, or which step is refused; a new `Law` says by `is_right` whether a clause is an instance of it, of `KnownFacts` (`is_so`, `is_not_so`).
//!
//! ```
//! steps.push(Step::new(clause, Reason::Units(earlier)))?;
//! match judge(alloc, &history, &Refutation { atoms, steps })? {
//!     Judgement::Refutes => {}
//!     Judgement::Refused(step) => print(step),
//! }
//! ```

mod circles;
mod clause;
mod facts;
mod known;
mod law;
mod question;
mod touched;
mod trail;
mod units;
mod values;
mod verdict;

pub use clause::{Atom, Literal, Read, Reason, Refutation, Step, Take};
pub use facts::KnownFacts;
pub use law::Law;
pub use question::Question;
pub use verdict::{Judgement, judge};
