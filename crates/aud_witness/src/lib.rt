#![tactic(auto)]
//! Orders of transactions with their fates, the definition of opacity by them, and its laws.
//!
//! For whoever has a well-formed history. `shows` says whether an order shows it, or the first fault of the order; `Placing::root` and `place` take
//! decisions one by one, and `take_back` takes back the last.
//!
//! ```
//! let mut order = Prefix::empty(alloc);
//! order.push(Decision { tx: 1, fate: Fate::C })?;
//! match shows(alloc, &history, &order)? {
//!     Ok(()) => {}
//!     Err(fault) => print(fault.number(), fault.transaction()),
//! }
//! ```

mod agenda;
mod decision;
mod end;
mod fault;
pub mod laws;
mod placing;
mod showing;
mod step;

pub use agenda::{Agenda, allows};
pub use decision::{Decision, Fate, Prefix, add_copy};
pub use fault::OrderFault;
pub use placing::Placing;
pub use showing::shows;
