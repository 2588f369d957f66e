#![tactic(auto)]
//! The events of a recorded run, the facts of its logs, and the plan that they have to fit.
//!
//! A run is recorded in logs. A log has records, each at a place and with a stamp, and an end mark that says how many
//! records it has. A plan says how many logs there are and which objects the transactions use. Everything above this
//! crate takes facts that passed `Fact::check`.
//!
//! For whoever makes facts himself, or takes them from others. `Plan::new` makes a plan, or says what is wrong with its objects; `Fact::check`
//! says whether a fact fits a plan; `Plan::number` gives the number by which events name an object.
//!
//! ```
//! let plan = Plan::new(alloc, 1, objects)?;
//! if let Some(counter) = plan.number("c") {
//!     let event = Event::Inv(counter, Op::Inc);
//!     let fact = Fact::Rec(Record { log: 0, at: 0, stamp: 0, tx: 1, event });
//!     fact.check(&plan)?;
//! }
//! ```

mod fact;
mod key;
pub mod laws;
pub mod limits;
mod object;
mod plan;
mod signature;

pub use base_values::{Dup, Key, OutOfMemory, Rank};
pub use fact::{EndMark, Event, Fact, FactFault, Record};
pub use object::{Answer, ObjKind, Op, OpName};
pub use plan::{ObjDecl, Plan, PlanFault};
pub use signature::{Args, Format, Gives, KindRow, Opens, Signature, Takes};
