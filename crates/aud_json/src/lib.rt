#![tactic(auto)]
//! Facts as JSON values: the fact that a value says in a plan, or the least fault that it deserves.
//!
//! For whoever has such a value, and for whoever reads others. `judge` answers the fact; `has_required` and `has_only_allowed` say which keys stand,
//! `whole_if_there` and `text_if_there` of which types their values are, and `small_of`, `whole_of` and `word_of` what stands at a key. Faults are
//! counted: a value with several gets the one with the least `number`.
//!
//! ```
//! match judge(&plan, &value) {
//!     Ok(fact) => take(fact),
//!     Err(fault) => print(fault.number()),
//! }
//! ```

mod fact;
mod fault;
mod shape;
mod value;

pub use fact::judge;
pub use fault::TextFault;
pub use value::{
    has_only_allowed, has_required, small_of, text_if_there, whole_if_there, whole_of, word_of,
};
