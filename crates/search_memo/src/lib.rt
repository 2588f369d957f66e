#![tactic(auto)]
//! What a search remembers of the prefixes that it refuted, what threads share of that, and the choices of a history in the order in which
//! a search tries them.

mod choice;
mod digests;
mod memo;
mod recorder;
mod shared;
mod stored_states;

pub use choice::{Choice, Order, Visibility, choices_of};
pub use memo::{LARGEST_SEEN, Memo};
pub use recorder::{Recorder, RefutedBy, Unnoted, Unrecorded};
pub use search_visited::BOUND;
pub use shared::{ROWS_MAX, Scene, Shared, Sharing};
