#![tactic(auto)]
//! The prefixes of lines that were accepted, where they lead, and whether they refute another prefix: as it is not full and all its kids are
//! among them, as it is among them with a good decision of a silent transaction after it, or as one of them places the same transactions and
//! leaves the same states.

mod earlier;
mod landing;
mod moving;
mod prefix_key;
mod resting;

pub use earlier::Earlier;
pub use landing::Landing;
pub use moving::go_to;
pub use resting::{has_kids, has_same, has_silent};
