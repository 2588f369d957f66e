#![tactic(auto)]
//! What is kept so that each change of it can be taken back with no memory: values under keys, and the items of a queue.
//!
//! A key whose value was taken stays, with none, and an item that left stays before the front. What changed is a small value
//! that can be copied: a `TombstoneChange`, or an `ItemsChange`. Both have an order and a digest, which are of what means
//! something now, and not of what is kept beside it.
//!
//! For whoever runs what may have to be undone.
//!
//! ```
//! let mut map = TombstoneMap::new(alloc);
//! let change = map.put(7, 1)?;
//! map.back(change);
//! ```

mod digest;
mod items;
mod tombstone_map;
mod value;

pub use digest::stir;
pub use items::{Items, ItemsChange};
pub use tombstone_map::{TombstoneChange, TombstoneMap};
pub use value::Value;
