#![tactic(auto)]
//! Items of lists by their places, for searches of which nothing is proved but that they end.
//!
//! Such a search keeps its tables in flat lists, and where a place is none there is nothing to do: `at` and `range` then give what the caller says,
//! or nothing, and `set` does nothing. So no caller has to prove that a place is one. `push` meets want of memory once for all lists.
//! A `Table` has its items and what it reads as beyond them, and notes a growth that was refused: its search asks for that in the end.
//!
//! ```
//! let mut counts = Table::new(alloc, 0);
//! counts.fill(8);
//! counts.set(3, counts.at(2) + 1);
//! if counts.is_short() {
//!     return Err(OutOfMemory);
//! }
//! ```

mod lists;
mod table;

pub use lists::{NONE, at, push, range, set, short};
pub use table::Table;
