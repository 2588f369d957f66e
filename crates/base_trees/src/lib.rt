#![tactic(auto)]
//! Sorted trees that share their nodes: a changed tree keeps of the old one what it did not change, and both stay.
//!
//! For whoever makes a set that grows while others keep what it was. A `Link` is such a tree, or none, seen as its items from left to right. `with`
//! puts an item in, `contains` looks one up, `joined` has the items of two trees, `without` those of one that the other has not: these ask for trees
//! whose items stand in their order, each once, and keep that order. `tree_of` makes one at once, of items that `arranged` (`base_sorted`) brought into
//! their order; `all_of` walks over all that are there, and `shared` makes one more owner of a tree.
//!
//! ```
//! let old = tree_of(alloc, arranged(items)?)?;
//! let both = joined(alloc, &old, &other)?;
//! for item in all_of(&both) {
//!     print(item);
//! }
//! ```

mod bulk;
mod copies;
mod iter;
mod link;
mod merge;
mod ranking;
mod tree;

pub use bulk::tree_of;
pub use copies::copied;
pub use iter::{Iter, all_of};
pub use merge::{joined, same, without};
pub use ranking::ranked;
pub use tree::{Link, Tree, contains, count, shared, with};
