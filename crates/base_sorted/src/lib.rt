#![tactic(auto)]
//! Lists in order, each item once: what sets are seen as.
//!
//! For whoever builds a set of many items at once, or says what a set holds. `arranged` brings items into their order and drops what comes again. What
//! contracts say of sets stands in `specs/`, with no tree: `has`, `with_item`, `union`, `without` and `inserted` are of lists.
//!
//! ```
//! let all = arranged(items)?;
//! ```

mod sorting;

pub use sorting::arranged;
