#![tactic(auto)]
//! What a cover of refuted prefixes closes, and what it leaves open.
//!
//! For whoever divides a search. `Cover::insert` (`aud_lattice`) keeps a refuted prefix; `closed` says whether a prefix needs no search any more;
//! `open_list` gives the prefixes that do, the least first.
//!
//! ```
//! let mut cover = Cover::empty(alloc);
//! cover.insert(refuted.decisions())?;
//! if !closed(alloc, &cover, &shape, &Prefix::empty(alloc))? {
//!     for prefix in open_list(alloc, &cover, &shape)?.iter() {
//!         search(prefix);
//!     }
//! }
//! ```

mod closing;
pub mod laws;
mod opening;

pub use closing::closed;
pub use opening::open_list;
