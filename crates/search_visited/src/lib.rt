#![tactic(auto)]
//! Where a search found nothing, kept in as much memory as it is given.
//!
//! Such a search places rows one after another, and numbers the states that it comes to. A prefix is what it placed so far; it is refuted once
//! nothing that begins with it is what is searched for. Its configuration is the number of the states after it, with a mark for each row that it
//! placed. A `VisitedSet` keeps configurations of refuted prefixes, as words, and finds one of them by its hash: that with the same number and the
//! same marks. It may miss one that it keeps, and forgets the older half when it is told to: the search then goes there once more.
//!
//! For whoever writes such a search. It counts in bytes how much memory is left to it, as `room`; the searches of a run have `BOUND` together.
//! `keep`, `put`, `reserve` and `take` take from the room before anything is allocated, and do nothing where it is too small. `Index` has the places
//! of other things under their hashes; whoever looks there compares.
//!
//! ```
//! let mut visited = VisitedSet::new(alloc);
//! if visited.find(states, &placed, None).is_none() {
//!     let _is_kept = visited.keep(states, &placed, &mut room);
//! }
//! ```

mod index;
mod room;
mod visited_set;

pub use index::{Index, Look, hash_of, spread};
pub use room::{BOUND, give_back, reserve, take};
pub use visited_set::{VisitedSet, forget_first, with_further};
