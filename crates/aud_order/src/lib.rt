#![tactic(auto)]
//! The choices of a history at each prefix, and a cursor over the prefixes that are good.
//!
//! For whoever searches orders himself. `Shape::of` is made once of a sealed well-formed history; `Cursor::root` is at the empty prefix; `push`
//! places a decision if it is good there, `pop` takes back the last, and `kids` lists those that are good.
//!
//! ```
//! let shape = Shape::of(alloc, sealed)?;
//! let mut cursor = Cursor::root(alloc, &shape)?;
//! for decision in cursor.kids(alloc)?.iter() {
//!     if cursor.push(*decision)?.is_good() {
//!         cursor.pop();
//!     }
//! }
//! ```

mod cursor;
pub mod laws;
mod pushed;
mod shape;
mod silent;

pub use cursor::Cursor;
pub use pushed::Pushed;
pub use shape::Shape;
