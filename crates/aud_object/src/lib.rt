#![tactic(auto)]
//! The states of all objects of a plan.
//!
//! A `Store` runs the block of a transaction on all objects at once and takes it back; that its answer is legality, by the
//! tables of `aud_kinds`, is the contract of the functions in `laws`.
//!
//! For whoever runs transactions on the objects of a plan. `Store::opening` has them as they open; `replay` runs a block if each of its recorded
//! answers is the object's, and says so; `undo` takes the last block back.
//!
//! ```
//! let mut block = Block::empty(alloc);
//! block.invoke(Invocation { object: 0, op: Op::Read });
//! block.answer(Answer::Int(7))?;
//! let mut store = Store::opening(alloc, &plan)?;
//! if store.replay(&block)? {
//!     store.undo();
//! }
//! ```

mod block;
mod execution;
pub mod laws;
mod log;
mod number;
mod state;
mod store;

pub use block::Block;
pub use execution::{Execution, Invocation};
pub use number::Number;
pub use store::Store;
