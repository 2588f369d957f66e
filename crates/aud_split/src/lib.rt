#![tactic(auto)]
//! The tasks that a search is split into, a pool of workers that search them, and what their ends say together.
//!
//! For programs that search one history by several threads. `split` gives the tasks below a prefix; `run_pool` has the workers of a node draw
//! and search them, and hands back the passes with who drew what; a cover that has a beginning of each task closes the prefix.
//!
//! ```
//! let tasks = split(alloc, &shape, &Prefix::empty(alloc), 2)?;
//! let end = run_pool(rt, alloc, alloc, &node, passes, Arc::try_clone(&shape)?, tasks, 65_536, &gate)?;
//! ```

mod ends;
mod explorer;
mod fault;
pub mod laws;
mod pool;
mod splitting;

pub use fault::PoolFault;
pub use node_pool::Gate;
pub use pool::{PoolEnd, run_pool, run_pool_with};
pub use splitting::split;
