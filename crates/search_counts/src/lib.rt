#![tactic(auto)]
//! Orders of transactions that only count, by a beam search (Lowerre, The Harpy speech recognition system, 1976).
//!
//! Each row of such a run sees numbers in some cells, and adds to some when it commits: a counter is a cell, and so is an element of a set, which is
//! in it once or not at all. Where many rows run beside each other, clauses say little of a sum before most of its order is known. So orders are built
//! from the front: of all beginnings of one length those stay that promise most, so many at most. A beginning promises much where little is left that
//! has to be placed soon or that sees other numbers; where rows that see what others leave outweigh each other, as on a walk over the numbers that
//! takes each step once; and where rows are left that add and have not looked, as these fit anywhere.
//!
//! Nothing is said of what is found: whoever asks tries it.
//!
//! ```
//! let found = find(alloc, &rows, &touches, &openings, WEIGHTS[0], Breadth { width: 256, most: 1 << 24 })?;
//! ```

mod beam;
mod board;
mod position;
mod score;

pub use beam::{Breadth, Found, Placed, find};
pub use board::{Row, Touch};
pub use score::{WEIGHTS, Weights};
