//! The log of a store: the changes of the blocks that were replayed, with marks between them.

use crate::state::Change;

#[derive(Clone, Copy)]
pub(crate) enum Entry {
    /// Here a block began.
    Mark,
    /// The object was changed.
    Changed(u16, Change),
}
