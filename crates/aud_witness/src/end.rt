//! The end of a transaction.

/// When a completed transaction ended: the stamp of its last event, and the place of its row.
#[derive(Clone, Copy, PartialEq, Eq, PartialOrd, Ord)]
pub(crate) struct End {
    pub last: u32,
    pub row: usize,
}
