//! A step of a placing.

/// What a placed decision changed: the row placed, whether its block stays replayed, and how many of the earliest ends
/// were placed before it.
#[derive(Clone, Copy, PartialEq, Eq)]
pub(crate) struct PlacedRow {
    pub row: usize,
    pub is_kept: bool,
    pub earliest: usize,
}
