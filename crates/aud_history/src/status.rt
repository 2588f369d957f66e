//! What became of a transaction.

/// What became of a transaction in a history.
#[derive(Clone, Copy, Debug, PartialEq, Eq)]
pub enum Status {
    /// The history has its commit.
    Committed,
    /// The history has its abort.
    Aborted,
    /// It asked to commit, and neither happened.
    CommitPending,
    /// None of these.
    Live,
}
