//! How a list stands to a cover.

/// How a list stands to a cover.
#[derive(Clone, Copy, Debug, PartialEq, Eq)]
pub enum Mark {
    /// A beginning of the list is a member; the list itself counts.
    Covered,
    /// A proper beginning of a member, and not covered.
    Inner,
    /// Neither: no beginning of the list is a member, and it begins none.
    Outside,
}
