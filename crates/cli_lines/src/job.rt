//! What the program may be asked for.

/// A run over the lines of an input.
#[derive(Debug, Drop)]
pub enum Job {
    /// Whether the order of this text shows the history opaque.
    Check(String),
    /// Whether some order shows the history opaque; with a budget, so far as at most so many expansions show; and whether a certificate is
    /// written where none does.
    Decide(Option<u64>, bool),
    /// Whether the certificate after the records is accepted.
    Verify,
    /// Why no order shows the history opaque, as far as clause learning tells.
    Refute,
    /// Whether the refutation after the records is accepted.
    Confirm,
}

/// An audit: the records are shared out among nodes, whose workers search side by side.
#[derive(Clone, Copy, Debug, PartialEq, Eq)]
pub struct AuditJob {
    /// How many nodes there are, 1 to 8.
    pub nodes: u32,
    /// How many workers each node has, 1 to 16.
    pub workers: u32,
    /// How many expansions the search of each task may take, where the words say so.
    pub budget: Option<u64>,
}

/// What the words ask for.
#[derive(Debug, Drop)]
pub enum Command {
    /// A run over the lines of the input.
    Lines(Job),
    /// An audit of the lines of the input.
    Audit(AuditJob),
}
