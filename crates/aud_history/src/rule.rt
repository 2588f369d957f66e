//! The rules of a well-formed history, by number.

ghost use Rattle.std.specs.Prelude.{◌≡◌};
ghost use Rattle.aud_history.specs.ByState.{rule_number};

/// What an event does wrong where a history stops being well-formed.
#[derive(Clone, Copy, Debug, PartialEq, Eq)]
pub enum Rule {
    /// Its transaction is committed or aborted.
    AfterEnd,
    /// It invokes while an invocation is pending.
    InvWhilePending,
    /// It answers, and no invocation is pending.
    RetWithoutInv,
    /// It answers another operation than the pending one, or on another object.
    RetMismatch,
    /// It asks to commit or abort while an invocation is pending.
    TryWhilePending,
    /// Its transaction asked to commit or abort, and this is no end.
    AfterTry,
    /// It commits, and its transaction did not ask to.
    CommitWithoutTry,
    /// It aborts, and nothing is pending that may be aborted.
    AbortWithoutCause,
}

impl Rule {
    /// The rule's number, 1 to 8, as it is printed.
    pub fn number(&self) -> u32
        ensures { result ≡ rule_number self.now }
    {
        match self {
            Rule::AfterEnd => 1,
            Rule::InvWhilePending => 2,
            Rule::RetWithoutInv => 3,
            Rule::RetMismatch => 4,
            Rule::TryWhilePending => 5,
            Rule::AfterTry => 6,
            Rule::CommitWithoutTry => 7,
            Rule::AbortWithoutCause => 8,
        }
    }
}
