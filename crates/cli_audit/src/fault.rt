//! Why an audit is not carried out.

ghost use Rattle.cli_audit.specs.Lines.{IsOfAudit};

use aud_event::OutOfMemory;
use cli_lines::Cause;

/// Why an audit is not carried out.
#[derive(Clone, Copy, PartialEq, Eq)]
pub(crate) enum AuditFault {
    OutOfMemory,
    /// A reader's place at a node was not to be had.
    NoThread,
}

impl From<OutOfMemory> for AuditFault {
    ghost use Rattle.std.specs.Prelude.{◌≡◌};
    ghost use Rattle.cli_audit.specs.declared.fault.AuditFault.TheVariants as fault;

    ghost from_gives = { λ _ made. made ≡ fault.OutOfMemory };

    fn from(_error: OutOfMemory) -> AuditFault {
        AuditFault::OutOfMemory
    }
}

impl AuditFault {
    /// What the run failed for.
    pub(crate) fn cause(self) -> Cause
        ensures { IsOfAudit result }
    {
        match self {
            AuditFault::OutOfMemory => Cause::Memory,
            AuditFault::NoThread => Cause::Thread,
        }
    }
}
