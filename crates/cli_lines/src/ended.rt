//! How a run ends.

ghost use Rattle.std.specs.Prelude.{◌≡◌};
ghost use Rattle.cli_lines.specs.Outcomes.{ended_by, exit_status_of, message, verdict_ends};

use aud_know::Verdict;
use aud_report::Said;

/// What a run failed for.
#[derive(Clone, Copy, Debug, PartialEq, Eq)]
pub enum Cause {
    Memory,
    /// The source failed.
    Input,
    /// The sink failed.
    Output,
    /// A node had no place for a reader. (Where a thread is not to be had, its work is done in turn.)
    Thread,
}

impl Cause {
    /// The line for standard error.
    pub fn text(self) -> &'static str
        ensures { result.now ≡ message self }
    {
        match self {
            Cause::Memory => "opaq: out of memory\n",
            Cause::Input => "opaq: input failed\n",
            Cause::Output => "opaq: output failed\n",
            Cause::Thread => "opaq: no thread\n",
        }
    }
}

/// How a run ends.
#[derive(Clone, Copy, Debug, PartialEq, Eq)]
pub enum Ended {
    /// An order shows the history opaque.
    Opaque,
    /// No order does.
    NotOpaque,
    /// The search ended before it knew.
    Unfinished,
    /// The input, the history, the order, the certificate or the refutation is refused.
    Refused,
    Failed(Cause),
}

impl Ended {
    /// The exit status of the program, 0 to 4.
    pub fn status(self) -> u8
        ensures { result ≡ exit_status_of self }
    {
        match self {
            Ended::Opaque => 0,
            Ended::NotOpaque => 1,
            Ended::Unfinished => 2,
            Ended::Refused => 3,
            Ended::Failed(_) => 4,
        }
    }
}

/// How a run ends that says this verdict.
fn end_of_verdict(verdict: &Verdict) -> Ended
    ensures { result ≡ verdict_ends verdict.now }
{
    match verdict {
        Verdict::Opaque(_) => Ended::Opaque,
        Verdict::NotOpaque => Ended::NotOpaque,
        Verdict::Unfinished => Ended::Unfinished,
        Verdict::Conflict(_, _, _)
        | Verdict::Waiting(_)
        | Verdict::Gap(_)
        | Verdict::IllFormed(_, _) => Ended::Refused,
    }
}

/// How a run ends that says this.
pub fn end_of(said: &Said) -> Ended
    ensures { result ≡ ended_by said.now }
{
    match said {
        Said::Verdict(verdict) => end_of_verdict(verdict),
        Said::OrderRefused(_)
        | Said::OrderTextRefused(_)
        | Said::PlanRefused(_)
        | Said::RecordRefused(_, _)
        | Said::CertificateLineRefused(_, _)
        | Said::CertificateRefused
        | Said::RefutationLineRefused(_) => Ended::Refused,
        Said::Certified(_) | Said::Refuted(_) => Ended::NotOpaque,
    }
}
