//! The report of a verdict.

ghost use Rattle.std.specs.Prelude.{◌≡◌, ◌+◌, ◌++◌, Err, OnOk, IfOk};
ghost use Rattle.aud_report.specs.Devices.{BeginsOnly};
ghost use Rattle.aud_report.specs.Lines.{report_fault_number, verdict_line};

use crate::device::{Sink, write_all};
use crate::said::push_verdict;
use aud_event::OutOfMemory;
use aud_know::Verdict;
use std::alloc::Allocator;

/// Why no whole report was written.
#[derive(Clone, Copy, Debug, PartialEq, Eq)]
pub enum ReportFault {
    /// The sink failed, and a beginning of the line went out.
    OutputFailed,
    /// There was no memory for the line, and nothing went out.
    OutOfMemory,
}

impl ReportFault {
    /// The fault's number, 1 or 2.
    pub fn number(&self) -> u32
        ensures { result ≡ report_fault_number self.now }
    {
        match self {
            ReportFault::OutputFailed => 1,
            ReportFault::OutOfMemory => 2,
        }
    }
}

fn verdict_text<A: Allocator + Clone + Drop, B: Allocator>(
    alloc: A,
    verdict: &Verdict<B>,
) -> Result<Vec<u8, A>, OutOfMemory>
    ensures { IfOk result (λ text. text.items ≡ verdict_line verdict.now) }
{
    let mut text = Vec::new(alloc.clone()?);
    push_verdict(alloc, &mut text, verdict)?;
    text.push(b'\n')?;
    Ok(text)
}

/// Writes the line of the verdict, and nothing else. It is the line that a run prints which says this verdict.
pub fn write_report<A: Allocator + Clone + Drop, B: Allocator, W: Sink>(
    alloc: A,
    verdict: &Verdict<B>,
    sink: &mut W,
) -> Result<(), ReportFault>
    requires { W.ready sink.old }
    ensures ok { OnOk result (W.held sink.new ≡ W.held sink.old ++ verdict_line verdict.now) }
    ensures kept { OnOk result (W.failures sink.new ≡ W.failures sink.old) }
    // A failed write leaves a beginning of the line.
    ensures cut { result ≡ Err ReportFault.OutputFailed → BeginsOnly (W.held sink.old) (W.held sink.new) (verdict_line verdict.now) }
    ensures failed { result ≡ Err ReportFault.OutputFailed → W.failures sink.new ≡ W.failures sink.old + 1 }
    // Running out of memory leaves the sink as it was.
    ensures nothing { result ≡ Err ReportFault.OutOfMemory → W.held sink.new ≡ W.held sink.old }
    ensures memory { result ≡ Err ReportFault.OutOfMemory → W.failures sink.new ≡ W.failures sink.old }
{
    let Ok(text) = verdict_text(alloc, verdict) else {
        return Err(ReportFault::OutOfMemory);
    };
    match write_all(sink, text.as_slice()) {
        Ok(()) => Ok(()),
        Err(_) => Err(ReportFault::OutputFailed),
    }
}
