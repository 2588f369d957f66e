//! Runs over the lines of an input.

ghost use Rattle.std.specs.Prelude.{◌≡◌, ◌⊎◌, ◌+◌, ◌<◌, ◌^◌, Ok, IfOk, length};
ghost use Rattle.aud_cert.specs.CertText.{cert_read};
ghost use Rattle.cli_lines.specs.Line.{CertifiedSays, FactsSay, InputSays, Line, RequestSays, RefusesInput, RefusesLine, SetSays};
ghost use Rattle.cli_input.specs.Inputs.{input_read};
ghost use Rattle.cli_lines.specs.Outcomes.{IsLine, RunOutcome};

use crate::ended::{Cause, Ended, end_of};
use crate::evidence::{Evidence, split_input};
use crate::job::Job;
use crate::request::Request;
use aud_cert::{CertTextFault, read_cert_into};
use aud_event::OutOfMemory;
use aud_facts::Facts;
use aud_know::well_formed_history;
use aud_report::{ReadAllFault, Said, Sink, Source, read_all, write_all, write_line};
use aud_text::{TextFault, count_lines, read_order};
use bumpalo::Bump;
use cli_input::{Input, InputFault, read_input, take_input};
use std::alloc::Global;
use std::sync::Arc;

/// What is said of a set of facts where this is asked of their history: their status if they are not sealed, and its first fault
/// if it is not well-formed.
pub fn judge_facts(
    alloc: Global,
    request: Request<'_, '_>,
    facts: &Facts,
) -> Result<Said, OutOfMemory>
    ensures { IfOk result (SetSays (RequestSays request.entry) facts.now.plan facts.now.facts) }
{
    match well_formed_history(facts)? {
        Ok(sealed) => request.answer(alloc, sealed),
        Err(reported) => Ok(Said::Verdict(reported)),
    }
}

fn judge_input(alloc: Global, request: Request<'_, '_>, input: Input) -> Result<Said, OutOfMemory>
    ensures { IfOk result (FactsSay (RequestSays request.entry) input) }
{
    let (plan, list) = input.into_parts();
    let plan = Arc::new(alloc, plan)?;
    let facts = Facts::from_vec(alloc, plan, list)?;
    judge_facts(alloc, request, &facts)
}

/// What is said of an input that is refused.
pub fn refuse_input(fault: InputFault) -> Result<Said, OutOfMemory>
    ensures { IfOk result (RefusesInput fault) }
{
    match fault {
        InputFault::Plan(refused) => Ok(Said::PlanRefused(refused)),
        InputFault::Record(line, fault) => Ok(Said::RecordRefused(line, fault)),
        InputFault::OutOfMemory => Err(OutOfMemory),
    }
}

fn judge(alloc: Global, request: Request<'_, '_>, text: Vec<u8>) -> Result<Said, OutOfMemory>
    ensures { IfOk result (InputSays (RequestSays request.entry) (input_read text.items)) }
{
    match take_input(alloc, text) {
        Ok(input) => judge_input(alloc, request, input),
        Err(fault) => refuse_input(fault),
    }
}

/// What is said where a line of the certificate is refused, which begins after so many lines.
fn refuse_line(lines: usize, refused: CertTextFault) -> Result<Said, OutOfMemory>
    requires { (refused.fault ≡ TextFault.OutOfMemory) ⊎ (lines + refused.line < 2 ^ 64) }
    ensures { IfOk result (RefusesLine lines refused) }
{
    match refused.fault {
        TextFault::OutOfMemory => Err(OutOfMemory),
        fault => Ok(Said::CertificateLineRefused(lines + refused.line, fault)),
    }
}

/// What is said of the facts of an input, by its certificate, which begins after so many lines. The certificate is read into an
/// arena: it holds as many prefixes as there are lines, or twice as many.
fn verify_by(
    alloc: Global,
    input: Input,
    lines: usize,
    certificate: &[u8],
) -> Result<Said, OutOfMemory>
    requires { lines + length certificate.now + 1 < 2 ^ 64 }
    ensures { IfOk result (CertifiedSays lines (Ok input) (cert_read certificate.now)) }
{
    let arena = Bump::new(alloc);
    match read_cert_into(alloc, &arena, certificate) {
        Ok(cert) => judge_input(alloc, Request::Verify(&cert), input),
        Err(refused) => refuse_line(lines, refused),
    }
}

/// What `verify` says of a text.
fn verify(alloc: Global, text: &[u8]) -> Result<Said, OutOfMemory>
    ensures { IfOk result (Line Job.Verify text.now) }
{
    let parts = split_input(alloc, Evidence::Certificate, text)?;
    let before = match &parts {
        Some(parts) => parts.before,
        None => text,
    };
    let input = match read_input(alloc, before) {
        Ok(input) => input,
        Err(fault) => return refuse_input(fault),
    };
    match parts {
        Some(parts) => verify_by(alloc, input, parts.lines, parts.evidence),
        None => Ok(Said::CertificateLineRefused(count_lines(text) + 1, TextFault::KeyMissing)),
    }
}

/// What `confirm` says of a text.
fn confirm(alloc: Global, text: &[u8]) -> Result<Said, OutOfMemory>
    ensures { IfOk result (Line Job.Confirm text.now) }
{
    let parts = split_input(alloc, Evidence::Refutation, text)?;
    let before = match &parts {
        Some(parts) => parts.before,
        None => text,
    };
    let input = match read_input(alloc, before) {
        Ok(input) => input,
        Err(fault) => return refuse_input(fault),
    };
    match parts {
        Some(parts) => {
            let request = Request::Confirm(parts.evidence, parts.lines);
            judge_input(alloc, request, input)
        }
        None => Ok(Said::RefutationLineRefused(count_lines(text) + 1)),
    }
}

/// What the job says of a text.
fn said_of(alloc: Global, job: &Job, text: Vec<u8>) -> Result<Said, OutOfMemory>
    ensures { IfOk result (Line job.now text.items) }
{
    match job {
        Job::Check(order) => match read_order(alloc, order.as_bytes()) {
            Ok(order) => judge(alloc, Request::Check(order), text),
            Err(TextFault::OutOfMemory) => Err(OutOfMemory),
            Err(fault) => Ok(Said::OrderTextRefused(fault)),
        },
        Job::Decide(budget, certifying) => {
            judge(alloc, Request::Decide(*budget, *certifying), text)
        }
        Job::Verify => verify(alloc, text.as_slice()),
        Job::Refute => judge(alloc, Request::Refute, text),
        Job::Confirm => confirm(alloc, text.as_slice()),
    }
}

/// The line that the job says of a text, with its line feed, and after it the certificate or the refutation, if that is asked for; and
/// how the job ends that says it. It takes memory as `run_lines` does, and does not copy the text.
pub fn answer_text(alloc: Global, job: &Job, text: Vec<u8>) -> Result<(Vec<u8>, Ended), OutOfMemory>
    ensures { IfOk result (λ answer. IsLine job.now text.items answer.0.items answer.1) }
{
    let said = said_of(alloc, job, text)?;
    let line = write_line(alloc, &said)?;
    Ok((line, end_of(&said)))
}

/// Reads all that the source has left, and writes the line that the job says of it, and after it the certificate or the refutation, if
/// that is asked for.
///
/// Where it fails a beginning of that went out, and what was read stays read. It takes memory by the size of the text; a search takes
/// up to about 1 GiB more, and a certificate as much as it is long.
pub fn run_lines<R: Source, W: Sink>(
    alloc: Global,
    job: &Job,
    source: &mut R,
    sink: &mut W,
) -> Ended
    requires source { R.ready source.old }
    requires sink { W.ready sink.old }
    ensures { RunOutcome (Line job.now (R.left source.old))
        (record { source_failures = R.failures source.old; sink_failures = W.failures sink.old; held = W.held sink.old })
        (record { source_failures = R.failures source.new; sink_failures = W.failures sink.new; held = W.held sink.new })
        result }
{
    let text = match read_all(alloc, source) {
        Ok(text) => text,
        Err(ReadAllFault::Failed) => return Ended::Failed(Cause::Input),
        Err(ReadAllFault::OutOfMemory) => return Ended::Failed(Cause::Memory),
    };
    let Ok((line, end)) = answer_text(alloc, job, text) else {
        return Ended::Failed(Cause::Memory);
    };
    match write_all(sink, line.as_slice()) {
        Ok(()) => end,
        Err(_) => Ended::Failed(Cause::Output),
    }
}
