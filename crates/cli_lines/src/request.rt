//! What is asked of a well-formed history, and its answer.

ghost use Rattle.std.specs.Prelude.{IfOk, None, Some, map, true};
ghost use Rattle.aud_history.specs.WellFormed.{IsWellFormed};
ghost use Rattle.cert_accept.specs.Acceptance.{elsewhere};
ghost use Rattle.cli_lines.specs.Line.{CheckSays, ConfirmSays, DecideSays, NoneSays, RefuteSays, VerifySays, RequestSays};
ghost use Rattle.aud_witness.specs.Orders.{Opaque};

use aud_cert::{Cert, check_cert, make_cert};
use aud_event::OutOfMemory;
use aud_facts::Sealed;
use aud_history::History;
use aud_know::Verdict;
use aud_order::Shape;
use aud_report::Said;
use aud_search::{Decided, LONG, Learned, Outcome, decide, explore, learn};
use aud_witness::{Prefix, shows};
use bumpalo::Bump;
use judge_clauses::{Judgement, judge};
use judge_text::{EvidenceFault, read_refutation, write_refutation};
use std::alloc::{Allocator, Global};
use std::sync::Arc;

/// What is asked of a history.
#[derive(Drop)]
pub enum Request<'q, 'l> {
    /// Whether this order shows it.
    Check(Prefix),
    /// Whether any order does, perhaps with a budget, and with a certificate where none does or without.
    Decide(Option<u64>, bool),
    /// Whether the certificate that none does is accepted.
    Verify(&'q Cert<&'l Bump>),
    /// Why none does, as far as clause learning tells.
    Refute,
    /// Whether the refutation of this text, which begins after so many lines, is accepted.
    Confirm(&'q [u8], usize),
}

fn answer_check(alloc: Global, order: Prefix, history: &History) -> Result<Said, OutOfMemory>
    requires { IsWellFormed history.now.events }
    ensures { IfOk result (CheckSays order history.now.plan history.now.events) }
{
    match shows(alloc, history, &order)? {
        Ok(()) => Ok(Said::Verdict(Verdict::Opaque(order))),
        Err(fault) => Ok(Said::OrderRefused(fault)),
    }
}

fn answer_explore(
    alloc: Global,
    budget: u64,
    certifying: bool,
    shape: &Shape,
) -> Result<Said, OutOfMemory>
    ensures { IfOk result (DecideSays (Some budget) certifying shape.now.sealed.facts.plan shape.now.sealed.history) }
{
    match explore(alloc, shape, &Prefix::empty(alloc), budget)? {
        Outcome::Witness(order) => Ok(Said::Verdict(Verdict::Opaque(order))),
        Outcome::Refuted => said_of_none(alloc, certifying, shape),
        Outcome::Spent => Ok(Said::Verdict(Verdict::Unfinished)),
    }
}

/// A certificate that no order shows the history.
fn certified(alloc: Global, shape: &Shape) -> Result<Said, OutOfMemory>
    requires { Opaque shape.now.sealed.facts.plan.objects shape.now.sealed.history → ⊥ }
    ensures { IfOk result (NoneSays true shape.now.sealed.facts.plan shape.now.sealed.history) }
{
    match make_cert(alloc, shape)? {
        Some(cert) => Ok(Said::Certified(cert)),
        None => unreachable!(),
    }
}

/// What is said where no order shows the history: with a certificate, or without.
fn said_of_none(alloc: Global, certifying: bool, shape: &Shape) -> Result<Said, OutOfMemory>
    requires { Opaque shape.now.sealed.facts.plan.objects shape.now.sealed.history → ⊥ }
    ensures { IfOk result (NoneSays certifying shape.now.sealed.facts.plan shape.now.sealed.history) }
{
    if certifying {
        certified(alloc, shape)
    } else {
        Ok(Said::Verdict(Verdict::NotOpaque))
    }
}

fn answer_decide(alloc: Global, certifying: bool, shape: &Shape) -> Result<Said, OutOfMemory>
    ensures { IfOk result (DecideSays None certifying shape.now.sealed.facts.plan shape.now.sealed.history) }
{
    match decide(alloc, shape)? {
        Decided::Opaque(order) => Ok(Said::Verdict(Verdict::Opaque(order))),
        Decided::NotOpaque => said_of_none(alloc, certifying, shape),
    }
}

fn answer_verify<A: Allocator>(
    alloc: Global,
    cert: &Cert<A>,
    shape: &Shape,
) -> Result<Said, OutOfMemory>
    ensures { IfOk result (VerifySays (map elsewhere cert.now.lines.items) shape.now.sealed.facts.plan shape.now.sealed.history) }
{
    if check_cert(alloc, shape, cert)? {
        Ok(Said::Verdict(Verdict::NotOpaque))
    } else {
        Ok(Said::CertificateRefused)
    }
}

/// What clause learning tells, with the lines of a refutation where it refutes.
fn answer_refute(alloc: Global, shape: &Shape) -> Result<Said, OutOfMemory>
    ensures { IfOk result (RefuteSays shape.now.sealed.facts.plan shape.now.sealed.history) }
{
    match learn(alloc, shape, LONG)? {
        Learned::Opaque(order) => Ok(Said::Verdict(Verdict::Opaque(order))),
        Learned::NotOpaque(refutation) => {
            let lines = write_refutation(alloc, shape.plan(), &refutation)?;
            Ok(Said::Refuted(lines))
        }
        Learned::Unknown => Ok(Said::Verdict(Verdict::Unfinished)),
    }
}

/// What is said of the refutation, which begins after so many lines of the input.
fn answer_confirm(
    alloc: Global,
    text: &[u8],
    lines: usize,
    shape: &Shape,
) -> Result<Said, OutOfMemory>
    ensures { IfOk result (ConfirmSays shape.now.sealed.facts.plan shape.now.sealed.history) }
{
    let read = match read_refutation(alloc, shape.plan(), text) {
        Ok(read) => read,
        Err(EvidenceFault::OutOfMemory) => return Err(OutOfMemory),
        Err(EvidenceFault::Line(line)) => {
            return Ok(Said::RefutationLineRefused(lines.saturating_add(line)));
        }
    };
    let history = shape.history();
    match judge(alloc, history, &read.refutation)? {
        Judgement::Refutes => Ok(Said::Verdict(Verdict::NotOpaque)),
        Judgement::Refused(step) => {
            let line = read.line_of(step);
            Ok(Said::RefutationLineRefused(lines.saturating_add(line)))
        }
    }
}

impl<'q, 'l> Request<'q, 'l> {
    /// The answer for a sealed set whose history is well-formed.
    pub fn answer(self, alloc: Global, sealed: Arc<Sealed>) -> Result<Said, OutOfMemory>
        requires { IsWellFormed sealed.value.history }
        ensures { IfOk result (RequestSays self.entry sealed.value.facts.plan sealed.value.history) }
    {
        match self {
            Request::Check(order) => answer_check(alloc, order, sealed.history()),
            Request::Decide(None, certifying) => {
                let shape = Shape::of(alloc, sealed)?;
                answer_decide(alloc, certifying, &shape)
            }
            Request::Decide(Some(budget), certifying) => {
                let shape = Shape::of(alloc, sealed)?;
                answer_explore(alloc, budget, certifying, &shape)
            }
            Request::Verify(cert) => {
                let shape = Shape::of(alloc, sealed)?;
                answer_verify(alloc, cert, &shape)
            }
            Request::Refute => {
                let shape = Shape::of(alloc, sealed)?;
                answer_refute(alloc, &shape)
            }
            Request::Confirm(text, lines) => {
                let shape = Shape::of(alloc, sealed)?;
                answer_confirm(alloc, text, lines, &shape)
            }
        }
    }
}
