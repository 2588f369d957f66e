//! What a run says, and the one line that says it.

ghost use Rattle.std.specs.Prelude.{◌≡◌, ◌++◌, OnOk, IfOk, codes};
ghost use Rattle.aud_text.specs.Orders.{order_text};
ghost use Rattle.aud_report.specs.Lines.{fault_text, conflict_words, ill_formed_words, verdict_words, words_of, evidence_of, line_of};

use aud_cert::{Cert, write_cert};
use aud_event::OutOfMemory;
use aud_facts::Kind;
use aud_history::Rule;
use aud_know::Verdict;
use aud_text::{PlanTextFault, TextFault, write_order};
use aud_witness::{OrderFault, Prefix};
use itoa::{Buffer, Integer};
use std::alloc::{Allocator, Global};

/// What a run says of its input. Each has one line.
#[derive(Debug, Drop)]
pub enum Said {
    /// The verdict on the facts. `Unfinished` is said where the search ended before it knew.
    Verdict(Verdict),
    /// The order does not show the history.
    OrderRefused(OrderFault),
    /// The text of the order is none.
    OrderTextRefused(TextFault),
    /// The input does not begin with a plan.
    PlanRefused(PlanTextFault),
    /// A line after the plan is no record or end mark. Lines are counted over the whole input, from 1.
    RecordRefused(usize, TextFault),
    /// A line of the certificate is refused. Lines are counted over the whole input, from 1.
    CertificateLineRefused(usize, TextFault),
    /// The certificate is not accepted.
    CertificateRefused,
    /// No order shows the history, and the certificate says why.
    Certified(Cert),
    /// No order shows the history, and the lines of a refutation say why.
    Refuted(Vec<u8>),
    /// A line of the refutation is refused. Lines are counted over the whole input, from 1.
    RefutationLineRefused(usize),
}

fn push_words<A: Allocator>(text: &mut Vec<u8, A>, words: &str) -> Result<(), OutOfMemory>
    ensures { OnOk result (text.new.items ≡ text.old.items ++ words.now) }
{
    text.extend_from_slice(words.as_bytes())?;
    Ok(())
}

fn push_number<A: Allocator, I: Integer>(
    text: &mut Vec<u8, A>,
    words: &str,
    number: I,
) -> Result<(), OutOfMemory>
    ensures { OnOk result (text.new.items ≡ text.old.items ++ (words.now ++ I.text number)) }
{
    let mut buffer = Buffer::new();
    push_words(text, words)?;
    text.extend_from_slice(buffer.format(number).as_bytes())?;
    Ok(())
}

fn push_fault<A: Allocator>(
    text: &mut Vec<u8, A>,
    words: &str,
    fault: TextFault,
) -> Result<(), OutOfMemory>
    ensures { OnOk result (text.new.items ≡ text.old.items ++ (words.now ++ fault_text fault)) }
{
    push_number(text, words, fault.number())?;
    match fault.inner_number() {
        Some(inner) => push_number(text, " ", inner),
        None => Ok(()),
    }
}

fn push_two<A: Allocator, I: Integer, J: Integer>(
    text: &mut Vec<u8, A>,
    words: &str,
    first: I,
    between: &str,
    second: J,
) -> Result<(), OutOfMemory>
    ensures { OnOk result (text.new.items ≡ text.old.items ++ (words.now ++ I.text first ++ between.now ++ J.text second)) }
{
    push_number(text, words, first)?;
    push_number(text, between, second)?;
    Ok(())
}

fn push_conflict<A: Allocator>(
    text: &mut Vec<u8, A>,
    kind: Kind,
    log: u32,
    place: u32,
) -> Result<(), OutOfMemory>
    ensures { OnOk result (text.new.items ≡ text.old.items ++ conflict_words kind log place) }
{
    let number = kind.number();
    push_two(text, "conflict ", number, " at log ", log)?;
    push_number(text, " place ", place)?;
    Ok(())
}

fn push_ill_formed<A: Allocator>(
    text: &mut Vec<u8, A>,
    stamp: u32,
    rule: Rule,
) -> Result<(), OutOfMemory>
    ensures { OnOk result (text.new.items ≡ text.old.items ++ ill_formed_words stamp rule) }
{
    let number = rule.number();
    push_two(text, "ill-formed rule ", number, " at stamp ", stamp)?;
    Ok(())
}

fn push_order_fault<A: Allocator>(
    text: &mut Vec<u8, A>,
    fault: OrderFault,
) -> Result<(), OutOfMemory>
    ensures { OnOk result (text.new.items ≡ text.old.items ++ words_of (Said.OrderRefused fault)) }
{
    let number = fault.number();
    let tx = fault.transaction();
    push_two(text, "order refused ", number, " tx ", tx)?;
    Ok(())
}

fn push_plan_fault<A: Allocator>(
    text: &mut Vec<u8, A>,
    refused: PlanTextFault,
) -> Result<(), OutOfMemory>
    ensures { OnOk result (text.new.items ≡ text.old.items ++ words_of (Said.PlanRefused refused)) }
{
    push_number(text, "plan line ", refused.line)?;
    push_fault(text, " refused ", refused.fault)?;
    Ok(())
}

fn push_record_fault<A: Allocator>(
    text: &mut Vec<u8, A>,
    line: usize,
    fault: TextFault,
) -> Result<(), OutOfMemory>
    ensures { OnOk result (text.new.items ≡ text.old.items ++ words_of (Said.RecordRefused line fault)) }
{
    push_number(text, "record line ", line)?;
    push_fault(text, " refused ", fault)?;
    Ok(())
}

fn push_certificate_fault<A: Allocator>(
    text: &mut Vec<u8, A>,
    line: usize,
    fault: TextFault,
) -> Result<(), OutOfMemory>
    ensures { OnOk result (text.new.items ≡ text.old.items ++ words_of (Said.CertificateLineRefused line fault)) }
{
    push_number(text, "certificate line ", line)?;
    push_fault(text, " refused ", fault)?;
    Ok(())
}

fn push_refutation_fault<A: Allocator>(
    text: &mut Vec<u8, A>,
    line: usize,
) -> Result<(), OutOfMemory>
    ensures { OnOk result (text.new.items ≡ text.old.items ++ words_of (Said.RefutationLineRefused line)) }
{
    push_number(text, "refutation line ", line)?;
    push_words(text, " refused")?;
    Ok(())
}

fn push_opaque<A: Allocator + Clone + Drop, B: Allocator>(
    alloc: A,
    text: &mut Vec<u8, A>,
    order: &Prefix<B>,
) -> Result<(), OutOfMemory>
    ensures { OnOk result (text.new.items ≡ text.old.items ++ (codes "opaque " ++ order_text order.now)) }
{
    let order = write_order(alloc, order)?;
    push_words(text, "opaque ")?;
    text.extend_from_slice(order.as_slice())?;
    Ok(())
}

pub(crate) fn push_verdict<A: Allocator + Clone + Drop, B: Allocator>(
    alloc: A,
    text: &mut Vec<u8, A>,
    verdict: &Verdict<B>,
) -> Result<(), OutOfMemory>
    ensures { OnOk result (text.new.items ≡ text.old.items ++ verdict_words verdict.now) }
{
    match verdict {
        Verdict::Conflict(kind, log, place) => push_conflict(text, *kind, *log, *place),
        Verdict::Waiting(log) => push_number(text, "waiting for log ", *log),
        Verdict::Gap(stamp) => push_number(text, "gap at stamp ", *stamp),
        Verdict::IllFormed(stamp, rule) => push_ill_formed(text, *stamp, *rule),
        Verdict::Opaque(order) => push_opaque(alloc, text, order),
        Verdict::NotOpaque => push_words(text, "not opaque"),
        Verdict::Unfinished => push_words(text, "unfinished"),
    }
}

fn push_said<A: Allocator + Clone + Drop>(
    alloc: A,
    text: &mut Vec<u8, A>,
    said: &Said,
) -> Result<(), OutOfMemory>
    ensures { OnOk result (text.new.items ≡ text.old.items ++ words_of said.now) }
{
    match said {
        Said::Verdict(verdict) => push_verdict(alloc, text, verdict),
        Said::OrderRefused(fault) => push_order_fault(text, *fault),
        Said::OrderTextRefused(fault) => push_fault(text, "order text refused ", *fault),
        Said::PlanRefused(refused) => push_plan_fault(text, *refused),
        Said::RecordRefused(line, fault) => push_record_fault(text, *line, *fault),
        Said::CertificateLineRefused(line, fault) => push_certificate_fault(text, *line, *fault),
        Said::CertificateRefused => push_words(text, "certificate refused"),
        Said::Certified(_) => push_words(text, "not opaque"),
        Said::Refuted(_) => push_words(text, "not opaque"),
        Said::RefutationLineRefused(line) => push_refutation_fault(text, *line),
    }
}

/// Adds the text of the certificate.
fn push_certificate<A: Allocator + Copy>(
    alloc: A,
    text: &mut Vec<u8, A>,
    cert: &Cert,
) -> Result<(), OutOfMemory>
    ensures { OnOk result (text.new.items ≡ text.old.items ++ evidence_of (Said.Certified cert.now)) }
{
    let lines = write_cert(alloc, cert)?;
    text.extend_from_slice(&lines)?;
    Ok(())
}

/// Adds the lines of the certificate or the refutation, where one is said.
fn push_evidence<A: Allocator + Copy>(
    alloc: A,
    text: &mut Vec<u8, A>,
    said: &Said,
) -> Result<(), OutOfMemory>
    ensures { OnOk result (text.new.items ≡ text.old.items ++ evidence_of said.now) }
{
    match said {
        Said::Certified(cert) => push_certificate(alloc, text, cert),
        Said::Refuted(lines) => {
            text.extend_from_slice(lines.as_slice())?;
            Ok(())
        }
        _ => Ok(()),
    }
}

/// The line that says it, with its line feed, and the lines of a certificate or a refutation where one is said. Numbers stand in decimal with no
/// leading zeros.
pub fn write_line<A: Allocator + Copy>(alloc: A, said: &Said) -> Result<Vec<u8, A>, OutOfMemory>
    ensures { IfOk result (λ text. text.items ≡ line_of said.now) }
{
    let mut text = Vec::new(alloc);
    push_said(alloc, &mut text, said)?;
    text.push(b'\n')?;
    push_evidence(alloc, &mut text, said)?;
    Ok(text)
}
