//! Where a certificate or a refutation begins in an input.

ghost use Rattle.std.specs.Prelude.{◌≡◌, ◌+◌, ◌≤◌, ◌∷◌, [], None, length, map, IfOk, IfSome, MatchOption};
ghost use Rattle.cli_lines.specs.Evidences.{key_of, begins, place_of, IsCutAt};

use aud_event::{OutOfMemory, Plan};
use aud_text::{LINE_MAX, TextFault, first_line, has_required, json_in, read_fact, read_plan};
use std::alloc::Global;

/// What may follow the records of an input.
#[derive(Clone, Copy, PartialEq, Eq)]
pub enum Evidence {
    Certificate,
    Refutation,
}

static CERTIFICATE_KEYS: [&str; 1] = ["cert"];

static REFUTATION_KEYS: [&str; 1] = ["refutation"];

/// The key of the line that begins it, alone.
fn keys_of(evidence: Evidence) -> &'static [&'static str]
    ensures { map (λ k. k.now) result.now ≡ key_of evidence ∷ [] }
{
    match evidence {
        Evidence::Certificate => CERTIFICATE_KEYS.as_slice(),
        Evidence::Refutation => REFUTATION_KEYS.as_slice(),
    }
}

/// An input that has evidence: what stands before it, in how many lines, and from where it begins.
#[derive(Clone, Copy)]
pub(crate) struct TextWithEvidence<'a> {
    pub before: &'a [u8],
    pub lines: usize,
    pub evidence: &'a [u8],
}

/// Whether the line is a JSON object with the key.
fn has_key(alloc: Global, evidence: Evidence, line: &[u8]) -> Result<bool, OutOfMemory>
    ensures { IfOk result (λ yes. yes ≡ begins evidence line.now) }
{
    match json_in(alloc, line, LINE_MAX) {
        Ok(value) => Ok(value.as_object().is_some() && has_required(&value, keys_of(evidence))),
        Err(TextFault::OutOfMemory) => Err(OutOfMemory),
        Err(_) => Ok(false),
    }
}

/// Whether the line begins a certificate, with no JSON value of a line that says a fact of the plan: no fact has that key.
fn begins_certificate(alloc: Global, plan: Option<&Plan>, line: &[u8]) -> Result<bool, OutOfMemory>
    ensures { IfOk result (λ yes. yes ≡ begins Evidence.Certificate line.now) }
{
    if let Some(plan) = plan {
        match read_fact(alloc, plan, line) {
            Ok(_) => return Ok(false),
            Err(_) => {}
        }
    }
    has_key(alloc, Evidence::Certificate, line)
}

/// Whether the line begins it.
fn is_begin(
    alloc: Global,
    evidence: Evidence,
    plan: Option<&Plan>,
    line: &[u8],
) -> Result<bool, OutOfMemory>
    ensures { IfOk result (λ yes. yes ≡ begins evidence line.now) }
{
    match evidence {
        Evidence::Certificate => begins_certificate(alloc, plan, line),
        Evidence::Refutation => has_key(alloc, Evidence::Refutation, line),
    }
}

/// The parts of an input by its first line that begins evidence, if one does.
pub(crate) fn split_input<'a>(
    alloc: Global,
    evidence: Evidence,
    text: &'a [u8],
) -> Result<Option<TextWithEvidence<'a>>, OutOfMemory>
    ensures parts { IfOk result (λ parts. MatchOption parts
        (place_of evidence text.entry.now ≡ None)
        (λ p. IsCutAt evidence text.entry.now p.lines p.before.now p.evidence.now)) }
    ensures room { IfOk result (λ parts. IfSome parts (λ p. p.lines + length p.evidence.now ≤ length text.entry.now)) }
{
    let plan = match read_plan(alloc, text) {
        Ok((plan, _)) => Some(plan),
        Err(_) => None,
    };
    let mut rest = text;
    let mut lines = 0;
    while let Some(first) = first_line(rest) {
        if is_begin(alloc, evidence, plan.as_ref(), first.line)? {
            return Ok(Some(TextWithEvidence {
                before: &text[..text.len() - rest.len()],
                lines,
                evidence: rest,
            }));
        }
        rest = first.rest;
        lines += 1;
    }
    Ok(None)
}
