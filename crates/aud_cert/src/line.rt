//! Reading a line of a certificate.

ghost use Rattle.std.specs.Prelude.{◌≡◌, ◌⊎◌, Ok, Err, codes, IfOk, MatchResult};
ghost use Rattle.serde_json.specs.View.{view, members_view};
ghost use Rattle.cert_accept.specs.Acceptance.{elsewhere};
ghost use Rattle.aud_cert.specs.LineText.{order_at_key, is_long, is_out_of_range, is_one, all_texts, only_of, read_order, fault_with, line_of, line_judged, line_read};

use crate::reason::{ByWord, allowed_keys, reason_in, required_keys};
use crate::spelled::line_spelled;
use aud_event::OutOfMemory;
use aud_text::{
    TextFault, has_only_allowed, has_required, json_in, read_order, text_if_there, word_of,
};
use aud_witness::{Decision, Prefix};
use cert_accept::CertLine;
use serde_json::{Map, Value};
use std::alloc::{Allocator, Global};

/// The most bytes that a line of a certificate may have, its line feed aside.
pub const CERT_LINE_MAX: usize = 65_536;

/// What an order text at a key says, where a text stands there.
type OrderText = Option<Result<Prefix, TextFault>>;

/// The order texts of a line.
#[derive(Drop)]
struct OrderTexts {
    prefix: OrderText,
    decision: OrderText,
    other: OrderText,
}

fn order_in(alloc: Global, value: &Value, key: &str) -> Result<OrderText, OutOfMemory>
    ensures { IfOk result (λ text. text ≡ order_at_key key.now (view value.now)) }
{
    let Some(word) = word_of(value, key) else {
        return Ok(None);
    };
    match read_order(alloc, word.as_bytes()) {
        Err(TextFault::OutOfMemory) => Err(OutOfMemory),
        read => Ok(Some(read)),
    }
}

fn orders_in(alloc: Global, value: &Value) -> Result<OrderTexts, OutOfMemory>
    ensures prefix { IfOk result (λ texts. texts.prefix ≡ order_at_key (codes "p") (view value.now)) }
    ensures decision { IfOk result (λ texts. texts.decision ≡ order_at_key (codes "d") (view value.now)) }
    ensures other { IfOk result (λ texts. texts.other ≡ order_at_key (codes "as") (view value.now)) }
{
    let prefix = order_in(alloc, value, "p")?;
    let decision = order_in(alloc, value, "d")?;
    let other = order_in(alloc, value, "as")?;
    Ok(OrderTexts {
        prefix,
        decision,
        other,
    })
}

fn is_too_long(text: &OrderText) -> bool
    ensures { result ≡ is_long text.now }
{
    match text {
        Some(Err(TextFault::TooLong)) => true,
        _ => false,
    }
}

fn has_great_id(text: &OrderText) -> bool
    ensures { result ≡ is_out_of_range text.now }
{
    match text {
        Some(Err(TextFault::TypeOrRange)) => true,
        _ => false,
    }
}

/// The one decision of a prefix of one.
pub(crate) fn only(decisions: &[Decision]) -> Option<Decision>
    ensures { result ≡ only_of decisions.now }
{
    match decisions {
        [decision] => Some(*decision),
        _ => None,
    }
}

/// Whether the prefix, where one is read, has one decision.
fn has_one(text: &OrderText) -> bool
    ensures { result ≡ is_one text.now }
{
    match text {
        Some(Ok(order)) => only(order.decisions()).is_some(),
        _ => true,
    }
}

fn are_texts(value: &Value) -> bool
    ensures { result ≡ all_texts (view value.now) }
{
    text_if_there(value, "as")
        && text_if_there(value, "by")
        && text_if_there(value, "d")
        && text_if_there(value, "p")
}

/// The least fault but an unknown word.
fn fault_in(
    value: &Value,
    members: &Map<String, Value>,
    reason: Option<ByWord>,
    texts: &OrderTexts,
) -> Option<TextFault>
    ensures { result ≡ fault_with (view value.now) (members_view members.now.entries) reason texts.now }
{
    let OrderTexts {
        prefix,
        decision,
        other,
    } = texts;
    if is_too_long(prefix) || is_too_long(decision) || is_too_long(other) {
        return Some(TextFault::TooLong);
    }
    if !has_required(value, required_keys(reason)) {
        return Some(TextFault::KeyMissing);
    }
    if !has_only_allowed(members, allowed_keys(reason)) {
        return Some(TextFault::KeyUnknown);
    }
    if !are_texts(value)
        || has_great_id(prefix)
        || has_great_id(decision)
        || has_great_id(other)
        || !has_one(decision)
    {
        return Some(TextFault::TypeOrRange);
    }
    None
}

fn prefix_from(text: OrderText) -> Option<Prefix>
    ensures { result ≡ read_order text }
{
    match text {
        Some(Ok(order)) => Some(order),
        _ => None,
    }
}

/// The line of the reason, where the order texts that it needs are read.
fn line_in(reason: Option<ByWord>, texts: OrderTexts) -> Option<CertLine>
    ensures { result ≡ line_of reason texts.prefix texts.decision texts.other }
{
    let reason = reason?;
    let prefix = prefix_from(texts.prefix)?;
    match reason {
        ByWord::Kids => Some(CertLine::Kids(prefix)),
        ByWord::Silent => {
            let order = prefix_from(texts.decision)?;
            let decision = only(order.decisions())?;
            Some(CertLine::Silent(prefix, decision))
        }
        ByWord::Same => {
            let other = prefix_from(texts.other)?;
            Some(CertLine::Same(prefix, other))
        }
    }
}

fn judge_line(alloc: Global, value: &Value) -> Result<CertLine, TextFault>
    ensures { MatchResult result (λ line. line_judged (view value.now) ≡ Ok line)
        (λ e. (e ≡ TextFault.OutOfMemory) ⊎ (line_judged (view value.now) ≡ Err e)) }
{
    let Some(members) = value.as_object() else {
        return Err(TextFault::NotObject);
    };
    let reason = reason_in(value);
    let Ok(texts) = orders_in(alloc, value) else {
        return Err(TextFault::OutOfMemory);
    };
    if let Some(fault) = fault_in(value, members, reason, &texts) {
        return Err(fault);
    }
    match line_in(reason, texts) {
        Some(line) => Ok(line),
        None => Err(TextFault::UnknownWord),
    }
}

/// The line with its prefixes in other memory.
fn moved<A: Allocator + Copy>(alloc: A, line: &CertLine) -> Result<CertLine<A>, OutOfMemory>
    ensures { IfOk result (λ moved. elsewhere moved ≡ line.now) }
{
    match line {
        CertLine::Kids(prefix) => {
            let prefix = Prefix::copy_of(alloc, prefix.decisions())?;
            Ok(CertLine::Kids(prefix))
        }
        CertLine::Silent(prefix, decision) => {
            let prefix = Prefix::copy_of(alloc, prefix.decisions())?;
            Ok(CertLine::Silent(prefix, *decision))
        }
        CertLine::Same(prefix, other) => {
            let prefix = Prefix::copy_of(alloc, prefix.decisions())?;
            let other = Prefix::copy_of(alloc, other.decisions())?;
            Ok(CertLine::Same(prefix, other))
        }
    }
}

/// The line that a text says, or the least fault that it deserves. Its prefixes are in the memory of `prefixes`; `scratch` is room that each call
/// writes over.
pub(crate) fn read_line<A: Allocator + Copy>(
    alloc: Global,
    prefixes: A,
    line: &[u8],
    scratch: &mut Vec<Decision>,
) -> Result<CertLine<A>, TextFault>
    ensures { MatchResult result (λ l. line_read line.now ≡ Ok (elsewhere l))
        (λ e. (e ≡ TextFault.OutOfMemory) ⊎ (line_read line.now ≡ Err e)) }
{
    // Most lines are spelled as they are written here, and need no JSON value.
    if let Some(read) = line_spelled(prefixes, line, scratch) {
        return Ok(read);
    }
    let value = match json_in(alloc, line, CERT_LINE_MAX) {
        Ok(value) => value,
        Err(fault) => return Err(fault),
    };
    let read = match judge_line(alloc, &value) {
        Ok(read) => read,
        Err(fault) => return Err(fault),
    };
    match moved(prefixes, &read) {
        Ok(moved) => Ok(moved),
        Err(_) => Err(TextFault::OutOfMemory),
    }
}
