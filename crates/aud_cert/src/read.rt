//! Reading the text of a certificate.

ghost use Rattle.std.specs.Prelude.{◌≡◌, ◌+◌, ◌≤◌, ◌⊎◌, Ok, Err, length, map, IfOk, MatchResult};
ghost use Rattle.serde_json.specs.View.{view};
ghost use Rattle.serde_json.specs.Find.{as_object};
ghost use Rattle.cert_accept.specs.Acceptance.{elsewhere};
ghost use Rattle.aud_text.specs.Lines.{lines_of};
ghost use Rattle.aud_cert.specs.CertText.{header_keys, natural_at, header_members, header_read, at_line, lines_left, cert_read};

use crate::fault::CertTextFault;
use crate::line::{CERT_LINE_MAX, read_line};
use aud_text::{
    TextFault, count_lines, has_only_allowed, has_required, json_in, next_filled, whole_of,
};
use cert_accept::{Cert, CertLine};
use serde_json::Value;
use std::alloc::{Allocator, Global};

static HEADER_KEYS: [&str; 1] = ["cert"];

fn keys_of_header() -> &'static [&'static str]
    ensures { map (λ k. k.now) result.now ≡ header_keys }
{
    HEADER_KEYS.as_slice()
}

/// The whole number at the key, if it is from 0 to the greatest i64.
fn natural_in(value: &Value, key: &str) -> Option<u64>
    ensures { result ≡ natural_at key.now (view value.now) }
{
    let count = whole_of(value, key)?;
    if count < 0 {
        None
    } else {
        Some(count.cast_unsigned())
    }
}

/// How many lines the header says.
fn judge_header(value: &Value) -> Result<u64, TextFault>
    ensures { result ≡ header_members (view value.now) (as_object (view value.now)) }
{
    let Some(members) = value.as_object() else {
        return Err(TextFault::NotObject);
    };
    if !has_required(value, keys_of_header()) {
        return Err(TextFault::KeyMissing);
    }
    if !has_only_allowed(members, keys_of_header()) {
        return Err(TextFault::KeyUnknown);
    }
    match natural_in(value, "cert") {
        Some(count) => Ok(count),
        None => Err(TextFault::TypeOrRange),
    }
}

fn read_header(alloc: Global, line: &[u8]) -> Result<u64, TextFault>
    ensures { (result ≡ Err TextFault.OutOfMemory) ⊎ (result ≡ header_read line.now) }
{
    let value = match json_in(alloc, line, CERT_LINE_MAX) {
        Ok(value) => value,
        Err(fault) => return Err(fault),
    };
    judge_header(&value)
}

/// The fault of a text that ends too early: it stands at the line after the last.
fn ends_early(text: &[u8]) -> CertTextFault
    ensures { result ≡ at_line (length (lines_of text.now) + 1) TextFault.KeyMissing }
{
    CertTextFault {
        line: count_lines(text) + 1,
        fault: TextFault::KeyMissing,
    }
}

/// The least bytes that a line of a certificate takes with its line feed, as `{"by":"kids","p":"0c"}` does.
const LINE_MIN: usize = 23;

/// How many lines there are at most, where the header says so many and so many bytes are left: room for them is asked for at once.
fn most_lines(count: u64, left: usize) -> usize {
    match usize::try_from(count) {
        Ok(count) => count.min(left / LINE_MIN + 1),
        Err(_) => left / LINE_MIN + 1,
    }
}

/// The certificate's lines, as many as the header says of what is left of the text. No line that is not empty comes after them.
fn read_lines<A: Allocator + Copy>(
    alloc: Global,
    prefixes: A,
    text: &[u8],
    left: &[u8],
    number: usize,
    count: u64,
) -> Result<Vec<CertLine<A>, A>, CertTextFault>
    requires within { length left.now ≤ length text.now }
    requires room { number + length left.now ≤ length text.now + 1 }
    ensures { MatchResult result (λ lines. lines_left text.now left.now number count ≡ Ok (map elsewhere lines.items))
        (λ e. (e.fault ≡ TextFault.OutOfMemory) ⊎ (lines_left text.now left.now number count ≡ Err e)) }
{
    let mut scratch = Vec::new(alloc);
    let mut rest = left;
    let mut line = number;
    let Ok(mut lines) = Vec::with_capacity(prefixes, most_lines(count, left.len())) else {
        return Err(CertTextFault {
            line,
            fault: TextFault::OutOfMemory,
        });
    };
    for i in 0..count {
        let Some(next) = next_filled(rest, line) else {
            return Err(ends_early(text));
        };
        line = next.number;
        let read = match read_line(alloc, prefixes, next.line, &mut scratch) {
            Ok(read) => read,
            Err(fault) => return Err(CertTextFault { line, fault }),
        };
        if lines.push(read).is_err() {
            return Err(CertTextFault {
                line,
                fault: TextFault::OutOfMemory,
            });
        }
        rest = next.rest;
        line += 1;
    }
    match next_filled(rest, line) {
        None => Ok(lines),
        Some(more) => Err(CertTextFault {
            line: more.number,
            fault: TextFault::KeyUnknown,
        }),
    }
}

/// The certificate that a text says, or the first fault of the text, in memory of the program's own allocator.
///
/// A header line says how many lines follow. Empty lines are skipped and counted; a line has at most 65,536 bytes. A text that
/// ends too early is refused at the line after its last, and a line after those that the header counts as one with an unknown key.
pub fn read_cert(alloc: Global, text: &[u8]) -> Result<Cert, CertTextFault>
    ensures { MatchResult result (λ cert. cert_read text.now ≡ Ok cert.lines.items)
        (λ e. (e.fault ≡ TextFault.OutOfMemory) ⊎ (cert_read text.now ≡ Err e)) }
{
    read_cert_into(alloc, alloc, text)
}

/// The certificate that a text says, with the lines and their prefixes in the memory of `prefixes`: for an arena, where all of them go at once.
pub fn read_cert_into<A: Allocator + Copy>(
    alloc: Global,
    prefixes: A,
    text: &[u8],
) -> Result<Cert<A>, CertTextFault>
    ensures { MatchResult result (λ cert. cert_read text.now ≡ Ok (map elsewhere cert.lines.items))
        (λ e. (e.fault ≡ TextFault.OutOfMemory) ⊎ (cert_read text.now ≡ Err e)) }
{
    let Some(first) = next_filled(text, 1) else {
        return Err(ends_early(text));
    };
    let line = first.number;
    let count = match read_header(alloc, first.line) {
        Ok(count) => count,
        Err(fault) => return Err(CertTextFault { line, fault }),
    };
    match read_lines(alloc, prefixes, text, first.rest, line + 1, count) {
        Ok(lines) => Ok(Cert { lines }),
        Err(fault) => Err(fault),
    }
}
