//! Reading a line that is spelled as `write_cert` spells it, with no JSON value in between.

ghost use Rattle.std.specs.Prelude.{◌≡◌, ◌∷◌, [], Ok, IfSome};
ghost use Rattle.cert_accept.specs.Acceptance.{elsewhere};
ghost use Rattle.aud_cert.specs.LineText.{line_read};
ghost use Rattle.aud_cert.specs.Written.{alone_text, decided_text, line_text, prefix_text, HasShort, IsShort};

use crate::line::{CERT_LINE_MAX, only};
use crate::order::order_at;
use aud_text::after;
use aud_witness::{Decision, Prefix};
use cert_accept::CertLine;
use std::alloc::Allocator;

/// The prefix, which ends each line.
fn prefix_at<A: Allocator + Copy>(
    alloc: A,
    line: &[u8],
    scratch: &mut Vec<Decision>,
) -> Option<Prefix<A>>
    ensures spelled { IfSome result (λ p. line.now ≡ prefix_text p) }
    ensures short { IfSome result IsShort }
{
    let text = after(line, "\",\"p\":\"")?;
    let (prefix, rest) = order_at(alloc, text, scratch)?;
    if after(rest, "\"}")?.is_empty() {
        Some(prefix)
    } else {
        None
    }
}

/// The prefix of a line that has the word and nothing else.
fn alone_at<A: Allocator + Copy>(
    alloc: A,
    word: &str,
    line: &[u8],
    scratch: &mut Vec<Decision>,
) -> Option<Prefix<A>>
    ensures spelled { IfSome result (λ p. line.now ≡ alone_text word.now p) }
    ensures short { IfSome result IsShort }
{
    let named = after(line, "{\"by\":\"")?;
    let rest = after(named, word)?;
    prefix_at(alloc, rest, scratch)
}

/// The prefix and the decision of a line that has the word and both.
fn decided_at<A: Allocator + Copy>(
    alloc: A,
    word: &str,
    line: &[u8],
    scratch: &mut Vec<Decision>,
) -> Option<(Prefix<A>, Decision)>
    ensures spelled { IfSome result (λ r. line.now ≡ decided_text word.now r.0 r.1) }
    ensures short { IfSome result (λ r. IsShort r.0 × IsShort (r.1 ∷ [])) }
{
    let named = after(line, "{\"by\":\"")?;
    let worded = after(named, word)?;
    let text = after(worded, "\",\"d\":\"")?;
    let (decisions, rest) = order_at(alloc, text, scratch)?;
    let decision = only(decisions.decisions())?;
    let prefix = prefix_at(alloc, rest, scratch)?;
    Some((prefix, decision))
}

fn same_at<A: Allocator + Copy>(
    alloc: A,
    line: &[u8],
    scratch: &mut Vec<Decision>,
) -> Option<CertLine<A>>
    ensures spelled { IfSome result (λ l. line.now ≡ line_text l) }
    ensures short { IfSome result HasShort }
{
    let text = after(line, "{\"as\":\"")?;
    let (other, rest) = order_at(alloc, text, scratch)?;
    let rest = after(rest, "\",\"by\":\"same")?;
    let prefix = prefix_at(alloc, rest, scratch)?;
    Some(CertLine::Same(prefix, other))
}

fn line_at<A: Allocator + Copy>(
    alloc: A,
    line: &[u8],
    scratch: &mut Vec<Decision>,
) -> Option<CertLine<A>>
    ensures spelled { IfSome result (λ l. line.now ≡ line_text l) }
    ensures short { IfSome result HasShort }
{
    if let Some(same) = same_at(alloc, line, scratch) {
        return Some(same);
    }
    if let Some(prefix) = alone_at(alloc, "kids", line, scratch) {
        return Some(CertLine::Kids(prefix));
    }
    let (prefix, decision) = decided_at(alloc, "silent", line, scratch)?;
    Some(CertLine::Silent(prefix, decision))
}

/// The line that a text says, if the text is the one that is written for it. `scratch` is room that each call writes over.
pub(crate) fn line_spelled<A: Allocator + Copy>(
    alloc: A,
    line: &[u8],
    scratch: &mut Vec<Decision>,
) -> Option<CertLine<A>>
    ensures { IfSome result (λ l. line_read line.now ≡ Ok (elsewhere l)) }
{
    if line.len() > CERT_LINE_MAX {
        return None;
    }
    line_at(alloc, line, scratch)
}
