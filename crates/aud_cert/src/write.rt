//! Writing the text of a certificate.

ghost use Rattle.std.specs.Prelude.{◌≡◌, ◌++◌, ◌∷◌, [], IfOk, OnOk};
ghost use Rattle.aud_text.specs.Orders.{decision_text, fate_letter};
ghost use Rattle.aud_cert.specs.Written.{prefix_text, alone_text, decided_text, same_text, line_text, header_text, ended, cert_text, ReadsBack};

use aud_event::OutOfMemory;
use aud_text::push_order;
use aud_witness::{Decision, Fate, Prefix};
use cert_accept::{Cert, CertLine};
use itoa::Buffer;
use std::alloc::Allocator;

fn push_text<A: Allocator>(text: &mut Vec<u8, A>, part: &str) -> Result<(), OutOfMemory>
    ensures { OnOk result (text.new.items ≡ text.old.items ++ part.now) }
{
    text.extend_from_slice(part.as_bytes())?;
    Ok(())
}

fn letter_of(fate: Fate) -> &'static str
    ensures { result.now ≡ fate_letter fate ∷ [] }
{
    match fate {
        Fate::C => "c",
        Fate::A => "a",
    }
}

fn push_decision<A: Allocator>(text: &mut Vec<u8, A>, decision: Decision) -> Result<(), OutOfMemory>
    ensures { OnOk result (text.new.items ≡ text.old.items ++ decision_text decision) }
{
    let mut buffer = Buffer::new();
    push_text(text, buffer.format(decision.tx))?;
    push_text(text, letter_of(decision.fate))?;
    Ok(())
}

/// Adds the prefix, which ends each line.
fn push_prefix<A: Allocator, B: Allocator>(
    text: &mut Vec<u8, A>,
    prefix: &Prefix<B>,
) -> Result<(), OutOfMemory>
    ensures { OnOk result (text.new.items ≡ text.old.items ++ prefix_text prefix.now) }
{
    push_text(text, "\",\"p\":\"")?;
    push_order(text, prefix)?;
    push_text(text, "\"}")?;
    Ok(())
}

/// Adds a line that has the word and nothing else.
fn push_alone<A: Allocator, B: Allocator>(
    text: &mut Vec<u8, A>,
    word: &str,
    prefix: &Prefix<B>,
) -> Result<(), OutOfMemory>
    ensures { OnOk result (text.new.items ≡ text.old.items ++ alone_text word.now prefix.now) }
{
    push_text(text, "{\"by\":\"")?;
    push_text(text, word)?;
    push_prefix(text, prefix)?;
    Ok(())
}

/// Adds a line that has the word and a decision.
fn push_decided<A: Allocator, B: Allocator>(
    text: &mut Vec<u8, A>,
    word: &str,
    prefix: &Prefix<B>,
    decision: Decision,
) -> Result<(), OutOfMemory>
    ensures { OnOk result (text.new.items ≡ text.old.items ++ decided_text word.now prefix.now decision) }
{
    push_text(text, "{\"by\":\"")?;
    push_text(text, word)?;
    push_text(text, "\",\"d\":\"")?;
    push_decision(text, decision)?;
    push_prefix(text, prefix)?;
    Ok(())
}

fn push_same<A: Allocator, B: Allocator>(
    text: &mut Vec<u8, A>,
    prefix: &Prefix<B>,
    other: &Prefix<B>,
) -> Result<(), OutOfMemory>
    ensures { OnOk result (text.new.items ≡ text.old.items ++ same_text prefix.now other.now) }
{
    push_text(text, "{\"as\":\"")?;
    push_order(text, other)?;
    push_text(text, "\",\"by\":\"same")?;
    push_prefix(text, prefix)?;
    Ok(())
}

fn push_keys<A: Allocator, B: Allocator>(
    text: &mut Vec<u8, A>,
    line: &CertLine<B>,
) -> Result<(), OutOfMemory>
    ensures { OnOk result (text.new.items ≡ text.old.items ++ line_text line.now) }
{
    match line {
        CertLine::Kids(prefix) => push_alone(text, "kids", prefix),
        CertLine::Silent(prefix, decision) => push_decided(text, "silent", prefix, *decision),
        CertLine::Same(prefix, other) => push_same(text, prefix, other),
    }
}

/// Adds the line, with its line feed.
fn push_line<A: Allocator, B: Allocator>(
    text: &mut Vec<u8, A>,
    line: &CertLine<B>,
) -> Result<(), OutOfMemory>
    ensures { OnOk result (text.new.items ≡ text.old.items ++ ended (line_text line.now)) }
{
    push_keys(text, line)?;
    push_text(text, "\n")
}

fn push_header<A: Allocator>(text: &mut Vec<u8, A>, count: usize) -> Result<(), OutOfMemory>
    ensures { OnOk result (text.new.items ≡ text.old.items ++ ended (header_text count)) }
{
    let mut buffer = Buffer::new();
    push_text(text, "{\"cert\":")?;
    push_text(text, buffer.format(count))?;
    push_text(text, "}\n")
}

fn text_of<A: Allocator + Copy, B: Allocator>(
    alloc: A,
    cert: &Cert<B>,
) -> Result<Vec<u8, A>, OutOfMemory>
    ensures { IfOk result (λ text. text.items ≡ cert_text cert.now.lines.items) }
{
    let mut text = Vec::new(alloc);
    push_header(&mut text, cert.lines.len())?;
    for line in &cert.lines {
        push_line(&mut text, line)?;
    }
    Ok(text)
}

/// The text of the certificate: a header, its lines, and a line feed after each.
///
/// It reads as the certificate where each line is within the limits: ids below 4,096, order texts of at most 32,768 bytes, and at
/// most 65,536 bytes a line. Each line of an accepted certificate is (`laws::accepted_reads_back`). The header counts fewer than 2^63
/// lines.
pub fn write_cert<A: Allocator + Copy, B: Allocator>(
    alloc: A,
    cert: &Cert<B>,
) -> Result<Vec<u8, A>, OutOfMemory>
    ensures spelled { IfOk result (λ text. text.items ≡ cert_text cert.now.lines.items) }
    ensures reads_back { IfOk result (λ text. ReadsBack cert.now.lines.items text.items) }
{
    let text = text_of(alloc, cert)?;
    Ok(text)
}
