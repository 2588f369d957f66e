//! Reading decisions where they stand in a line, in one pass and up to the byte after it.

ghost use Rattle.std.specs.Prelude.{◌≡◌, ◌<◌, ◌≤◌, ◌++◌, ◌∷◌, ◌+◌, All, IfSome, decimal, length};
ghost use Rattle.aud_event.specs.Limits.{most_transactions};
ghost use Rattle.aud_text.specs.Orders.{decision_text, fate_letter, order_text};
ghost use Rattle.aud_cert.specs.Written.{IsShort, Low};

use aud_event::limits::TRANSACTIONS;
use aud_text::{ORDER_MAX, after};
use aud_witness::{Decision, Fate, Prefix};
use std::alloc::Allocator;

fn digit_at(text: &[u8]) -> Option<(u32, &[u8])>
    ensures spelled { IfSome result (λ r. text.now ≡ (48 + r.0) ∷ r.1.now) }
    ensures digit { IfSome result (λ r. r.0 < 10) }
{
    let (byte, rest) = text.split_first()?;
    if 48 <= *byte && *byte <= 57 {
        Some((u32::from(*byte - 48), rest))
    } else {
        None
    }
}

/// The number of a transaction, which has no zero before another digit.
fn number_at(text: &[u8]) -> Option<(u32, &[u8])>
    ensures spelled { IfSome result (λ r. text.now ≡ decimal r.0 ++ r.1.now) }
    ensures low { IfSome result (λ r. r.0 < most_transactions) }
{
    let (mut number, mut rest) = digit_at(text)?;
    if number == 0 {
        return Some((number, rest));
    }
    'digits: while let Some((digit, more)) = digit_at(rest) {
        number = number * 10 + digit;
        if number >= TRANSACTIONS {
            return None;
        }
        rest = more;
    }
    Some((number, rest))
}

fn fate_of(letter: u8) -> Option<Fate>
    ensures { IfSome result (λ f. letter ≡ fate_letter f) }
{
    match letter {
        b'c' => Some(Fate::C),
        b'a' => Some(Fate::A),
        _ => None,
    }
}

fn decision_at(text: &[u8]) -> Option<(Decision, &[u8])>
    ensures spelled { IfSome result (λ r. text.now ≡ decision_text r.0 ++ r.1.now) }
    ensures low { IfSome result (λ r. Low r.0) }
{
    let (tx, ended) = number_at(text)?;
    let (letter, rest) = ended.split_first()?;
    let fate = fate_of(*letter)?;
    Some((Decision { tx, fate }, rest))
}

/// A decision after a space.
fn next_at(text: &[u8]) -> Option<(Decision, &[u8])>
    ensures spelled { IfSome result (λ r. text.now ≡ 32 ∷ decision_text r.0 ++ r.1.now) }
    ensures low { IfSome result (λ r. Low r.0) }
{
    let (byte, rest) = text.split_first()?;
    if *byte == b' ' {
        decision_at(rest)
    } else {
        None
    }
}

/// Puts the decisions that a text begins with into `scratch`, in the place of what it had, and answers what stands after them.
fn decisions_at<'l>(text: &'l [u8], scratch: &mut Vec<Decision>) -> Option<&'l [u8]>
    ensures spelled { IfSome result (λ rest. text.now ≡ order_text scratch.new.items ++ rest.now) }
    ensures low { IfSome result (λ rest. All Low scratch.new.items) }
{
    scratch.clear();
    if let Some(rest) = after(text, "none") {
        return Some(rest);
    }
    let (first, mut rest) = decision_at(text)?;
    scratch.push(first).ok()?;
    'decisions: while let Some((decision, more)) = next_at(rest) {
        scratch.push(decision).ok()?;
        rest = more;
    }
    Some(rest)
}

/// The decisions that the text begins with, in memory of their own and no more than they need, and what stands after them.
/// `scratch` is room that each call writes over.
pub(crate) fn order_at<'l, A: Allocator>(
    alloc: A,
    text: &'l [u8],
    scratch: &mut Vec<Decision>,
) -> Option<(Prefix<A>, &'l [u8])>
    ensures spelled { IfSome result (λ r. text.now ≡ order_text r.0 ++ r.1.now) }
    ensures short { IfSome result (λ r. IsShort r.0) }
{
    let rest = decisions_at(text, scratch)?;
    if text.len() - rest.len() > ORDER_MAX {
        return None;
    }
    let order = Prefix::copy_of(alloc, scratch).ok()?;
    Some((order, rest))
}
