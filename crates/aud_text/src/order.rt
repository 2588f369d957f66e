//! Order texts: how prefixes are spelled.

ghost use Rattle.std.specs.Prelude.{◌≡◌, ◌<◌, ◌==◌, ◌++◌, ◌∷◌, ◌⊎◌, ℕ, List, Ok, Err, All, length, position, IfOk, OnOk, OnErr, IfSome, MatchResult, option_map, flat_map};
ghost use mathlib.Core.List.{IsPrefix};
ghost use Rattle.aud_witness.specs.declared.decision.Decision.{Decision as DecisionOf};
ghost use Rattle.aud_text.specs.Orders.{words_of, words_left, words_read, order_read, order_text, decision_text, fate_letter, ReadsBackAs};

use crate::word::{WordRead, read_word};
use aud_event::OutOfMemory;
use aud_json::TextFault;
use aud_witness::{Decision, Fate, Prefix};
use itoa::Buffer;
use std::alloc::Allocator;

/// The most bytes that an order text may have.
pub const ORDER_MAX: usize = 32_768;

/// A word, and what stands after the space at its end, if one stands there.
#[derive(Clone, Copy)]
struct WordAt<'a> {
    word: &'a [u8],
    rest: Option<&'a [u8]>,
}

fn space_at(text: &[u8]) -> Option<usize>
    ensures { result ≡ position (λ b. b == 32) text.now }
{
    text.iter().position(|b| *b == b' ')
}

fn first_word(text: &[u8]) -> WordAt<'_>
    ensures words { words_of text.entry.now ≡ result.word.now ∷ words_left (option_map (λ r. r.now) result.rest) }
    ensures shorter { IfSome result.rest (λ r. length r.now < length text.entry.now) }
{
    match space_at(text) {
        Some(end) => WordAt {
            word: &text[..end],
            rest: Some(&text[end + 1..]),
        },
        None => WordAt {
            word: text,
            rest: None,
        },
    }
}

fn read_words<A: Allocator + Drop>(alloc: A, text: &[u8]) -> Result<Prefix<A>, TextFault>
    ensures { MatchResult result (λ p. words_read (words_of text.now) ≡ Ok p)
        (λ e. (e ≡ TextFault.OutOfMemory) ⊎ (words_read (words_of text.now) ≡ Err e)) }
{
    let mut decisions = Vec::new(alloc);
    let mut is_known = true;
    let mut rest = Some(text);
    while let Some(left) = rest {
        let first = first_word(left);
        match read_word(first.word) {
            WordRead::Decided(decision) => {
                if decisions.push(decision).is_err() {
                    return Err(TextFault::OutOfMemory);
                }
            }
            WordRead::TooGreat => return Err(TextFault::TypeOrRange),
            WordRead::Unknown => is_known = false,
        }
        rest = first.rest;
    }
    if is_known {
        Ok(Prefix::from_decisions(decisions))
    } else {
        Err(TextFault::UnknownWord)
    }
}

/// The decisions that an order text says, or the least fault that it deserves.
///
/// Decisions may repeat. It takes time and memory by the length of the text.
pub fn read_order<A: Allocator + Drop>(alloc: A, text: &[u8]) -> Result<Prefix<A>, TextFault>
    ensures { MatchResult result (λ p. order_read text.now ≡ Ok p)
        (λ e. (e ≡ TextFault.OutOfMemory) ⊎ (order_read text.now ≡ Err e)) }
{
    if text.len() > ORDER_MAX {
        return Err(TextFault::TooLong);
    }
    if text == b"none".as_slice() {
        return Ok(Prefix::from_decisions(Vec::new(alloc)));
    }
    read_words(alloc, text)
}

fn letter_of(fate: Fate) -> u8
    ensures { result ≡ fate_letter fate }
{
    match fate {
        Fate::C => b'c',
        Fate::A => b'a',
    }
}

fn push_decision<A: Allocator>(text: &mut Vec<u8, A>, decision: Decision) -> Result<(), OutOfMemory>
    ensures ok { OnOk result (text.new.items ≡ text.old.items ++ decision_text decision) }
    ensures err { OnErr result (IsPrefix text.old.items text.new.items) }
{
    let mut buffer = Buffer::new();
    text.extend_from_slice(buffer.format(decision.tx).as_bytes())?;
    text.push(letter_of(decision.fate))?;
    Ok(())
}

fn push_more<A: Allocator>(text: &mut Vec<u8, A>, decisions: &[Decision]) -> Result<(), OutOfMemory>
    ensures ok { OnOk result (text.new.items ≡ text.old.items ++ flat_map (λ d. 32 ∷ decision_text d) decisions.now) }
    ensures err { OnErr result (IsPrefix text.old.items text.new.items) }
{
    for decision in decisions {
        text.push(b' ')?;
        push_decision(text, *decision)?;
    }
    Ok(())
}

fn push_decisions<A: Allocator>(
    text: &mut Vec<u8, A>,
    decisions: &[Decision],
) -> Result<(), OutOfMemory>
    ensures ok { OnOk result (text.new.items ≡ text.old.items ++ order_text decisions.now) }
    ensures err { OnErr result (IsPrefix text.old.items text.new.items) }
{
    match decisions.split_first() {
        None => {
            text.extend_from_slice(b"none")?;
            Ok(())
        }
        Some((first, rest)) => {
            push_decision(text, *first)?;
            push_more(text, rest)?;
            Ok(())
        }
    }
}

/// Puts the text of the decisions at the end: `none`, or each with a space before the next. A refused growth leaves the text.
pub fn push_order<A: Allocator, B: Allocator>(
    text: &mut Vec<u8, A>,
    order: &Prefix<B>,
) -> Result<(), OutOfMemory>
    ensures ok { OnOk result (text.new.items ≡ text.old.items ++ order_text order.now) }
    ensures err { OnErr result (text.new.items ≡ text.old.items) }
{
    let len = text.len();
    let done = push_decisions(text, order.decisions());
    if done.is_err() {
        text.truncate(len);
    }
    done
}

/// The text of the decisions.
///
/// It reads as the decisions where their ids are below 4,096 and the text is not too long.
pub fn write_order<A: Allocator + Drop, B: Allocator>(
    alloc: A,
    order: &Prefix<B>,
) -> Result<Vec<u8, A>, OutOfMemory>
    ensures spelled { IfOk result (λ text. text.items ≡ order_text order.now) }
    ensures reads_back { IfOk result (λ text. ReadsBackAs order.now text.items) }
{
    let mut text = Vec::new(alloc);
    push_order(&mut text, order)?;
    Ok(text)
}

/// What is written of decisions reads as them, where their ids and the text are within the limits.
pub fn orders_read_back()
    ensures { (ds : List DecisionOf) → ReadsBackAs ds (order_text ds) }
{}

/// No other text reads as the decisions.
pub fn orders_read_exactly()
    ensures { (text : List ℕ) → (ds : List DecisionOf) → order_read text ≡ Ok ds → text ≡ order_text ds }
{}
