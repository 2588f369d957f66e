//! A text of an order that begins with a hyphen.

ghost use Rattle.std.specs.Prelude.{◌≡◌, ◌++◌, ℕ, List, IfOk, OnOk, [], ◌∷◌, codes, map, string_bytes};
ghost use Rattle.cli_words.specs.Orders.{begins_with_hyphen, is_order_of, order_joined};

use std::alloc::{AllocError, Global};

fn begins_with_hyphen(text: &str) -> bool
    ensures { result ≡ begins_with_hyphen text.now }
{
    match text.as_bytes().first() {
        Some(byte) => *byte == 45,
        None => false,
    }
}

/// Whether `--order` stands before a text that begins with a hyphen.
fn is_order_of(word: &str, next: &str) -> bool
    ensures { result ≡ is_order_of word.now next.now }
{
    word == "--order" && begins_with_hyphen(next)
}

/// The option and its text in one word.
fn order_word(alloc: Global, text: &str) -> Result<String, AllocError>
    ensures { IfOk result (λ word. string_bytes word ≡ codes "--order=" ++ text.now) }
{
    let mut word = String::from_str(alloc, "--order=")?;
    word.push_str(text)?;
    Ok(word)
}

/// The words, with a text of an order that begins with a hyphen in one word with its option: `clap` would take it for an option.
pub(crate) fn order_joined(alloc: Global, words: &[String]) -> Result<Vec<String>, AllocError>
    ensures { IfOk result (λ all. map string_bytes all.items ≡ order_joined (map string_bytes words.now)) }
{
    let mut all = Vec::new(alloc);
    let mut left = words;
    while let Some((word, rest)) = left.split_first() {
        left = rest;
        match rest.split_first() {
            Some((next, after)) if is_order_of(word, next) => {
                all.push(order_word(alloc, next)?)?;
                left = after;
            }
            _ => all.push(String::from_str(alloc, word)?)?,
        }
    }
    Ok(all)
}
