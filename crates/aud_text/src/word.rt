//! One word of an order text.

ghost use Rattle.std.specs.Prelude.{◌≡◌, min, true};
ghost use Rattle.std.specs.Str.Parse.{digits_value};
ghost use Rattle.aud_event.specs.declared.limits.TheConstants.{TRANSACTIONS};
ghost use Rattle.aud_text.specs.Orders.{word_read, id_read, is_plain, all_digits};

use aud_event::limits::TRANSACTIONS;
use aud_witness::{Decision, Fate};

/// What a word of an order text says.
#[derive(Clone, Copy, PartialEq, Eq)]
pub(crate) enum WordRead {
    Decided(Decision),
    TooGreat,
    Unknown,
}

fn has_only_digits(digits: &[u8]) -> bool
    ensures { result ≡ all_digits digits.now }
{
    digits.iter().all(|b| 48 <= *b && *b <= 57)
}

fn has_plain_form(digits: &[u8]) -> bool
    ensures { result ≡ is_plain digits.now }
{
    !digits.is_empty() && has_only_digits(digits) && (digits.len() == 1 || digits[0] != 48)
}

/// The number that digits say, or 4,096 where it is greater.
fn capped_value(digits: &[u8]) -> u32
    requires { all_digits digits.now ≡ true }
    ensures { result ≡ min (digits_value 10 digits.now) TRANSACTIONS }
{
    let mut value = 0u32;
    for digit in digits {
        let next = value * 10 + (*digit - 48) as u32;
        value = next.min(TRANSACTIONS);
    }
    value
}

fn read_id(digits: &[u8], fate: Fate) -> WordRead
    ensures { result ≡ id_read digits.now fate }
{
    if !has_plain_form(digits) {
        return WordRead::Unknown;
    }
    let tx = capped_value(digits);
    if tx < TRANSACTIONS {
        WordRead::Decided(Decision { tx, fate })
    } else {
        WordRead::TooGreat
    }
}

/// A decision, as its id and whether it commits.
pub(crate) fn read_word(word: &[u8]) -> WordRead
    ensures { result ≡ word_read word.now }
{
    if word.is_empty() {
        return WordRead::Unknown;
    }
    let end = word.len() - 1;
    let last = word[end];
    let digits = &word[..end];
    if last == b'c' {
        read_id(digits, Fate::C)
    } else if last == b'a' {
        read_id(digits, Fate::A)
    } else {
        WordRead::Unknown
    }
}
