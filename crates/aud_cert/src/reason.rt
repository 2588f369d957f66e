//! What a line of a certificate rests on, and the keys that say it.

ghost use Rattle.std.specs.Prelude.{◌≡◌, map};
ghost use Rattle.serde_json.specs.View.{view};
ghost use Rattle.aud_cert.specs.LineText.{reason_of_word, reason_at, required, allowed};

use aud_text::word_of;
use serde_json::Value;

/// The words of `by`.
#[derive(Clone, Copy, PartialEq, Eq)]
pub(crate) enum ByWord {
    Kids,
    Silent,
    Same,
}

fn reason_of(word: &str) -> Option<ByWord>
    ensures { result ≡ reason_of_word word.now }
{
    match word {
        "kids" => Some(ByWord::Kids),
        "silent" => Some(ByWord::Silent),
        "same" => Some(ByWord::Same),
        _ => None,
    }
}

pub(crate) fn reason_in(value: &Value) -> Option<ByWord>
    ensures { result ≡ reason_at (view value.now) }
{
    match word_of(value, "by") {
        Some(word) => reason_of(word),
        None => None,
    }
}

static KIDS_KEYS: [&str; 2] = ["by", "p"];

static SILENT_KEYS: [&str; 3] = ["by", "d", "p"];

static SAME_KEYS: [&str; 3] = ["as", "by", "p"];

static ALL_KEYS: [&str; 4] = ["as", "by", "d", "p"];

pub(crate) fn required_keys(reason: Option<ByWord>) -> &'static [&'static str]
    ensures { map (λ k. k.now) result.now ≡ required reason }
{
    match reason {
        Some(ByWord::Kids) => KIDS_KEYS.as_slice(),
        Some(ByWord::Silent) => SILENT_KEYS.as_slice(),
        Some(ByWord::Same) => SAME_KEYS.as_slice(),
        None => KIDS_KEYS.as_slice(),
    }
}

pub(crate) fn allowed_keys(reason: Option<ByWord>) -> &'static [&'static str]
    ensures { map (λ k. k.now) result.now ≡ allowed reason }
{
    match reason {
        Some(_) => required_keys(reason),
        None => ALL_KEYS.as_slice(),
    }
}
