//! The keys that a fact's line has, by its kind.

ghost use Rattle.std.specs.Prelude.{◌≡◌, map};
ghost use Rattle.serde_json.specs.View.{view};
ghost use Rattle.aud_json.specs.Judged.{shape_of, shape_of_event, required, allowed, op_at, all_keys};

use crate::value::word_of;
use aud_event::{Format, OpName, Takes};
use serde_json::Value;

/// What kind of line it is, as far as its keys hang on that.
#[derive(Clone, Copy, PartialEq, Eq)]
pub(crate) enum LineShape {
    EndMark,
    /// An invocation, of an operation where `op` has the word of one that the format has.
    Invoke(Option<OpName>),
    Respond,
    TryCommit,
    TryAbort,
    Commit,
    Abort,
    /// `ev` has no word of an event.
    Strange,
}

pub(crate) fn op_of(format: Format, value: &Value) -> Option<OpName>
    ensures { result ≡ op_at format (view value.now) }
{
    match word_of(value, "op") {
        Some(word) => OpName::from_word_in(format, word),
        None => None,
    }
}

pub(crate) fn shape_in(format: Format, value: &Value) -> LineShape
    ensures { result ≡ shape_of format (view value.now) }
{
    if value.get("end").is_some() {
        return LineShape::EndMark;
    }
    match word_of(value, "ev") {
        Some(word) => shape_by(format, value, word),
        None => LineShape::Strange,
    }
}

fn shape_by(format: Format, value: &Value, word: &str) -> LineShape
    ensures { result ≡ shape_of_event format (view value.now) word.now }
{
    match word {
        "inv" => LineShape::Invoke(op_of(format, value)),
        "ret" => LineShape::Respond,
        "tryc" => LineShape::TryCommit,
        "trya" => LineShape::TryAbort,
        "commit" => LineShape::Commit,
        "abort" => LineShape::Abort,
        _ => LineShape::Strange,
    }
}

static END_KEYS: [&str; 2] = ["end", "log"];

static BASE_KEYS: [&str; 5] = ["at", "ev", "log", "stamp", "tx"];

static OPERATION_KEYS: [&str; 7] = ["ob", "op", "at", "ev", "log", "stamp", "tx"];

static ARGUMENT_KEYS: [&str; 8] = ["arg", "ob", "op", "at", "ev", "log", "stamp", "tx"];

static ANSWER_KEYS: [&str; 8] = ["ans", "ob", "op", "at", "ev", "log", "stamp", "tx"];

static PAIR_KEYS: [&str; 9] = ["arg", "val", "ob", "op", "at", "ev", "log", "stamp", "tx"];

static ALL_KEYS: [&str; 9] = ["ans", "arg", "ob", "op", "at", "ev", "log", "stamp", "tx"];

static ALL_KEYS_TWO: [&str; 10] = [
    "ans", "arg", "val", "ob", "op", "at", "ev", "log", "stamp", "tx",
];

fn operation_keys(op: OpName) -> &'static [&'static str]
    ensures { map (λ k. k.now) result.now ≡ required (LineShape.Invoke (Some op)) }
{
    match op.signature().takes {
        Takes::Nothing => OPERATION_KEYS.as_slice(),
        Takes::Number | Takes::Addend => ARGUMENT_KEYS.as_slice(),
        Takes::Pair => PAIR_KEYS.as_slice(),
    }
}

/// The keys that a line of a record can have at all.
fn all_keys(format: Format) -> &'static [&'static str]
    ensures { map (λ k. k.now) result.now ≡ all_keys format }
{
    match format {
        Format::One => ALL_KEYS.as_slice(),
        Format::Two => ALL_KEYS_TWO.as_slice(),
    }
}

pub(crate) fn required_keys(shape: LineShape) -> &'static [&'static str]
    ensures { map (λ k. k.now) result.now ≡ required shape }
{
    match shape {
        LineShape::EndMark => END_KEYS.as_slice(),
        LineShape::Invoke(Some(op)) => operation_keys(op),
        LineShape::Invoke(None) => OPERATION_KEYS.as_slice(),
        LineShape::Respond => ANSWER_KEYS.as_slice(),
        LineShape::TryCommit
        | LineShape::TryAbort
        | LineShape::Commit
        | LineShape::Abort
        | LineShape::Strange => { BASE_KEYS.as_slice() }
    }
}

pub(crate) fn allowed_keys(format: Format, shape: LineShape) -> &'static [&'static str]
    ensures { map (λ k. k.now) result.now ≡ allowed format shape }
{
    match shape {
        LineShape::Invoke(None) => all_keys(format),
        LineShape::Strange => all_keys(format),
        other => required_keys(other),
    }
}
