//! The fact that a JSON value says, or what is wrong with it.

ghost use Rattle.std.specs.Prelude.{◌≡◌, if◌then◌else◌};
ghost use Rattle.serde_json.specs.View.{view, members_view};
ghost use Rattle.aud_json.specs.Keys.{fits_at, has_all, has_only};
ghost use Rattle.aud_json.specs.Judged.{judged, required, allowed, types_fit, answer_fits, answer_of, answer_of_word, answer_at, object_number, object_at, args_at, fact_of, event_of, record_of, end_of};

use crate::fault::TextFault;
use crate::shape::{LineShape, allowed_keys, op_of, required_keys, shape_in};
use crate::value::{
    has_only_allowed, has_required, small_if_there, small_of, text_if_there, whole_if_there,
    whole_of, word_of,
};
use aud_event::limits::OBJECTS_MAX;
use aud_event::{Answer, Args, EndMark, Event, Fact, Format, OpName, Plan, Record, Takes};
use serde_json::{Map, Value};
use std::alloc::Allocator;

// ---- types

fn answer_if_there(value: &Value, key: &str) -> bool
    ensures { result ≡ fits_at answer_fits key.now (view value.now) }
{
    match value.get(key) {
        Some(found) => match found {
            Value::Bool(_) => true,
            Value::Number(n) => n.is_i64(),
            Value::String(_) => true,
            Value::Null => false,
            Value::Array(_) => false,
            Value::Object(_) => false,
        },
        None => true,
    }
}

fn all_types_fit(value: &Value) -> bool
    ensures { result ≡ types_fit (view value.now) }
{
    small_if_there(value, "at")
        && small_if_there(value, "end")
        && small_if_there(value, "log")
        && small_if_there(value, "stamp")
        && small_if_there(value, "tx")
        && text_if_there(value, "ev")
        && text_if_there(value, "ob")
        && text_if_there(value, "op")
        && whole_if_there(value, "arg")
        && whole_if_there(value, "val")
        && answer_if_there(value, "ans")
}

// ---- the fact

fn answer_word(word: &str) -> Option<Answer>
    ensures { result ≡ answer_of_word word.now }
{
    match word {
        "done" => Some(Answer::Done),
        "empty" => Some(Answer::Empty),
        _ => None,
    }
}

fn answer_in(value: &Value) -> Option<Answer>
    ensures { result ≡ answer_of (view value.now) }
{
    match value {
        Value::Bool(b) => Some(Answer::Flag(*b)),
        Value::Number(n) => match n.as_i64() {
            Some(z) => Some(Answer::Int(z)),
            None => None,
        },
        Value::String(s) => answer_word(s.as_str()),
        Value::Null => None,
        Value::Array(_) => None,
        Value::Object(_) => None,
    }
}

fn answer_at_key(value: &Value) -> Option<Answer>
    ensures { result ≡ answer_at (view value.now) }
{
    match value.get("ans") {
        Some(found) => answer_in(found),
        None => None,
    }
}

/// The number of the object of the name, or the first past the greatest that an object can have.
fn number_in<A: Allocator>(plan: &Plan<A>, name: &str) -> u16
    ensures { result ≡ object_number plan.now name.now }
{
    match plan.number(name) {
        Some(number) => number,
        None => OBJECTS_MAX as u16,
    }
}

fn object_in<A: Allocator>(plan: &Plan<A>, value: &Value) -> Option<u16>
    ensures { result ≡ object_at plan.now (view value.now) }
{
    match word_of(value, "ob") {
        Some(name) => Some(number_in(plan, name)),
        None => None,
    }
}

/// The arguments that stand, where an operation takes such.
fn args_in(takes: Takes, value: &Value) -> Option<Args>
    ensures { result ≡ args_at takes (view value.now) }
{
    match takes {
        Takes::Nothing => Some(Args::Nothing),
        Takes::Number | Takes::Addend => Some(Args::Number(whole_of(value, "arg")?)),
        Takes::Pair => {
            let key = whole_of(value, "arg")?;
            Some(Args::Pair(key, whole_of(value, "val")?))
        }
    }
}

fn invocation<A: Allocator>(plan: &Plan<A>, value: &Value, name: OpName) -> Option<Event>
    ensures { result ≡ event_of plan.now (view value.now) (LineShape.Invoke (Some name)) }
{
    let object = object_in(plan, value)?;
    let args = args_in(name.signature().takes, value)?;
    let op = name.with(args)?;
    Some(Event::Inv(object, op))
}

fn response<A: Allocator>(plan: &Plan<A>, value: &Value) -> Option<Event>
    ensures { result ≡ event_of plan.now (view value.now) LineShape.Respond }
{
    let object = object_in(plan, value)?;
    let op = op_of(plan.format(), value)?;
    let answer = answer_at_key(value)?;
    Some(Event::Ret(object, op, answer))
}

fn record_in(value: &Value, event: Event) -> Option<Fact>
    ensures { result ≡ record_of (view value.now) event }
{
    let log = small_of(value, "log")?;
    let at = small_of(value, "at")?;
    let stamp = small_of(value, "stamp")?;
    let tx = small_of(value, "tx")?;
    Some(Fact::Rec(Record {
        log,
        at,
        stamp,
        tx,
        event,
    }))
}

fn end_mark_in(value: &Value) -> Option<Fact>
    ensures { result ≡ end_of (view value.now) }
{
    let log = small_of(value, "log")?;
    let count = small_of(value, "end")?;
    Some(Fact::End(EndMark { log, count }))
}

fn fact_in<A: Allocator>(plan: &Plan<A>, value: &Value, shape: LineShape) -> Option<Fact>
    ensures { result ≡ fact_of plan.now (view value.now) shape }
{
    match shape {
        LineShape::EndMark => end_mark_in(value),
        LineShape::Invoke(Some(name)) => {
            let event = invocation(plan, value, name)?;
            record_in(value, event)
        }
        LineShape::Invoke(None) => None,
        LineShape::Respond => {
            let event = response(plan, value)?;
            record_in(value, event)
        }
        LineShape::TryCommit => record_in(value, Event::TryC),
        LineShape::TryAbort => record_in(value, Event::TryA),
        LineShape::Commit => record_in(value, Event::Commit),
        LineShape::Abort => record_in(value, Event::Abort),
        LineShape::Strange => None,
    }
}

// ---- the answer

/// The least fault of a value of which no fact comes.
fn fault_of(
    format: Format,
    value: &Value,
    members: &Map<String, Value>,
    shape: LineShape,
) -> TextFault
    ensures { result ≡ (if has_all (required shape) (view value.now)
        then (if has_only (allowed format shape) (members_view members.now.entries)
        then (if types_fit (view value.now) then TextFault.UnknownWord else TextFault.TypeOrRange)
        else TextFault.KeyUnknown)
        else TextFault.KeyMissing) }
{
    if !has_required(value, required_keys(shape)) {
        TextFault::KeyMissing
    } else if !has_only_allowed(members, allowed_keys(format, shape)) {
        TextFault::KeyUnknown
    } else if !all_types_fit(value) {
        TextFault::TypeOrRange
    } else {
        TextFault::UnknownWord
    }
}

/// The fact that a JSON value says in the plan, or the least fault that it deserves. It does not allocate.
pub fn judge<A: Allocator>(plan: &Plan<A>, value: &Value) -> Result<Fact, TextFault>
    ensures { result ≡ judged plan.now (view value.now) }
{
    let Some(members) = value.as_object() else {
        return Err(TextFault::NotObject);
    };
    let format = plan.format();
    let shape = shape_in(format, value);
    // A fact that is built has its keys and their types, so that no more than the other keys are left to look at.
    let fact = match fact_in(plan, value, shape) {
        Some(fact) => fact,
        None => return Err(fault_of(format, value, members, shape)),
    };
    if !has_only_allowed(members, allowed_keys(format, shape)) {
        return Err(TextFault::KeyUnknown);
    }
    match fact.check(plan) {
        Ok(()) => Ok(fact),
        Err(fault) => Err(TextFault::Fact(fault)),
    }
}
