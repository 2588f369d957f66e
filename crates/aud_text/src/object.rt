//! The object lines of a plan.

ghost use Rattle.std.specs.Prelude.{◌≡◌, ◌⊎◌, Ok, Err, map, option_map, MatchResult};
ghost use Rattle.serde_json.specs.View.{view};
ghost use Rattle.aud_text.specs.PlanText.{says_opening, kind_at, object_required, object_allowed, object_types_fit, opening_at, object_of, object_judged, object_read, declared};

use crate::fact::LINE_MAX;
use crate::value::json_in;
use aud_event::{Format, ObjDecl, ObjKind, Opens};
use aud_json::{
    TextFault, has_only_allowed, has_required, text_if_there, whole_if_there, whole_of, word_of,
};
use serde_json::Value;
use std::alloc::Global;

static CLOSED_KEYS: [&str; 2] = ["kind", "name"];

static OPEN_KEYS: [&str; 3] = ["kind", "name", "open"];

/// What an object line says, with its name in the line's value.
#[derive(Clone, Copy)]
struct ObjectLine<'v> {
    name: &'v str,
    kind: ObjKind,
    opening: i64,
}

fn has_opening(kind: ObjKind) -> bool
    ensures { result ≡ says_opening kind }
{
    match kind.row().opens {
        Opens::Anywhere | Opens::InRange => true,
        Opens::Empty => false,
    }
}

fn kind_in(format: Format, value: &Value) -> Option<ObjKind>
    ensures { result ≡ kind_at format (view value.now) }
{
    match word_of(value, "kind") {
        Some(word) => ObjKind::from_word_in(format, word),
        None => None,
    }
}

fn required_of(kind: Option<ObjKind>) -> &'static [&'static str]
    ensures { map (λ k. k.now) result.now ≡ object_required kind }
{
    match kind {
        Some(known) => {
            if has_opening(known) {
                OPEN_KEYS.as_slice()
            } else {
                CLOSED_KEYS.as_slice()
            }
        }
        None => CLOSED_KEYS.as_slice(),
    }
}

fn allowed_of(kind: Option<ObjKind>) -> &'static [&'static str]
    ensures { map (λ k. k.now) result.now ≡ object_allowed kind }
{
    match kind {
        Some(_) => required_of(kind),
        None => OPEN_KEYS.as_slice(),
    }
}

fn types_fit(value: &Value) -> bool
    ensures { result ≡ object_types_fit (view value.now) }
{
    text_if_there(value, "kind") && text_if_there(value, "name") && whole_if_there(value, "open")
}

fn opening_of(kind: ObjKind, value: &Value) -> Option<i64>
    ensures { result ≡ opening_at kind (view value.now) }
{
    if has_opening(kind) {
        whole_of(value, "open")
    } else {
        Some(0)
    }
}

fn object_in<'v>(value: &'v Value, kind: Option<ObjKind>) -> Option<ObjectLine<'v>>
    ensures { option_map declared result ≡ object_of (view value.now) kind }
{
    let kind = kind?;
    let name = word_of(value, "name")?;
    let opening = opening_of(kind, value)?;
    Some(ObjectLine {
        name,
        kind,
        opening,
    })
}

fn judge_object(format: Format, value: &Value) -> Result<ObjectLine<'_>, TextFault>
    ensures { MatchResult result (λ o. object_judged format (view value.now) ≡ Ok (declared o))
        (λ e. object_judged format (view value.now) ≡ Err e) }
{
    let Some(members) = value.as_object() else {
        return Err(TextFault::NotObject);
    };
    let kind = kind_in(format, value);
    if !has_required(value, required_of(kind)) {
        return Err(TextFault::KeyMissing);
    }
    if !has_only_allowed(members, allowed_of(kind)) {
        return Err(TextFault::KeyUnknown);
    }
    if !types_fit(value) {
        return Err(TextFault::TypeOrRange);
    }
    match object_in(value, kind) {
        Some(object) => Ok(object),
        None => Err(TextFault::UnknownWord),
    }
}

fn declare(alloc: Global, format: Format, value: &Value) -> Result<ObjDecl, TextFault>
    ensures { MatchResult result (λ o. object_judged format (view value.now) ≡ Ok o)
        (λ e. (e ≡ TextFault.OutOfMemory) ⊎ (object_judged format (view value.now) ≡ Err e)) }
{
    let object = match judge_object(format, value) {
        Ok(object) => object,
        Err(fault) => return Err(fault),
    };
    let Ok(name) = String::from_str(alloc, object.name) else {
        return Err(TextFault::OutOfMemory);
    };
    Ok(ObjDecl {
        name,
        kind: object.kind,
        opening: object.opening,
    })
}

/// The object that a line declares in the format.
pub(crate) fn read_object(alloc: Global, format: Format, line: &[u8]) -> Result<ObjDecl, TextFault>
    ensures { MatchResult result (λ o. object_read format line.now ≡ Ok o)
        (λ e. (e ≡ TextFault.OutOfMemory) ⊎ (object_read format line.now ≡ Err e)) }
{
    let value = match json_in(alloc, line, LINE_MAX) {
        Ok(value) => value,
        Err(fault) => return Err(fault),
    };
    declare(alloc, format, &value)
}
