//! The header line of a plan.

ghost use Rattle.std.specs.Prelude.{◌≡◌, ◌⊎◌, Err, map};
ghost use Rattle.serde_json.specs.View.{view};
ghost use Rattle.aud_text.specs.PlanText.{format_of, header_of, header_keys, header_read, header_members, header_fault};
ghost use Rattle.serde_json.specs.Find.{as_object};

use crate::fact::LINE_MAX;
use crate::value::json_in;
use aud_event::limits::{LOGS_MAX, OBJECTS_MAX};
use aud_event::{Format, PlanFault};
use aud_json::{TextFault, has_only_allowed, has_required, small_of};
use serde_json::Value;
use std::alloc::Global;

/// The format of a plan, how many logs it has, and how many lines of objects follow.
#[derive(Clone, Copy, PartialEq, Eq)]
pub(crate) struct Header {
    pub format: Format,
    pub logs: u32,
    pub objects: u32,
}

static HEADER_KEYS: [&str; 3] = ["format", "logs", "objects"];

fn keys_of_header() -> &'static [&'static str]
    ensures { map (λ k. k.now) result.now ≡ header_keys }
{
    HEADER_KEYS.as_slice()
}

fn format_of(number: u32) -> Option<Format>
    ensures { result ≡ format_of number }
{
    match number {
        1 => Some(Format::One),
        2 => Some(Format::Two),
        _ => None,
    }
}

fn header_in(value: &Value) -> Option<Header>
    ensures { result ≡ header_of (view value.now) }
{
    let format = format_of(small_of(value, "format")?)?;
    let logs = small_of(value, "logs")?;
    let objects = small_of(value, "objects")?;
    Some(Header {
        format,
        logs,
        objects,
    })
}

fn judge_header(value: &Value) -> Result<Header, TextFault>
    ensures { result ≡ header_members (view value.now) (as_object (view value.now)) }
{
    let Some(members) = value.as_object() else {
        return Err(TextFault::NotObject);
    };
    let keys = keys_of_header();
    if !has_required(value, keys) {
        return Err(TextFault::KeyMissing);
    }
    if !has_only_allowed(members, keys) {
        return Err(TextFault::KeyUnknown);
    }
    match header_in(value) {
        Some(header) => Ok(header),
        None => Err(TextFault::TypeOrRange),
    }
}

pub(crate) fn read_header(alloc: Global, line: &[u8]) -> Result<Header, TextFault>
    ensures { (result ≡ Err TextFault.OutOfMemory) ⊎ (result ≡ header_read line.now) }
{
    let value = match json_in(alloc, line, LINE_MAX) {
        Ok(value) => value,
        Err(fault) => return Err(fault),
    };
    judge_header(&value)
}

/// The fault of a plan that shows before its objects are read.
pub(crate) fn fault_of_header(header: Header) -> Option<PlanFault>
    ensures { result ≡ header_fault header }
{
    if header.logs == 0 {
        Some(PlanFault::NoLogs)
    } else if header.logs > LOGS_MAX {
        Some(PlanFault::TooManyLogs)
    } else if header.objects as usize > OBJECTS_MAX {
        Some(PlanFault::TooManyObjects)
    } else {
        None
    }
}
