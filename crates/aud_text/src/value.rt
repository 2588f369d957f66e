//! A line as a JSON value.

ghost use Rattle.std.specs.Prelude.{◌≡◌, ◌⊎◌, Ok, Err, None, Some, IfOk, IfErr, MatchResult};
ghost use Rattle.serde_json.specs.View.{view};
ghost use Rattle.aud_text.specs.Json.{json_of, json_read};

use aud_json::TextFault;
use serde_json::Value;
use std::alloc::Global;

/// The JSON value of a line of at most `limit` bytes.
pub fn json_in(alloc: Global, line: &[u8], limit: usize) -> Result<Value, TextFault>
    ensures { MatchResult result (λ v. json_read limit line.now ≡ Ok (view v))
        (λ e. (e ≡ TextFault.OutOfMemory) ⊎ (json_read limit line.now ≡ Err e)) }
{
    if line.len() > limit {
        return Err(TextFault::TooLong);
    }
    value_in(alloc, line)
}

fn value_in(alloc: Global, line: &[u8]) -> Result<Value, TextFault>
    ensures ok { IfOk result (λ v. json_of line.now ≡ Some (view v)) }
    ensures refused { IfErr result (λ e. (e ≡ TextFault.OutOfMemory) ⊎ ((e ≡ TextFault.NotJson) × (json_of line.now ≡ None))) }
{
    let Ok(text) = simdutf8::compat::from_utf8(line) else {
        return Err(TextFault::NotJson);
    };
    match Value::from_str(alloc, text) {
        Ok(value) => Ok(value),
        Err(error) => {
            if error.is_memory() {
                Err(TextFault::OutOfMemory)
            } else {
                Err(TextFault::NotJson)
            }
        }
    }
}
