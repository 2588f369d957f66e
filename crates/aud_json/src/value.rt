//! Tests of the keys of a JSON value, and of the types of what stands there.

ghost use Rattle.std.specs.Prelude.{◌≡◌, map, bytes_eq, string_bytes, is_some, option_map};
ghost use Rattle.std.specs.BTreeMap.{keys as keys_in};
ghost use Rattle.std.specs.List.{list_all, list_any};
ghost use Rattle.serde_json.specs.Find.{as_str};
ghost use Rattle.serde_json.specs.View.{view, members_view};
ghost use Rattle.aud_json.specs.Keys.{has, has_all, has_only, fits_at, small, whole, small_at, whole_at, word_at};

use serde_json::{Map, Value};

// ---- keys

fn has_key(value: &Value, key: &str) -> bool
    ensures { result ≡ has key.now (view value.now) }
{
    value.get(key).is_some()
}

fn has_each(value: &Value, keys: &[&str]) -> bool
    ensures { result ≡ list_all (λ k. has k.now (view value.now)) keys.now }
{
    keys.iter().all(|key| has_key(value, key))
}

fn is_among(keys: &[&str], key: &str) -> bool
    ensures { result ≡ list_any (λ k. bytes_eq k.now key.now) keys.now }
{
    keys.iter().any(|known| *known == key)
}

fn has_no_other(members: &Map<String, Value>, keys: &[&str]) -> bool
    ensures { result ≡ list_all (λ m. list_any (λ k. bytes_eq k.now (string_bytes m)) keys.now) (keys_in members.now) }
{
    members.keys().all(|key| is_among(keys, key.as_str()))
}

/// Whether each of the keys stands in the value.
pub fn has_required(value: &Value, keys: &[&str]) -> bool
    ensures { result ≡ has_all (map (λ k. k.now) keys.now) (view value.now) }
{
    has_each(value, keys)
}

/// Whether no key stands in the object but these.
pub fn has_only_allowed(members: &Map<String, Value>, keys: &[&str]) -> bool
    ensures { result ≡ has_only (map (λ k. k.now) keys.now) (members_view members.now.entries) }
{
    has_no_other(members, keys)
}

// ---- what stands at a key

/// The whole number below 2^32 at the key.
pub fn small_of(value: &Value, key: &str) -> Option<u32>
    ensures { result ≡ small_at key.now (view value.now) }
{
    match value.get(key).and_then(Value::as_u64) {
        Some(n) => {
            if n < 4_294_967_296 {
                Some(n as u32)
            } else {
                None
            }
        }
        None => None,
    }
}

/// The whole number of i64 at the key.
pub fn whole_of(value: &Value, key: &str) -> Option<i64>
    ensures { result ≡ whole_at key.now (view value.now) }
{
    value.get(key).and_then(Value::as_i64)
}

/// The text at the key.
pub fn word_of<'v>(value: &'v Value, key: &str) -> Option<&'v str>
    ensures { option_map (λ s. s.now) result ≡ word_at key.now (view value.now) }
{
    match value.get(key) {
        Some(found) => found.as_str(),
        None => None,
    }
}

// ---- types

pub(crate) fn small_if_there(value: &Value, key: &str) -> bool
    ensures { result ≡ fits_at (λ e. is_some (small e)) key.now (view value.now) }
{
    match value.get(key) {
        Some(found) => match found.as_u64() {
            Some(n) => n < 4_294_967_296,
            None => false,
        },
        None => true,
    }
}

/// Whether what stands at the key, if anything does, is a text.
pub fn text_if_there(value: &Value, key: &str) -> bool
    ensures { result ≡ fits_at (λ e. is_some (as_str e)) key.now (view value.now) }
{
    match value.get(key) {
        Some(found) => found.is_string(),
        None => true,
    }
}

/// Whether what stands at the key, if anything does, is a whole number of i64.
pub fn whole_if_there(value: &Value, key: &str) -> bool
    ensures { result ≡ fits_at (λ e. is_some (whole e)) key.now (view value.now) }
{
    match value.get(key) {
        Some(found) => found.is_i64(),
        None => true,
    }
}
