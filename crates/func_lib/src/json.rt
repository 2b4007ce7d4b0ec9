//! Functions of JSON texts.
ghost use Rattle.std.specs.Prelude.{◌≡◌, ◌↔◌, IfOk, IsTrue};
ghost use Rattle.std.specs.Option.{option_map};
ghost use Rattle.serde_json.specs.Errors.{IsMemory};
ghost use Rattle.serde_json.specs.View.{view};
ghost use Rattle.func_lib.specs.Json.{json_of, member_of, element_of, step_of, found_at, text_and_keys, lookup_json_string_of, lookup_json_integer_of};

use edge_base::{Memory, Text};
use edge_fields::Value;
use serde_json::{Category, Error, Value as Json};
use std::alloc::Global;

/// Whether a read failed for want of memory.
fn is_memory(error: &Error) -> bool
    ensures { IsTrue result ↔ IsMemory error.now }
{
    error.classify() == Category::Memory
}

/// The JSON value that a text is, if it is one.
fn json_of(alloc: Global, text: &[u8]) -> Result<Option<Json>, Memory>
    ensures { IfOk result (λ found. option_map view found ≡ json_of text.now) }
{
    match Json::from_slice(alloc, text) {
        Ok(json) => Ok(Some(json)),
        Err(error) => if is_memory(&error) {
            Err(Memory)
        } else {
            Ok(None)
        },
    }
}

/// The member of an object under a name.
fn member_of<'a>(name: &[u8], json: &'a Json) -> Option<&'a Json>
    ensures { option_map (λ found. view found.now) result ≡ member_of name.now (view json.now) }
{
    match str::from_utf8(name) {
        Ok(name) => json.get(name),
        Err(_) => None,
    }
}

/// The element of an array at a place.
fn element_of<'a>(place: i64, json: &'a Json) -> Option<&'a Json>
    ensures { option_map (λ found. view found.now) result ≡ element_of place (view json.now) }
{
    if place < 0 {
        None
    } else {
        json.get(place as usize)
    }
}

/// What a key leads to.
fn step_of<'a>(key: &Value, json: &'a Json) -> Option<&'a Json>
    ensures { option_map (λ found. view found.now) result ≡ step_of key.now (view json.now) }
{
    match key {
        Value::Text(name) => member_of(name.bytes(), json),
        Value::Num(place) => element_of(*place, json),
        _ => None,
    }
}

/// What keys lead to, one after the other.
fn found_at<'a>(keys: &[Value], json: &'a Json) -> Option<&'a Json>
    ensures { option_map (λ found. view found.now) result ≡ found_at keys.now (view json.now) }
{
    let mut found = json;
    for key in keys {
        found = step_of(key, found)?;
    }
    Some(found)
}

/// A text and from one key to eight.
fn text_and_keys(args: &[Value]) -> Option<(&[u8], &[Value])>
    ensures { option_map (λ found. (found.0.now, found.1.now)) result ≡ text_and_keys args.now }
{
    let [text, keys @ ..] = args else {
        return None;
    };
    if keys.is_empty() || 8 < keys.len() {
        return None;
    }
    Some((text.as_text()?.bytes(), keys))
}

/// `lookup_json_string(text, key, ..)`
pub(crate) fn lookup_json_string(alloc: Global, args: &[Value]) -> Result<Option<Value>, Memory>
    ensures { IfOk result (λ found. found ≡ lookup_json_string_of args.now) }
{
    let Some((text, keys)) = text_and_keys(args) else {
        return Ok(None);
    };
    let Some(json) = json_of(alloc, text)? else {
        return Ok(None);
    };
    match found_at(keys, &json).and_then(Json::as_str) {
        Some(string) => Ok(Some(Value::Text(Text::of(alloc, string.as_bytes())?))),
        None => Ok(None),
    }
}

/// `lookup_json_integer(text, key, ..)`
pub(crate) fn lookup_json_integer(alloc: Global, args: &[Value]) -> Result<Option<Value>, Memory>
    ensures { IfOk result (λ found. found ≡ lookup_json_integer_of args.now) }
{
    let Some((text, keys)) = text_and_keys(args) else {
        return Ok(None);
    };
    let Some(json) = json_of(alloc, text)? else {
        return Ok(None);
    };
    match found_at(keys, &json).and_then(Json::as_i64) {
        Some(number) => Ok(Some(Value::Num(number))),
        None => Ok(None),
    }
}
