ghost use Rattle.std.specs.Prelude.{◌≡◌, option_map, is_some, string_bytes};
ghost use Rattle.std.specs.List.{list_all};
ghost use Rattle.serde_json.specs.Events.{items_len};
ghost use Rattle.serde_json.specs.View.{view, items_view};
ghost use Rattle.serde_json.specs.Find.{get, as_str, as_array};
ghost use Rattle.ruleset_model.specs.Forms.{is_token_byte};
ghost use Rattle.trace_form.specs.Members.{has_members, text_of, is_token};
ghost use Rattle.trace_form.specs.Found.{HasOthers};

use serde_json::Value;

/// The bytes of a token beside letters and digits.
const TOKEN_MARKS: &[u8] = b"!#$%&'*+-.^_`|~";

/// Whether the value is an object of so many members.
pub fn has_members(value: &Value, count: usize) -> bool
    ensures { result ≡ has_members count (view value.now) }
{
    match value.as_object() {
        Some(members) => members.len() == count,
        None => false,
    }
}

/// How many values these are.
pub(crate) fn count_of(values: &[Value]) -> usize
    ensures { result ≡ items_len (items_view values.now) }
{
    values.len()
}

/// The text of a member.
pub fn text_of<'v>(value: &'v Value, name: &str) -> Option<&'v [u8]>
    ensures { option_map (λ text. text.now) result ≡ text_of name.now (view value.now) }
{
    let text = value.get(name)?.as_str()?;
    Some(text.as_bytes())
}

/// Whether the value is an object with this member.
pub(crate) fn has_member(value: &Value, name: &str) -> bool
    ensures { result ≡ is_some (get name.now (view value.now)) }
{
    value.get(name).is_some()
}

/// A member of an object, taken out of it.
pub(crate) fn member_of(value: Value, name: &str) -> Option<Value>
    ensures { option_map view result ≡ get name.now (view value) }
{
    match value {
        Value::Object(mut members) => members.remove(name),
        _ => None,
    }
}

/// A member of an object, taken out of it, and what is left: the other members.
pub(crate) fn split_member(value: Value, name: &str) -> (Option<Value>, Value)
    ensures value { option_map view result.0 ≡ get name.now (view value) }
    ensures others { HasOthers name.now (view value) (view result.1) }
{
    match value {
        Value::Object(mut members) => {
            let member = members.remove(name);
            (member, Value::Object(members))
        }
        other => (None, other),
    }
}

/// The elements of an array.
pub(crate) fn items_of(value: Value) -> Option<Vec<Value>>
    ensures { option_map (λ values. items_view values.items) result ≡ as_array (view value) }
{
    match value {
        Value::Array(values) => Some(values),
        _ => None,
    }
}

/// The text that a value is.
pub(crate) fn string_of(value: Value) -> Option<String>
    ensures { option_map string_bytes result ≡ as_str (view value) }
{
    match value {
        Value::String(text) => Some(text),
        _ => None,
    }
}

fn is_token_byte(byte: u8) -> bool
    ensures { result ≡ is_token_byte byte }
{
    byte.is_ascii_alphanumeric() || TOKEN_MARKS.contains(&byte)
}

fn are_token_bytes(text: &[u8]) -> bool
    ensures { result ≡ list_all is_token_byte text.now }
{
    text.iter().all(|&byte| is_token_byte(byte))
}

/// Whether the text is a token.
pub(crate) fn is_token(text: &[u8]) -> bool
    ensures { result ≡ is_token text.now }
{
    0 < text.len() && are_token_bytes(text)
}
