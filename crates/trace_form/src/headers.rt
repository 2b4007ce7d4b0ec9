ghost use Rattle.std.specs.Prelude.{◌≡◌, ◌∷◌, [], length, option_map, string_bytes, IfOk, MatchOption};
ghost use Rattle.serde_json.specs.View.{view, items_view};
ghost use Rattle.trace_form.specs.Asked.{is_header_value, pair_of, header_of, headers_from, headers_in, headers_of};

use crate::members::{count_of, is_token, items_of, member_of, string_of};
use edge_base::{Header, Headers, Memory, Text};
use serde_json::Value;
use std::alloc::Global;

/// The most headers that a request may have.
const MAX_HEADERS: usize = 100;

/// Whether the text may be the value of a header.
fn is_header_value(text: &[u8]) -> bool
    ensures { result ≡ is_header_value text.now }
{
    text.iter()
        .all(|&byte| byte != b'\r' && byte != b'\n' && byte != 0)
}

/// The elements of a list of two.
fn two_of(items: Vec<Value>) -> Option<(Value, Value)>
    ensures { MatchOption result (¬ (length items.items ≡ 2)) (λ two. items.items ≡ two.0 ∷ two.1 ∷ []) }
{
    if items.len() != 2 {
        return None;
    }
    let mut items = items;
    let second = items.pop()?;
    let first = items.pop()?;
    Some((first, second))
}

/// The two texts of a pair, taken out of it.
fn pair_of(value: Value) -> Option<(String, String)>
    ensures { option_map (λ pair. (string_bytes pair.0, string_bytes pair.1)) result ≡ pair_of (view value) }
{
    let (first, second) = two_of(items_of(value)?)?;
    let name = string_of(first)?;
    let text = string_of(second)?;
    Some((name, text))
}

/// The header that a pair stands for, whose texts it takes without a copy.
fn header_of(value: Value) -> Option<Header>
    ensures { result ≡ header_of (view value) }
{
    let (name, text) = pair_of(value)?;
    if !is_token(name.as_bytes()) || !is_header_value(text.as_bytes()) {
        return None;
    }
    Some(Header {
        name: Text::from_vec(name.into_bytes()),
        value: Text::from_vec(text.into_bytes()),
    })
}

/// The headers that all these pairs stand for, in order.
fn headers_from(alloc: Global, values: Vec<Value>) -> Result<Option<Headers>, Memory>
    ensures { IfOk result (λ found. found ≡ headers_from (items_view values.items)) }
{
    let mut headers = Headers::new(alloc);
    for value in values {
        let Some(header) = header_of(value) else {
            return Ok(None);
        };
        headers.push(header)?;
    }
    Ok(Some(headers))
}

/// The headers that an array tells.
fn headers_in(alloc: Global, value: Value) -> Result<Option<Headers>, Memory>
    ensures { IfOk result (λ found. found ≡ headers_in (view value)) }
{
    let Some(pairs) = items_of(value) else {
        return Ok(None);
    };
    if count_of(pairs.as_slice()) <= MAX_HEADERS {
        headers_from(alloc, pairs)
    } else {
        Ok(None)
    }
}

/// The headers of a request, taken out of it.
pub(crate) fn headers_of(alloc: Global, value: Value) -> Result<Option<Headers>, Memory>
    ensures { IfOk result (λ found. found ≡ headers_of (view value)) }
{
    match member_of(value, "headers") {
        None => Ok(Some(Headers::new(alloc))),
        Some(member) => headers_in(alloc, member),
    }
}
