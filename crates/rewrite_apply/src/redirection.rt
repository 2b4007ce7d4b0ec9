ghost use Rattle.std.specs.Prelude.{◌≡◌, ◌++◌, filter, IfOk, OnOk};
ghost use Rattle.std.specs.List.{list_any};
ghost use Rattle.edge_fields.specs.Target.{is_question};
ghost use Rattle.rewrite_apply.specs.Rewrites.{is_location_byte, location_of};

use edge_base::{Memory, Request, Text, TextBuilder};
use edge_fields::query_of;
use std::alloc::Global;

/// Whether a byte may stand in a location: no control byte.
fn is_location_byte(byte: u8) -> bool
    ensures { result ≡ is_location_byte byte }
{
    b' ' <= byte && byte != 0x7f
}

/// Whether a location holds a `?`.
fn has_question(location: &[u8]) -> bool
    ensures { result ≡ list_any is_question location.now }
{
    location.iter().any(|byte| *byte == b'?')
}

/// Adds the bytes that may stand in a location.
fn push_cleaned(text: &mut TextBuilder, bytes: &[u8]) -> Result<(), Memory>
    ensures { OnOk result (text.new ≡ text.old ++ filter is_location_byte bytes.now) }
{
    for &byte in bytes {
        if is_location_byte(byte) {
            text.push(&[byte])?;
        }
    }
    Ok(())
}

/// Where a redirect leads: its location, with the query of the request behind it where that is to be kept.
pub fn target(
    alloc: Global,
    location: &Text,
    keep_query: bool,
    request: &Request,
) -> Result<Text, Memory>
    ensures { IfOk result (λ text. text ≡ location_of location.now keep_query request.now.target) }
{
    let mut text = TextBuilder::new(alloc);
    push_cleaned(&mut text, location.bytes())?;
    let query = query_of(request);
    if keep_query && !query.is_empty() {
        let mark: &[u8] = if has_question(location.bytes()) {
            b"&"
        } else {
            b"?"
        };
        text.push(mark)?;
        push_cleaned(&mut text, query)?;
    }
    Ok(text.into_text())
}
