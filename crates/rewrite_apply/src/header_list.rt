//! Changes of headers.
ghost use Rattle.std.specs.Prelude.{◌≡◌, position, IfOk};
ghost use Rattle.edge_fields.specs.Fields.{has_name};
ghost use Rattle.rewrite_apply.specs.Rewrites.{is_value_byte, cleaned_value, new_header, without, with_header, changed, headers_after};

use crate::changes::{Change, HeaderChange, HeaderChanges};
use edge_base::{Header, Headers, Memory, Text, TextBuilder, copy_headers};
use sqlite_items::Items;
use std::alloc::Global;

/// Whether a byte may stand in the value of a header: no control byte but a tab.
fn is_value_byte(byte: u8) -> bool
    ensures { result ≡ is_value_byte byte }
{
    (b' ' <= byte || byte == b'\t') && byte != 0x7f
}

/// A value without the bytes that can't stand in one.
fn cleaned_value(alloc: Global, value: &[u8]) -> Result<Text, Memory>
    ensures { IfOk result (λ text. text ≡ cleaned_value value.now) }
{
    let mut text = TextBuilder::new(alloc);
    for &byte in value {
        if is_value_byte(byte) {
            text.push(&[byte])?;
        }
    }
    Ok(text.into_text())
}

/// A header with its name in lower case.
fn new_header(alloc: Global, name: &[u8], value: &[u8]) -> Result<Header, Memory>
    ensures { IfOk result (λ header. header ≡ new_header name.now value.now) }
{
    let mut lowered = Vec::from_slice(alloc, name)?;
    lowered.make_ascii_lowercase();
    Ok(Header {
        name: Text::from_vec(lowered),
        value: cleaned_value(alloc, value)?,
    })
}

/// Whether a header has a name, ASCII case ignored.
fn has_name(name: &[u8], header: &Header) -> bool
    ensures { result ≡ has_name name.now header.now }
{
    header.name.bytes().eq_ignore_ascii_case(name)
}

/// The headers but for those of a name.
fn without(alloc: Global, name: &[u8], headers: &[Header]) -> Result<Headers, Memory>
    ensures { IfOk result (λ kept. kept ≡ without name.now headers.now) }
{
    let mut kept = Items::new(alloc);
    for header in headers {
        if !has_name(name, header) {
            kept.push(header.copy(alloc)?)?;
        }
    }
    Ok(kept)
}

/// The place of the first header of a name.
fn first_place(name: &[u8], headers: &[Header]) -> Option<usize>
    ensures { result ≡ position (has_name name.now) headers.now }
{
    headers.iter().position(|header| has_name(name, header))
}

/// The headers with one in the place of those of its name, or at the end where there is none.
fn with_header(alloc: Global, header: Header, headers: Headers) -> Result<Headers, Memory>
    ensures { IfOk result (λ made. made ≡ with_header header headers) }
{
    match first_place(header.name.bytes(), headers.as_slice()) {
        Some(at) => {
            let (before, after) = headers.as_slice().split_at(at);
            let mut made = copy_headers(alloc, before)?;
            let others = without(alloc, header.name.bytes(), after)?;
            made.push(header)?;
            made.append(others)?;
            Ok(made)
        }
        None => {
            let mut made = headers;
            made.push(header)?;
            Ok(made)
        }
    }
}

/// The headers after one change.
fn changed(alloc: Global, headers: Headers, change: &HeaderChange) -> Result<Headers, Memory>
    ensures { IfOk result (λ made. made ≡ changed change.now headers) }
{
    let name = change.name.bytes();
    match &change.change {
        Change::Set(value) => with_header(alloc, new_header(alloc, name, value.bytes())?, headers),
        Change::Add(value) => {
            let mut made = headers;
            made.push(new_header(alloc, name, value.bytes())?)?;
            Ok(made)
        }
        Change::Remove => without(alloc, name, headers.as_slice()),
    }
}

/// The headers after some changes, one after the other.
#[tactic(auto, using(crate::proofs::RewriteLemmas::headers_after_take_more))]
pub fn apply_headers(
    alloc: Global,
    headers: Headers,
    changes: &HeaderChanges,
) -> Result<Headers, Memory>
    ensures { IfOk result (λ made. made ≡ headers_after changes.now headers) }
{
    let mut headers = headers;
    for change in changes.as_slice() {
        headers = changed(alloc, headers, change)?;
    }
    Ok(headers)
}
