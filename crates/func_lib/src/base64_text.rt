//! Functions of base64.
ghost use Rattle.std.specs.Prelude.{◌≡◌, string_bytes, IfOk};
ghost use Rattle.std.specs.Option.{option_map};
ghost use Rattle.func_lib.specs.Base64.{encoded, text_and_flags, encode_base64_of, decoded, decode_base64_of};

use crate::arguments::{one_or_two, one_text, optional_text};
use base64::DecodeAllocError;
use base64::engine::general_purpose::{STANDARD, STANDARD_NO_PAD, URL_SAFE, URL_SAFE_NO_PAD};
use edge_base::{Memory, Text};
use edge_fields::Value;
use std::alloc::Global;

/// A text by the engine that flags choose.
fn encoded(alloc: Global, flags: &[u8], text: &[u8]) -> Result<Option<String>, Memory>
    ensures { IfOk result (λ found. option_map string_bytes found ≡ encoded flags.now text.now) }
{
    if flags.is_empty() {
        Ok(Some(STANDARD_NO_PAD.encode(alloc, text)?))
    } else if flags == b"p".as_slice() {
        Ok(Some(STANDARD.encode(alloc, text)?))
    } else if flags == b"u".as_slice() {
        Ok(Some(URL_SAFE_NO_PAD.encode(alloc, text)?))
    } else if flags == b"up".as_slice() || flags == b"pu".as_slice() {
        Ok(Some(URL_SAFE.encode(alloc, text)?))
    } else {
        Ok(None)
    }
}

/// A text and its flags; none are as the empty ones.
fn text_and_flags(args: &[Value]) -> Option<(&[u8], &[u8])>
    ensures { option_map (λ found. (found.0.now, found.1.now)) result ≡ text_and_flags args.now }
{
    let (text, flags) = one_or_two(args)?;
    let text = text.as_text()?.bytes();
    match optional_text(flags)? {
        Some(flags) => Some((text, flags)),
        None => Some((text, &[])),
    }
}

/// `encode_base64(text)` and `encode_base64(text, flags)`
pub(crate) fn encode_base64(alloc: Global, args: &[Value]) -> Result<Option<Value>, Memory>
    ensures { IfOk result (λ found. found ≡ encode_base64_of args.now) }
{
    let Some((text, flags)) = text_and_flags(args) else {
        return Ok(None);
    };
    match encoded(alloc, flags, text)? {
        Some(encoded) => Ok(Some(Value::Text(Text::from_vec(encoded.into_bytes())))),
        None => Ok(None),
    }
}

/// The bytes whose standard encoding is the text, if there are any.
fn decoded(alloc: Global, text: &[u8]) -> Result<Option<Text>, Memory>
    ensures { IfOk result (λ found. found ≡ decoded text.now) }
{
    let read = if text.ends_with(b"=") {
        STANDARD.decode(alloc, text)
    } else {
        STANDARD_NO_PAD.decode(alloc, text)
    };
    match read {
        Ok(bytes) => Ok(Some(Text::from_vec(bytes))),
        Err(DecodeAllocError::DecodeError(_)) => Ok(None),
        Err(DecodeAllocError::OutOfMemory) => Err(Memory),
    }
}

/// `decode_base64(text)`
pub(crate) fn decode_base64(alloc: Global, args: &[Value]) -> Result<Option<Value>, Memory>
    ensures { IfOk result (λ found. found ≡ decode_base64_of args.now) }
{
    let Some(text) = one_text(args) else {
        return Ok(None);
    };
    match decoded(alloc, text)? {
        Some(bytes) => Ok(Some(Value::Text(bytes))),
        None => Ok(None),
    }
}
