//! Functions of texts.
ghost use Rattle.std.specs.Prelude.{◌≡◌, ◌++◌, ◌≤◌, IfOk, OnOk};
ghost use Rattle.std.specs.List.{concat};
ghost use Rattle.std.specs.Option.{option_map};
ghost use Rattle.std.specs.Str.{str_to_ascii_lowercase, str_to_ascii_uppercase};
ghost use Rattle.func_lib.specs.Texts.{lower_of, upper_of, place_in, end_in, part_of, text_and_places, substring_of, without, remove_bytes_of};
ghost use Rattle.func_lib.specs.Texts.{starts_with_of, ends_with_of, string_of, behind, to_string_of, written_of, concat_of};
ghost use Rattle.edge_base.specs.Printed.{signed, truth_word};
ghost use Rattle.func_lib.specs.Arguments.{all_of};

use crate::arguments::{one_text, only_of, optional_number, two_or_three, two_texts};
use edge_base::{Memory, Text, TextBuilder, print_addr};
use edge_fields::Value;
use std::alloc::Global;

/// A text in lower case.
fn lowered(alloc: Global, text: &[u8]) -> Result<Text, Memory>
    ensures { IfOk result (λ lowered. lowered ≡ str_to_ascii_lowercase text.now) }
{
    let mut bytes = Vec::from_slice(alloc, text)?;
    bytes.make_ascii_lowercase();
    Ok(Text::from_vec(bytes))
}

/// A text in upper case.
fn raised(alloc: Global, text: &[u8]) -> Result<Text, Memory>
    ensures { IfOk result (λ raised. raised ≡ str_to_ascii_uppercase text.now) }
{
    let mut bytes = Vec::from_slice(alloc, text)?;
    bytes.make_ascii_uppercase();
    Ok(Text::from_vec(bytes))
}

/// `lower(text)`
pub(crate) fn lower(alloc: Global, args: &[Value]) -> Result<Option<Value>, Memory>
    ensures { IfOk result (λ found. found ≡ lower_of args.now) }
{
    match one_text(args) {
        Some(text) => Ok(Some(Value::Text(lowered(alloc, text)?))),
        None => Ok(None),
    }
}

/// `upper(text)`
pub(crate) fn upper(alloc: Global, args: &[Value]) -> Result<Option<Value>, Memory>
    ensures { IfOk result (λ found. found ≡ upper_of args.now) }
{
    match one_text(args) {
        Some(text) => Ok(Some(Value::Text(raised(alloc, text)?))),
        None => Ok(None),
    }
}

/// A place in a text of so many bytes.
fn place_in(size: usize, place: i64) -> usize
    ensures value { result ≡ place_in size place }
    ensures within { result ≤ size }
{
    if place < 0 {
        size.saturating_sub(place.unsigned_abs() as usize)
    } else {
        size.min(place as usize)
    }
}

/// The place at which a part of a text of so many bytes ends.
fn end_in(size: usize, end: Option<i64>) -> usize
    ensures value { result ≡ end_in size end }
    ensures within { result ≤ size }
{
    match end {
        Some(place) => place_in(size, place),
        None => size,
    }
}

/// The bytes from one place up to another.
fn part_of(text: &[u8], start: i64, end: Option<i64>) -> &[u8]
    ensures { result.now ≡ part_of text.now start end }
{
    let from = place_in(text.len(), start);
    let to = end_in(text.len(), end);
    if from < to { &text[from..to] } else { &[] }
}

/// A text, a place and perhaps another.
fn text_and_places(args: &[Value]) -> Option<(&[u8], i64, Option<i64>)>
    ensures { option_map (λ found. (found.0.now, found.1, found.2)) result ≡ text_and_places args.now }
{
    let (text, start, end) = two_or_three(args)?;
    let text = text.as_text()?.bytes();
    let start = start.as_number()?;
    Some((text, start, optional_number(end)?))
}

/// `substring(text, start)` and `substring(text, start, end)`
pub(crate) fn substring(alloc: Global, args: &[Value]) -> Result<Option<Value>, Memory>
    ensures { IfOk result (λ found. found ≡ substring_of args.now) }
{
    match text_and_places(args) {
        Some((text, start, end)) => Ok(Some(Value::Text(Text::of(
            alloc,
            part_of(text, start, end),
        )?))),
        None => Ok(None),
    }
}

/// A text without every byte that occurs in another.
fn without(alloc: Global, removed: &[u8], text: &[u8]) -> Result<Text, Memory>
    ensures { IfOk result (λ rest. rest ≡ without removed.now text.now) }
{
    let mut rest = Vec::new(alloc);
    for &byte in text {
        if !removed.contains(&byte) {
            rest.push(byte)?;
        }
    }
    Ok(Text::from_vec(rest))
}

/// `remove_bytes(text, removed)`
pub(crate) fn remove_bytes(alloc: Global, args: &[Value]) -> Result<Option<Value>, Memory>
    ensures { IfOk result (λ found. found ≡ remove_bytes_of args.now) }
{
    match two_texts(args) {
        Some((text, removed)) => Ok(Some(Value::Text(without(alloc, removed, text)?))),
        None => Ok(None),
    }
}

/// `starts_with(text, front)`. Takes no memory.
pub(crate) fn starts_with(args: &[Value]) -> Option<Value>
    ensures { result ≡ starts_with_of args.now }
{
    let (text, front) = two_texts(args)?;
    Some(Value::Bool(text.starts_with(front)))
}

/// `ends_with(text, end)`. Takes no memory.
pub(crate) fn ends_with(args: &[Value]) -> Option<Value>
    ensures { result ≡ ends_with_of args.now }
{
    let (text, end) = two_texts(args)?;
    Some(Value::Bool(text.ends_with(end)))
}

/// A truth value as a word.
fn truth_word(truth: bool) -> &'static [u8]
    ensures { result.now ≡ truth_word truth }
{
    if truth { b"true" } else { b"false" }
}

/// Writes a number, an address or a truth value; gives nothing for another value.
fn push_string(alloc: Global, text: &mut TextBuilder, value: &Value) -> Result<Option<()>, Memory>
    ensures { IfOk result (λ found. option_map (λ _. text.new) found ≡ behind text.old (string_of value.now)) }
{
    match value {
        Value::Num(number) => text.push_signed(*number)?,
        Value::Addr(addr) => text.push(print_addr(alloc, *addr)?.bytes())?,
        Value::Bool(truth) => text.push(truth_word(*truth))?,
        Value::Text(_) | Value::Array(_) | Value::Map(_) => return Ok(None),
    }
    Ok(Some(()))
}

/// `to_string(value)`
pub(crate) fn to_string(alloc: Global, args: &[Value]) -> Result<Option<Value>, Memory>
    ensures { IfOk result (λ found. found ≡ to_string_of args.now) }
{
    let Some(value) = only_of(args) else {
        return Ok(None);
    };
    let mut text = TextBuilder::new(alloc);
    match push_string(alloc, &mut text, value)? {
        Some(()) => Ok(Some(Value::Text(text.into_text()))),
        None => Ok(None),
    }
}

/// Writes a text as it is, and another value as `to_string` does.
fn push_written(alloc: Global, text: &mut TextBuilder, value: &Value) -> Result<Option<()>, Memory>
    ensures { IfOk result (λ found. option_map (λ _. text.new) found ≡ behind text.old (written_of value.now)) }
{
    match value {
        Value::Text(bytes) => {
            text.push(bytes.bytes())?;
            Ok(Some(()))
        }
        _ => push_string(alloc, text, value),
    }
}

/// Values as they are written, joined.
fn joined(alloc: Global, values: &[Value]) -> Result<Option<Text>, Memory>
    ensures { IfOk result (λ found. found ≡ option_map concat (all_of written_of values.now)) }
{
    let mut text = TextBuilder::new(alloc);
    for value in values {
        if push_written(alloc, &mut text, value)?.is_none() {
            return Ok(None);
        }
    }
    Ok(Some(text.into_text()))
}

/// `concat(value, ..)`
pub(crate) fn concat(alloc: Global, args: &[Value]) -> Result<Option<Value>, Memory>
    ensures { IfOk result (λ found. found ≡ concat_of args.now) }
{
    if args.is_empty() || 16 < args.len() {
        return Ok(None);
    }
    match joined(alloc, args)? {
        Some(text) => Ok(Some(Value::Text(text))),
        None => Ok(None),
    }
}
