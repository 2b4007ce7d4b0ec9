//! Functions of arrays and maps, and those that take a text apart and put texts together.
ghost use Rattle.std.specs.Prelude.{◌≡◌, ◌<◌, ◌^◌, ◌++◌, ◌∷◌, [], length, map, IfOk, IfSome, MatchOption};
ghost use Rattle.std.specs.List.{list_any, list_all};
ghost use Rattle.std.specs.Option.{option_map};
ghost use Rattle.edge_fields.specs.declared.value.Value.TheVariants as value;
ghost use Rattle.edge_fields.specs.Values.{text_in, truth_in};
ghost use Rattle.func_lib.specs.Arguments.{all_of};
ghost use Rattle.func_lib.specs.Arrays.{any_of, every_of, size_of, len_of, has_key_of, has_text, has_number, has_value_of};
ghost use Rattle.func_lib.specs.Arrays.{IsFirstCut, pieces_between, split_of, parts_behind, joined, array_and_text, join_of};

use crate::arguments::{only_of, pair_of, two_texts};
use edge_base::{Memory, Text, TextBuilder};
use edge_fields::{Value, Values};
use memchr::memmem;
use sqlite_items::Items;
use std::alloc::Global;

/// Whether some of these truth values is true.
fn some_truth(values: &[Value]) -> Option<bool>
    ensures { result ≡ option_map (list_any (λ truth. truth)) (all_of truth_in values.now) }
{
    let mut found = false;
    for value in values {
        let truth = value.as_truth()?;
        found = found || truth;
    }
    Some(found)
}

/// Whether each of these truth values is true.
fn every_truth(values: &[Value]) -> Option<bool>
    ensures { result ≡ option_map (list_all (λ truth. truth)) (all_of truth_in values.now) }
{
    let mut so_far = true;
    for value in values {
        let truth = value.as_truth()?;
        so_far = so_far && truth;
    }
    Some(so_far)
}

/// `any(truths)`. Takes no memory.
pub(crate) fn any(args: &[Value]) -> Option<Value>
    ensures { result ≡ any_of args.now }
{
    Some(Value::Bool(some_truth(only_of(args)?.as_items()?)?))
}

/// `all(truths)`. Takes no memory.
pub(crate) fn all(args: &[Value]) -> Option<Value>
    ensures { result ≡ every_of args.now }
{
    Some(Value::Bool(every_truth(only_of(args)?.as_items()?)?))
}

/// How many bytes a text has, or elements an array.
fn size_of(value: &Value) -> Option<usize>
    ensures value { result ≡ size_of value.now }
    ensures within { IfSome result (λ size. size < 2 ^ 63) }
{
    match value {
        Value::Text(text) => Some(text.bytes().len()),
        Value::Array(items) => Some(items.as_slice().len()),
        _ => None,
    }
}

/// `len(text)` and `len(array)`. Takes no memory.
pub(crate) fn len(args: &[Value]) -> Option<Value>
    ensures { result ≡ len_of args.now }
{
    Some(Value::Num(size_of(only_of(args)?)? as i64))
}

/// `has_key(map, key)`. Takes no memory.
pub(crate) fn has_key(args: &[Value]) -> Option<Value>
    ensures { result ≡ has_key_of args.now }
{
    let (map, key) = pair_of(args)?;
    let map = map.as_map()?;
    Some(Value::Bool(map.get(key.as_text()?).is_some()))
}

/// Whether one of some texts is equal to a text.
fn has_text(items: &[Value], value: &Value) -> Option<bool>
    ensures { result ≡ has_text items.now value.now }
{
    let text = value.as_text()?;
    let mut found = false;
    for item in items {
        let other = item.as_text()?;
        found = found || text.bytes() == other.bytes();
    }
    Some(found)
}

/// Whether one of some numbers is equal to a number.
fn has_number(items: &[Value], value: &Value) -> Option<bool>
    ensures { result ≡ has_number items.now value.now }
{
    let number = value.as_number()?;
    let mut found = false;
    for item in items {
        let other = item.as_number()?;
        found = found || number == other;
    }
    Some(found)
}

/// `has_value(texts, text)` and `has_value(numbers, number)`. Takes no memory.
pub(crate) fn has_value(args: &[Value]) -> Option<Value>
    ensures { result ≡ has_value_of args.now }
{
    let (array, value) = pair_of(args)?;
    let items = array.as_items()?;
    match has_text(items, value) {
        Some(found) => Some(Value::Bool(found)),
        None => Some(Value::Bool(has_number(items, value)?)),
    }
}

/// What stands before the first place of a separator and what stands after it.
#[tactic(auto, using(crate::proofs::PieceLemmas::pieces_at_none, crate::proofs::PieceLemmas::pieces_at_first))]
fn first_cut<'a>(separator: &[u8], text: &'a [u8]) -> Option<(&'a [u8], &'a [u8])>
    requires { 0 < length separator.now }
    ensures pieces { IsFirstCut separator.now text.now result }
    ensures shorter { IfSome result (λ cut. length cut.1.now < length text.now) }
{
    let at = memmem::find(text, separator)?;
    Some((&text[..at], &text[at + separator.len()..]))
}

/// The pieces of a text between the places of a separator.
fn pieces_between(alloc: Global, separator: &[u8], text: &[u8]) -> Result<Values, Memory>
    ensures { IfOk result (λ pieces. pieces ≡ map value.Text (pieces_between separator.now text.now)) }
{
    let mut pieces = Items::new(alloc);
    let mut rest = text;
    if !separator.is_empty() {
        while let Some((piece, after)) = first_cut(separator, rest) {
            pieces.push(Value::Text(Text::of(alloc, piece)?))?;
            rest = after;
        }
    }
    pieces.push(Value::Text(Text::of(alloc, rest)?))?;
    Ok(pieces)
}

/// `split(text, separator)`
pub(crate) fn split(alloc: Global, args: &[Value]) -> Result<Option<Value>, Memory>
    ensures { IfOk result (λ found. found ≡ split_of args.now) }
{
    match two_texts(args) {
        Some((text, separator)) => Ok(Some(Value::Array(pieces_between(alloc, separator, text)?))),
        None => Ok(None),
    }
}

/// Writes each text with a separator before it; gives nothing where a value is no text.
fn push_after(
    text: &mut TextBuilder,
    separator: &[u8],
    values: &[Value],
) -> Result<Option<()>, Memory>
    ensures { IfOk result (λ found. option_map (λ _. text.new) found ≡ parts_behind text.old separator.now values.now) }
{
    for value in values {
        let Some(part) = value.as_text() else {
            return Ok(None);
        };
        text.push(separator)?;
        text.push(part.bytes())?;
    }
    Ok(Some(()))
}

/// Texts with a separator between each two.
fn joined(alloc: Global, separator: &[u8], values: &[Value]) -> Result<Option<Text>, Memory>
    ensures { IfOk result (λ found. found ≡ option_map (joined separator.now) (all_of text_in values.now)) }
{
    let mut text = TextBuilder::new(alloc);
    let [first, others @ ..] = values else {
        return Ok(Some(text.into_text()));
    };
    let Some(first) = first.as_text() else {
        return Ok(None);
    };
    text.push(first.bytes())?;
    match push_after(&mut text, separator, others)? {
        Some(()) => Ok(Some(text.into_text())),
        None => Ok(None),
    }
}

/// An array and a text.
fn array_and_text(args: &[Value]) -> Option<(&[Value], &[u8])>
    ensures { option_map (λ found. (found.0.now, found.1.now)) result ≡ array_and_text args.now }
{
    let (array, text) = pair_of(args)?;
    Some((array.as_items()?, text.as_text()?.bytes()))
}

/// `join(texts, separator)`
pub(crate) fn join(alloc: Global, args: &[Value]) -> Result<Option<Value>, Memory>
    ensures { IfOk result (λ found. found ≡ join_of args.now) }
{
    let Some((items, separator)) = array_and_text(args) else {
        return Ok(None);
    };
    match joined(alloc, separator, items)? {
        Some(text) => Ok(Some(Value::Text(text))),
        None => Ok(None),
    }
}
