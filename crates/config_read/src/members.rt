ghost use Rattle.std.specs.Prelude.{◌≡◌, map, option_map, option_and_then, Some, IfOk, OnOk};
ghost use Rattle.serde_json.specs.View.{view, members_view};
ghost use Rattle.serde_json.specs.Find.{get, as_str, as_bool, as_array, as_object};
ghost use Rattle.ruleset_model.specs.Acts.{AreInOrder};
ghost use Rattle.config_read.specs.Refusals.{IsAnswerOf};
ghost use Rattle.config_read.specs.Members.{list_of, text_of, text, texts, elements, value_or, entries_of, entries, names_in, shown, an_object, needed, typed, needed_text, needed_array, needed_object, a_text, each_text, typed_texts, text_at};

use crate::fault::{Cause, ConfigFault};
use crate::places::child;
use crate::refusals::{element_refusal, member_refusal, refusal};
use edge_base::{Memory, Text, Texts};
use serde_json::{Map, Value};
use sqlite_items::Items;
use std::alloc::Global;

/// The elements of an array.
pub(crate) fn elements_of(value: &Value) -> Option<&[Value]>
    ensures { option_map (λ values. map view values.now) result ≡ option_map list_of (as_array (view value.now)) }
{
    match value.as_array() {
        Some(values) => Some(values.as_slice()),
        None => None,
    }
}

/// Refuses what is no object.
pub(crate) fn an_object(alloc: Global, place: &[u8], value: &Value) -> Result<(), ConfigFault>
    ensures { IsAnswerOf result (an_object place.now (view value.now)) }
{
    match value.as_object() {
        Some(_) => Ok(()),
        None => Err(refusal(alloc, place, Cause::Shape)),
    }
}

/// The text of a member that must be there.
pub(crate) fn needed_text<'v>(
    alloc: Global,
    place: &[u8],
    name: &str,
    value: &'v Value,
) -> Result<&'v [u8], ConfigFault>
    ensures table { IsAnswerOf result (needed_text place.now name.now (view value.now)) }
    ensures value { IfOk result (λ found. found.now ≡ text name.now (view value.now)) }
{
    let Some(member) = value.get(name) else {
        return Err(member_refusal(alloc, place, name, Cause::Missing));
    };
    match member.as_str() {
        Some(text) => Ok(text.as_bytes()),
        None => Err(member_refusal(alloc, place, name, Cause::Shape)),
    }
}

/// The elements of a member that must be there.
pub(crate) fn needed_array<'v>(
    alloc: Global,
    place: &[u8],
    name: &str,
    value: &'v Value,
) -> Result<&'v [Value], ConfigFault>
    ensures table { IsAnswerOf result (needed_array place.now name.now (view value.now)) }
    ensures value { IfOk result (λ found. map view found.now ≡ elements name.now (view value.now)) }
{
    let Some(member) = value.get(name) else {
        return Err(member_refusal(alloc, place, name, Cause::Missing));
    };
    match elements_of(member) {
        Some(values) => Ok(values),
        None => Err(member_refusal(alloc, place, name, Cause::Shape)),
    }
}

/// The elements of a member, by default none.
pub(crate) fn array_or_none<'v>(
    alloc: Global,
    place: &[u8],
    name: &str,
    value: &'v Value,
) -> Result<&'v [Value], ConfigFault>
    ensures table { IsAnswerOf result (typed as_array place.now name.now (view value.now)) }
    ensures value { IfOk result (λ found. map view found.now ≡ elements name.now (view value.now)) }
{
    let Some(member) = value.get(name) else {
        return Ok(&[]);
    };
    match elements_of(member) {
        Some(values) => Ok(values),
        None => Err(member_refusal(alloc, place, name, Cause::Shape)),
    }
}

/// A member that must be there.
pub(crate) fn needed<'v>(
    alloc: Global,
    place: &[u8],
    name: &str,
    value: &'v Value,
) -> Result<&'v Value, ConfigFault>
    ensures table { IsAnswerOf result (needed place.now name.now (view value.now)) }
    ensures value { IfOk result (λ found. get name.now (view value.now) ≡ Some (view found.now)) }
{
    match value.get(name) {
        Some(member) => Ok(member),
        None => Err(member_refusal(alloc, place, name, Cause::Missing)),
    }
}

/// A member that must be there and is an object.
pub(crate) fn needed_object<'v>(
    alloc: Global,
    place: &[u8],
    name: &str,
    value: &'v Value,
) -> Result<&'v Value, ConfigFault>
    ensures table { IsAnswerOf result (needed_object place.now name.now (view value.now)) }
    ensures value { IfOk result (λ found. get name.now (view value.now) ≡ Some (view found.now)) }
{
    let Some(member) = value.get(name) else {
        return Err(member_refusal(alloc, place, name, Cause::Missing));
    };
    match member.as_object() {
        Some(_) => Ok(member),
        None => Err(member_refusal(alloc, place, name, Cause::Shape)),
    }
}

/// A member that is an object, where it is there.
pub(crate) fn object_if_there<'v>(
    alloc: Global,
    place: &[u8],
    name: &str,
    value: &'v Value,
) -> Result<Option<&'v Value>, ConfigFault>
    ensures table { IsAnswerOf result (typed as_object place.now name.now (view value.now)) }
    ensures value { IfOk result (λ found. option_map (λ one. view one.now) found ≡ get name.now (view value.now)) }
{
    let Some(member) = value.get(name) else {
        return Ok(None);
    };
    match member.as_object() {
        Some(_) => Ok(Some(member)),
        None => Err(member_refusal(alloc, place, name, Cause::Shape)),
    }
}

/// The text of a member, by default this one.
pub(crate) fn text_or<'v>(
    alloc: Global,
    place: &[u8],
    name: &str,
    value: &'v Value,
    default: &'v [u8],
) -> Result<&'v [u8], ConfigFault>
    ensures table { IsAnswerOf result (typed as_str place.now name.now (view value.now)) }
    ensures value { IfOk result (λ found. found.now ≡ value_or as_str default.now name.now (view value.now)) }
{
    let Some(member) = value.get(name) else {
        return Ok(default);
    };
    match member.as_str() {
        Some(text) => Ok(text.as_bytes()),
        None => Err(member_refusal(alloc, place, name, Cause::Shape)),
    }
}

/// The text of a member, where it is there.
pub(crate) fn text_if_there<'v>(
    alloc: Global,
    place: &[u8],
    name: &str,
    value: &'v Value,
) -> Result<Option<&'v [u8]>, ConfigFault>
    ensures table { IsAnswerOf result (typed as_str place.now name.now (view value.now)) }
    ensures value { IfOk result (λ found. option_map (λ one. one.now) found ≡ text_at name.now (view value.now)) }
{
    let Some(member) = value.get(name) else {
        return Ok(None);
    };
    match member.as_str() {
        Some(text) => Ok(Some(text.as_bytes())),
        None => Err(member_refusal(alloc, place, name, Cause::Shape)),
    }
}

/// The truth value of a member, where it is there.
pub(crate) fn truth_if_there(
    alloc: Global,
    place: &[u8],
    name: &str,
    value: &Value,
) -> Result<Option<bool>, ConfigFault>
    ensures table { IsAnswerOf result (typed as_bool place.now name.now (view value.now)) }
    ensures value { IfOk result (λ found. found ≡ option_and_then as_bool (get name.now (view value.now))) }
{
    let Some(member) = value.get(name) else {
        return Ok(None);
    };
    match member.as_bool() {
        Some(truth) => Ok(Some(truth)),
        None => Err(member_refusal(alloc, place, name, Cause::Shape)),
    }
}

/// The text of an element, behind those before it.
fn a_text<'v>(
    alloc: Global,
    place: &[u8],
    earlier: &[Text],
    value: &'v Value,
) -> Result<&'v [u8], ConfigFault>
    ensures table { IsAnswerOf result (a_text place.now earlier.now (view value.now)) }
    ensures value { IfOk result (λ found. found.now ≡ text_of (view value.now)) }
{
    match value.as_str() {
        Some(text) => Ok(text.as_bytes()),
        None => Err(element_refusal(alloc, place, earlier.len(), Cause::Shape)),
    }
}

/// The texts of the elements of an array.
pub(crate) fn each_text(alloc: Global, place: &[u8], values: &[Value]) -> Result<Texts, ConfigFault>
    ensures table { IsAnswerOf result (each_text place.now (map view values.now)) }
    ensures value { IfOk result (λ texts. texts ≡ map text_of (map view values.now)) }
{
    let mut texts = Items::new(alloc);
    for value in values {
        let text = a_text(alloc, place, texts.as_slice(), value)?;
        texts.push(Text::of(alloc, text)?)?;
    }
    Ok(texts)
}

/// The texts of a member, by default none.
pub(crate) fn texts_or_none(
    alloc: Global,
    place: &[u8],
    name: &str,
    value: &Value,
) -> Result<Texts, ConfigFault>
    ensures table { IsAnswerOf result (typed_texts place.now name.now (view value.now)) }
    ensures value { IfOk result (λ found. found ≡ texts name.now (view value.now)) }
{
    let values = array_or_none(alloc, place, name, value)?;
    each_text(alloc, child(alloc, place, name.as_bytes())?.bytes(), values)
}

/// The text of a member, by default empty.
pub(crate) fn text<'v>(value: &'v Value, name: &str) -> &'v [u8]
    ensures { result.now ≡ text name.now (view value.now) }
{
    match value.get(name) {
        Some(member) => text_of(member),
        None => b"",
    }
}

/// The text that a value is, by default empty.
fn text_of(value: &Value) -> &[u8]
    ensures { result.now ≡ text_of (view value.now) }
{
    match value.as_str() {
        Some(text) => text.as_bytes(),
        None => b"",
    }
}

/// The truth value of a member, by default this one.
pub(crate) fn truth_or(
    alloc: Global,
    place: &[u8],
    name: &str,
    value: &Value,
    default: bool,
) -> Result<bool, ConfigFault>
    ensures table { IsAnswerOf result (typed as_bool place.now name.now (view value.now)) }
    ensures value { IfOk result (λ found. found ≡ value_or as_bool default name.now (view value.now)) }
{
    let Some(member) = value.get(name) else {
        return Ok(default);
    };
    match member.as_bool() {
        Some(truth) => Ok(truth),
        None => Err(member_refusal(alloc, place, name, Cause::Shape)),
    }
}

/// A member of an object: its name and its value.
pub(crate) type Entry<'v> = (&'v str, &'v Value);

/// The members of an object, in byte order of their names.
pub(crate) fn entries_of<'v>(
    alloc: Global,
    members: &'v Map<String, Value>,
) -> Result<Vec<Entry<'v>>, Memory>
    ensures value { IfOk result (λ found. map shown found.items ≡ entries_of (members_view members.now.entries)) }
    ensures ordered { OnOk result (AreInOrder (names_in (entries_of (members_view members.now.entries)))) }
{
    let mut found = Vec::new(alloc);
    for (name, value) in members.iter() {
        found.push((name.as_str(), value))?;
    }
    Ok(found)
}

/// The members of a member that is an object, by default none.
#[tactic(auto, using(crate::proofs::MemberLemmas::absent_ordered, crate::proofs::MemberLemmas::held_ordered))]
pub(crate) fn entries_or_none<'v>(
    alloc: Global,
    place: &[u8],
    name: &str,
    value: &'v Value,
) -> Result<Vec<Entry<'v>>, ConfigFault>
    ensures table { IsAnswerOf result (typed as_object place.now name.now (view value.now)) }
    ensures value { IfOk result (λ found. map shown found.items ≡ entries name.now (view value.now)) }
    ensures ordered { OnOk result (AreInOrder (names_in (entries name.now (view value.now)))) }
{
    let Some(member) = value.get(name) else {
        return Ok(Vec::new(alloc));
    };
    match member.as_object() {
        Some(members) => Ok(entries_of(alloc, members)?),
        None => Err(member_refusal(alloc, place, name, Cause::Shape)),
    }
}
