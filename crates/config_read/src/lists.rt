ghost use Rattle.std.specs.Prelude.{◌≡◌, map, true, false, IfOk};
ghost use Rattle.std.specs.Bool.{MatchBool};
ghost use Rattle.std.specs.List.{list_all};
ghost use Rattle.serde_json.specs.View.{view};
ghost use Rattle.edge_fields.specs.Schemes.{is_list_kind, AreLists};
ghost use Rattle.list_store.specs.Listed.{list_kinds_of};
ghost use Rattle.list_store.specs.Parts.{is_named};
ghost use Rattle.ruleset_model.specs.Forms.{is_list_name_byte, is_list_name};
ghost use Rattle.config_read.specs.Refusals.{IsAnswerOf};
ghost use Rattle.config_read.specs.Members.{text_of};
ghost use Rattle.config_read.specs.ListsOf.{is_one, form_table, list_kind_of, IsItemOf, item_table, items_table, list_table, list_at, each_list_table, lists_table, front_table, lists_at, FrontIsSettled};

use crate::fault::{Cause, ConfigFault};
use crate::members::{an_object, array_or_none, needed_array, needed_text};
use crate::places::{child, nth};
use crate::refusals::{element_refusal, member_refusal, refuse};
use addr_set::is_item;
use edge_base::{Text, Texts};
use edge_fields::Basic;
use list_store::{ListPart, ListParts};
use serde_json::Value;
use sqlite_items::Items;
use std::alloc::Global;

/// The most bytes of a list's name.
const MAX_NAME: usize = 64;

/// The most items of a list.
const MAX_ITEMS: usize = 50_000;

/// The most lists.
const MAX_LISTS: usize = 64;

/// Whether a value is the number 1, in whole numbers.
fn is_one(value: &Value) -> bool
    ensures { result ≡ is_one (view value.now) }
{
    match value.as_u64() {
        Some(number) => number == 1,
        None => false,
    }
}

/// The form of the document: 1 is the only one.
pub(crate) fn form_of(alloc: Global, document: &Value) -> Result<(), ConfigFault>
    ensures { IsAnswerOf result (form_table (view document.now)) }
{
    match document.get("form") {
        Some(form) => refuse(alloc, !is_one(form), b"", "form", Cause::Shape),
        None => Ok(()),
    }
}

fn is_list_name_byte(byte: u8) -> bool
    ensures { result ≡ is_list_name_byte byte }
{
    byte.is_ascii_lowercase() || byte.is_ascii_digit() || byte == b'_'
}

fn are_list_name_bytes(name: &[u8]) -> bool
    ensures { result ≡ list_all is_list_name_byte name.now }
{
    name.iter().all(|&byte| is_list_name_byte(byte))
}

fn is_list_name(name: &[u8]) -> bool
    ensures { result ≡ is_list_name name.now }
{
    0 < name.len() && name.len() <= MAX_NAME && are_list_name_bytes(name)
}

/// Whether one of the lists has the name.
fn is_named(lists: &[ListPart], name: &[u8]) -> bool
    ensures { result ≡ is_named lists.now name.now }
{
    lists.iter().any(|list| name == list.name.bytes())
}

fn list_kind_of(name: &[u8]) -> Option<Basic>
    ensures { result ≡ list_kind_of name.now }
{
    if name == b"ip".as_slice() {
        Some(Basic::Addr)
    } else if name == b"text".as_slice() {
        Some(Basic::Text)
    } else {
        None
    }
}

/// Whether a list of the kind may have the item.
fn is_item_of(kind: Basic, item: &[u8]) -> bool
    ensures { MatchBool result (IsItemOf kind item.now) (¬ (IsItemOf kind item.now)) }
{
    match kind {
        Basic::Addr => is_item(item),
        Basic::Text | Basic::Num | Basic::Bool => true,
    }
}

/// One item, behind those before it.
fn item_of(
    alloc: Global,
    kind: Basic,
    place: &[u8],
    earlier: &[Text],
    value: &Value,
) -> Result<Text, ConfigFault>
    ensures table { IsAnswerOf result (item_table kind place.now earlier.now (view value.now)) }
    ensures value { IfOk result (λ item. item ≡ text_of (view value.now)) }
{
    let Some(item) = value.as_str() else {
        return Err(element_refusal(alloc, place, earlier.len(), Cause::Shape));
    };
    let item = item.as_bytes();
    if !is_item_of(kind, item) {
        return Err(element_refusal(alloc, place, earlier.len(), Cause::BadListItem));
    }
    Ok(Text::of(alloc, item)?)
}

/// The items of a list.
fn items_of(
    alloc: Global,
    kind: Basic,
    place: &[u8],
    values: &[Value],
) -> Result<Texts, ConfigFault>
    ensures table { IsAnswerOf result (items_table kind place.now (map view values.now)) }
    ensures value { IfOk result (λ items. items ≡ map text_of (map view values.now)) }
{
    let mut items = Items::new(alloc);
    for value in values {
        items.push(item_of(alloc, kind, place, items.as_slice(), value)?)?;
    }
    Ok(items)
}

/// One list, behind those before it.
#[tactic(auto, unfolding(crate::specs::ListsOf::list_table, crate::specs::ListsOf::list_at))]
fn list_of(
    alloc: Global,
    lists: &[u8],
    earlier: &[ListPart],
    value: &Value,
) -> Result<ListPart, ConfigFault>
    ensures table { IsAnswerOf result (list_table lists.now earlier.now (view value.now)) }
    ensures value { IfOk result (λ list. list ≡ list_at (view value.now)) }
    ensures new { IfOk result (λ list. is_named earlier.now list.name ≡ false) }
    ensures kind { IfOk result (λ list. is_list_kind list.kind ≡ true) }
{
    let place = nth(alloc, lists, earlier.len())?;
    let place = place.bytes();
    an_object(alloc, place, value)?;
    let name = needed_text(alloc, place, "name", value)?;
    refuse(alloc, !is_list_name(name), place, "name", Cause::Shape)?;
    refuse(
        alloc,
        is_named(earlier, name),
        place,
        "name",
        Cause::DuplicateList,
    )?;
    let kind = needed_text(alloc, place, "kind", value)?;
    let Some(kind) = list_kind_of(kind) else {
        return Err(member_refusal(alloc, place, "kind", Cause::UnknownKind));
    };
    let values = needed_array(alloc, place, "items", value)?;
    refuse(
        alloc,
        MAX_ITEMS < values.len(),
        place,
        "items",
        Cause::TooManyItems,
    )?;
    let items = items_of(alloc, kind, child(alloc, place, b"items")?.bytes(), values)?;
    Ok(ListPart {
        name: Text::of(alloc, name)?,
        kind,
        items,
    })
}

/// The lists of these elements.
#[tactic(auto, using(crate::proofs::NamedLemmas::one_more, crate::proofs::NamedLemmas::none_named))]
fn each_list(alloc: Global, place: &[u8], values: &[Value]) -> Result<ListParts, ConfigFault>
    ensures table { IsAnswerOf result (each_list_table place.now (map view values.now)) }
    ensures value { IfOk result (λ lists. lists ≡ map list_at (map view values.now)) }
    ensures named { IfOk result (λ lists. AreLists (list_kinds_of lists)) }
{
    let mut lists = Items::new(alloc);
    for value in values {
        lists.push(list_of(alloc, place, lists.as_slice(), value)?)?;
    }
    Ok(lists)
}

/// The lists of a document.
#[tactic(auto, unfolding(crate::specs::ListsOf::lists_table))]
pub(crate) fn lists_in(alloc: Global, document: &Value) -> Result<ListParts, ConfigFault>
    ensures table { IsAnswerOf result (lists_table (view document.now)) }
    ensures value { IfOk result (λ lists. lists ≡ lists_at (view document.now)) }
    ensures named { IfOk result (λ lists. AreLists (list_kinds_of lists)) }
{
    let values = array_or_none(alloc, b"", "lists", document)?;
    refuse(
        alloc,
        MAX_LISTS < values.len(),
        b"",
        "lists",
        Cause::TooMany,
    )?;
    each_list(alloc, b"/lists", values)
}

/// The named lists of a document in their order, or what of the document before its rulesets is refused first.
#[tactic(auto, unfolding(crate::specs::ListsOf::front_table))]
pub fn lists_of(alloc: Global, document: &Value) -> Result<ListParts, ConfigFault>
    ensures table { IsAnswerOf result (front_table (view document.now)) }
    ensures value { IfOk result (λ lists. lists ≡ lists_at (view document.now)) }
{
    an_object(alloc, b"/", document)?;
    form_of(alloc, document)?;
    lists_in(alloc, document)
}

/// A law: a document has at most one first refusal before its rulesets, and none where nothing is refused.
#[tactic(auto, using(crate::proofs::ListsSettled::front_settled))]
pub fn front_is_settled()
    ensures { FrontIsSettled }
{}
