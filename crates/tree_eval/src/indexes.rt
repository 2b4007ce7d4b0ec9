//! Elements of arrays and arrays of maps.
ghost use Rattle.std.specs.Prelude.{◌≡◌, IfOk};
ghost use Rattle.std.specs.Option.{option_and_then};
ghost use Rattle.edge_fields.specs.Fields.{texts};
ghost use Rattle.type_check.specs.Meaning.{element_at, array_at};
ghost use Rattle.edge_fields.specs.Values.{items_in};

use edge_base::{Memory, Text};
use edge_fields::{Value, Values};
use sqlite_items::Items;
use std::alloc::Global;

/// The elements of an array. Takes no memory.
pub fn items_in(value: Option<Value>) -> Option<Values>
    ensures { result ≡ option_and_then items_in value }
{
    match value? {
        Value::Array(items) => Some(items),
        _ => None,
    }
}

/// The element of an array at a place. Takes no memory.
pub fn element_at(value: Option<Value>, place: i64) -> Option<Value>
    ensures { result ≡ option_and_then (element_at place) value }
{
    let mut items = items_in(value)?;
    let place = usize::try_from(place).ok()?;
    if place < items.len() {
        Some(items.remove(place))
    } else {
        None
    }
}

/// An array of copies of texts.
fn texts(alloc: Global, items: &[Text]) -> Result<Value, Memory>
    ensures { IfOk result (λ array. array ≡ texts items.now) }
{
    let mut values = Items::new(alloc);
    for text in items {
        values.push(Value::Text(text.copy(alloc)?))?;
    }
    Ok(Value::Array(values))
}

/// The array of a key of a map.
pub fn array_at(alloc: Global, value: Option<Value>, key: &Text) -> Result<Option<Value>, Memory>
    ensures { IfOk result (λ found. found ≡ option_and_then (array_at key.now) value) }
{
    let Some(Value::Map(entries)) = value else {
        return Ok(None);
    };
    match entries.get(key) {
        Some(items) => Ok(Some(texts(alloc, items.as_slice())?)),
        None => Ok(None),
    }
}
