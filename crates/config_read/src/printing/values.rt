//! Values that parts of a configuration are printed as.
ghost use Rattle.std.specs.Prelude.{◌≡◌, option_map, Some, IfOk, OnOk};
ghost use Rattle.serde_json.specs.Data.{string};
ghost use Rattle.serde_json.specs.View.{view};
ghost use Rattle.config_read.specs.Printed.{printed_texts, HasPut};

use edge_base::{Memory, Text};
use serde_json::{Map, Value, put};
use std::alloc::Global;

/// The value of a text. Texts of a configuration are UTF-8, so only want of memory refuses it.
pub(crate) fn text_value(alloc: Global, text: &[u8]) -> Result<Value, Memory>
    ensures { IfOk result (λ v. view v ≡ string text.now) }
{
    match str::from_utf8(text) {
        Ok(text) => Ok(Value::try_from_str(alloc, text)?),
        Err(_) => Err(Memory),
    }
}

/// The array of these texts.
#[tactic(auto, using(crate::proofs::PrintLemmas::building))]
pub(crate) fn texts_value(alloc: Global, texts: &[Text]) -> Result<Value, Memory>
    ensures { IfOk result (λ v. view v ≡ printed_texts texts.now) }
{
    let mut values = Vec::new(alloc);
    for text in texts {
        values.push(text_value(alloc, text.bytes())?)?;
    }
    Ok(Value::Array(values))
}

/// Puts a member, where it has a value.
pub(crate) fn put_some(
    map: &mut Map<String, Value>,
    alloc: Global,
    name: &str,
    value: Option<Value>,
) -> Result<(), Memory>
    ensures { OnOk result (HasPut name.now (option_map view value) map.old.entries map.new.entries) }
{
    match value {
        Some(value) => Ok(put(map, alloc, name, value)?),
        None => Ok(()),
    }
}

/// Puts a member by the bytes of its name, which are UTF-8: only want of memory refuses it.
pub(crate) fn put_named(
    map: &mut Map<String, Value>,
    alloc: Global,
    name: &[u8],
    value: Value,
) -> Result<(), Memory>
    ensures { OnOk result (HasPut name.now (Some (view value)) map.old.entries map.new.entries) }
{
    match str::from_utf8(name) {
        Ok(name) => Ok(put(map, alloc, name, value)?),
        Err(_) => Err(Memory),
    }
}
