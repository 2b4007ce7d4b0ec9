ghost use Rattle.std.specs.Prelude.{◌≡◌, IfOk};
ghost use Rattle.std.specs.Option.{option_copied};
ghost use Rattle.edge_fields.specs.Maps.{map_of};
ghost use Rattle.edge_fields.specs.Values.{text_in, number_in, addr_in, truth_in, items_in, entries_in};
ghost use Rattle.edge_fields.specs.declared.value.Value.TheVariants as value;

use crate::text_map::TextMap;
use edge_base::{Addr, Memory, Text};
use sqlite_items::Items;
use std::alloc::Global;

/// A list of values.
pub type Values = Items<Value>;

/// A value of the Rules language. The values of an array are of one kind.
#[derive(Drop)]
pub enum Value {
    Text(Text),
    Num(i64),
    Addr(Addr),
    Bool(bool),
    Array(Values),
    Map(TextMap),
}

/// A copy of each value, in order.
#[cycle(copying)]
pub fn copy_values(alloc: Global, values: &[Value]) -> Result<Values, Memory>
    ensures { IfOk result (λ copy. copy ≡ values.now) }
{
    let mut copy = Items::new(alloc);
    for value in values {
        copy.push(value.copy(alloc)?)?;
    }
    Ok(copy)
}

impl Value {
    /// The text that it is. Takes no memory.
    pub fn as_text(&self) -> Option<&Text>
        ensures { option_copied result ≡ text_in self.now }
    {
        match self {
            Value::Text(text) => Some(text),
            _ => None,
        }
    }

    /// The number that it is. Takes no memory.
    pub fn as_number(&self) -> Option<i64>
        ensures { result ≡ number_in self.now }
    {
        match self {
            Value::Num(number) => Some(*number),
            _ => None,
        }
    }

    /// The address that it is. Takes no memory.
    pub fn as_addr(&self) -> Option<Addr>
        ensures { result ≡ addr_in self.now }
    {
        match self {
            Value::Addr(addr) => Some(*addr),
            _ => None,
        }
    }

    /// The truth value that it is. Takes no memory.
    pub fn as_truth(&self) -> Option<bool>
        ensures { result ≡ truth_in self.now }
    {
        match self {
            Value::Bool(truth) => Some(*truth),
            _ => None,
        }
    }

    /// The elements of the array that it is. Takes no memory.
    pub fn as_items(&self) -> Option<&[Value]>
        ensures { option_copied result ≡ items_in self.now }
    {
        match self {
            Value::Array(items) => Some(items.as_slice()),
            _ => None,
        }
    }

    /// The map that it is. Takes no memory.
    pub fn as_map(&self) -> Option<&TextMap>
        ensures { option_copied result ≡ entries_in self.now }
    {
        match self {
            Value::Map(map) => Some(map),
            _ => None,
        }
    }

    #[cycle(copying)]
    pub fn copy(&self, alloc: Global) -> Result<Value, Memory>
        ensures { IfOk result (λ value. value ≡ self.now) }
    {
        match self {
            Value::Text(text) => Ok(Value::Text(text.copy(alloc)?)),
            Value::Num(number) => Ok(Value::Num(*number)),
            Value::Addr(addr) => Ok(Value::Addr(*addr)),
            Value::Bool(truth) => Ok(Value::Bool(*truth)),
            Value::Array(values) => Ok(Value::Array(copy_values(alloc, values.as_slice())?)),
            Value::Map(map) => Ok(Value::Map(map.copy(alloc)?)),
        }
    }
}

/// The map of some pairs.
pub(crate) fn map(alloc: Global, pairs: Vec<(Text, Text)>) -> Result<Value, Memory>
    ensures { IfOk result (λ made. made ≡ value.Map (map_of pairs.items)) }
{
    let mut map = TextMap::new(alloc);
    for (key, value) in pairs {
        map.add(alloc, key, value)?;
    }
    Ok(Value::Map(map))
}
