ghost use Rattle.std.specs.Prelude.{◌≡◌, IfOk};
ghost use Rattle.std.specs.Map.{keys_of, values_of};
ghost use Rattle.edge_fields.specs.Fields.{texts};
ghost use Rattle.edge_fields.specs.Target.{has_bytes, argument_of, arguments_of};

use crate::cuts::{after, before};
use crate::value::Value;
use edge_base::{Memory, Text};
use sqlite_items::Items;
use std::alloc::Global;

/// Whether a piece of a query is an argument: it has a byte.
fn has_bytes(piece: &[u8]) -> bool
    ensures { result ≡ has_bytes piece.now }
{
    !piece.is_empty()
}

/// A piece of a query, cut at its first `=`.
fn argument_of(alloc: Global, piece: &[u8]) -> Result<(Text, Text), Memory>
    ensures { IfOk result (λ argument. argument ≡ argument_of piece.now) }
{
    let name = Text::of(alloc, before(b'=', piece))?;
    let value = Text::of(alloc, after(b'=', piece))?;
    Ok((name, value))
}

/// The arguments of a query, as pairs of a name and a value.
pub(crate) fn arguments_of(alloc: Global, query: &[u8]) -> Result<Vec<(Text, Text)>, Memory>
    ensures { IfOk result (λ pairs. pairs.items ≡ arguments_of query.now) }
{
    let mut pairs = Vec::new(alloc);
    for piece in query.split(|byte| *byte == b'&') {
        if has_bytes(piece) {
            pairs.push(argument_of(alloc, piece)?)?;
        }
    }
    Ok(pairs)
}

/// The names of the arguments of a query, as an array.
pub(crate) fn argument_names(alloc: Global, query: &[u8]) -> Result<Value, Memory>
    ensures { IfOk result (λ array. array ≡ texts (keys_of (arguments_of query.now))) }
{
    let mut names = Items::new(alloc);
    for piece in query.split(|byte| *byte == b'&') {
        if has_bytes(piece) {
            names.push(Value::Text(Text::of(alloc, before(b'=', piece))?))?;
        }
    }
    Ok(Value::Array(names))
}

/// The values of the arguments of a query, as an array.
pub(crate) fn argument_values(alloc: Global, query: &[u8]) -> Result<Value, Memory>
    ensures { IfOk result (λ array. array ≡ texts (values_of (arguments_of query.now))) }
{
    let mut values = Items::new(alloc);
    for piece in query.split(|byte| *byte == b'&') {
        if has_bytes(piece) {
            values.push(Value::Text(Text::of(alloc, after(b'=', piece))?))?;
        }
    }
    Ok(Value::Array(values))
}
