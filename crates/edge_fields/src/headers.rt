ghost use Rattle.std.specs.Prelude.{◌≡◌, find, IfOk};
ghost use Rattle.std.specs.Option.{option_copied};
ghost use Rattle.std.specs.Map.{keys_of, values_of};
ghost use Rattle.std.specs.Str.{str_to_ascii_lowercase};
ghost use Rattle.edge_fields.specs.Fields.{has_name, first_value, pairs_of, texts};

use crate::target::is_same_name;
use crate::value::Value;
use edge_base::{Header, Memory, Text};
use sqlite_items::Items;
use std::alloc::Global;

/// The first header of a name, ASCII case ignored.
fn first_header<'a>(headers: &'a [Header], name: &[u8]) -> Option<&'a Header>
    ensures { option_copied result ≡ find (has_name name.now) headers.now }
{
    headers
        .iter()
        .find(|header| is_same_name(header.name.bytes(), name))
}

/// The value of the first header of a name, ASCII case ignored, or the empty text. Takes no memory.
pub fn first_value<'a>(headers: &'a [Header], name: &[u8]) -> &'a [u8]
    ensures { result.now ≡ first_value name.now headers.now }
{
    match first_header(headers, name) {
        Some(header) => header.value.bytes(),
        None => b"",
    }
}

/// A name in lower case.
fn lowered(alloc: Global, name: &[u8]) -> Result<Text, Memory>
    ensures { IfOk result (λ text. text ≡ str_to_ascii_lowercase name.now) }
{
    let mut bytes = Vec::from_slice(alloc, name)?;
    bytes.make_ascii_lowercase();
    Ok(Text::from_vec(bytes))
}

/// The headers as pairs of a name in lower case and a value.
pub(crate) fn pairs_of(alloc: Global, headers: &[Header]) -> Result<Vec<(Text, Text)>, Memory>
    ensures { IfOk result (λ pairs. pairs.items ≡ pairs_of headers.now) }
{
    let mut pairs = Vec::new(alloc);
    for header in headers {
        pairs.push((
            lowered(alloc, header.name.bytes())?,
            header.value.copy(alloc)?,
        ))?;
    }
    Ok(pairs)
}

/// The names of the headers in lower case, as an array.
pub(crate) fn header_names(alloc: Global, headers: &[Header]) -> Result<Value, Memory>
    ensures { IfOk result (λ array. array ≡ texts (keys_of (pairs_of headers.now))) }
{
    let mut names = Items::new(alloc);
    for header in headers {
        names.push(Value::Text(lowered(alloc, header.name.bytes())?))?;
    }
    Ok(Value::Array(names))
}

/// The values of the headers, as an array.
pub(crate) fn header_values(alloc: Global, headers: &[Header]) -> Result<Value, Memory>
    ensures { IfOk result (λ array. array ≡ texts (values_of (pairs_of headers.now))) }
{
    let mut values = Items::new(alloc);
    for header in headers {
        values.push(Value::Text(header.value.copy(alloc)?))?;
    }
    Ok(Value::Array(values))
}
