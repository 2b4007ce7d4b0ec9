ghost use Rattle.std.specs.Prelude.{◌≡◌, map, codes, IfOk};
ghost use Rattle.std.specs.List.{list_all, AllByRecursion};
ghost use Rattle.serde_json.specs.View.{view};
ghost use Rattle.ruleset_model.specs.Data.{header_data, operation_data};
ghost use Rattle.ruleset_model.specs.Forms.{is_token_byte};
ghost use Rattle.config_read.specs.Refusals.{IsAnswerOf};
ghost use Rattle.config_read.specs.Members.{text, needed_form, shown};
ghost use Rattle.config_read.specs.Forms.{is_token, is_fixed_header, is_operation, operation};
ghost use Rattle.config_read.specs.Judged.{judged};
ghost use Rattle.config_read.specs.Rewrites.{lower, has_own_header, has_header, name_table, operation_table, operation_at, header_at, each_header_table, headers_table, headers_at};
ghost use Rattle.config_read.specs.Here.{header_here};
ghost use Rattle.config_read.specs.Filters.{IsOperationBuilt, IsHeaderBuilt};

use crate::fault::{Cause, ConfigFault};
use crate::members::{Entry, an_object};
use crate::ordered::entries_in_order;
use crate::places::child;
use crate::refusals::{member_refusal, refusal};
use crate::values::dynamic_of;
use edge_base::Text;
use edge_fields::Scheme;
use ruleset_model::{HeaderRewrite, HeaderRewrites, Operation};
use serde_json::Value;
use sqlite_items::Items;
use std::alloc::Global;
use type_check::Place;

/// The bytes of a token beside letters and digits.
const TOKEN_MARKS: &[u8] = b"!#$%&'*+-.^_`|~";

fn is_token_byte(byte: u8) -> bool
    ensures { result ≡ is_token_byte byte }
{
    byte.is_ascii_alphanumeric() || TOKEN_MARKS.contains(&byte)
}

fn are_token_bytes(text: &[u8]) -> bool
    ensures { result ≡ list_all is_token_byte text.now }
{
    text.iter().all(|&byte| is_token_byte(byte))
}

fn is_token(text: &[u8]) -> bool
    ensures { result ≡ is_token text.now }
{
    0 < text.len() && are_token_bytes(text)
}

/// Whether headers of the name, which is in lower case, may not be rewritten.
fn is_fixed_header(lower: &[u8]) -> bool
    ensures { result ≡ is_fixed_header lower.now }
{
    lower == b"host".as_slice()
        || lower == b"content-length".as_slice()
        || lower == b"transfer-encoding".as_slice()
        || lower == b"connection".as_slice()
}

fn has_own_header(headers: &[HeaderRewrite], name: &[u8]) -> bool
    ensures { result ≡ has_own_header headers.now name.now }
{
    headers
        .iter()
        .any(|header| name.eq_ignore_ascii_case(header.name.bytes()))
}

/// Whether one of the names is the same in lower case.
fn has_header(headers: &[HeaderRewrite], name: &[u8]) -> bool
    ensures { result ≡ has_header (map header_data headers.now) name.now }
{
    has_own_header(headers, name)
}

/// Refuses a name that may not stand behind those before it.
fn a_name(
    alloc: Global,
    place: &[u8],
    earlier: &[HeaderRewrite],
    name: &[u8],
) -> Result<(), ConfigFault>
    ensures { IsAnswerOf result (name_table place.now (map header_data earlier.now) name.now) }
{
    if !is_token(name) || has_header(earlier, name) {
        return Err(refusal(alloc, place, Cause::Shape));
    }
    let lower = name.to_ascii_lowercase(alloc)?;
    if is_fixed_header(lower.as_slice()) {
        return Err(refusal(alloc, place, Cause::ActionPlace));
    }
    Ok(())
}

fn is_operation(text: &[u8]) -> bool
    ensures { result ≡ is_operation text.now }
{
    text == b"set".as_slice() || text == b"add".as_slice() || text == b"remove".as_slice()
}

/// The name of what is done to headers.
fn needed_operation<'v>(
    alloc: Global,
    place: &[u8],
    value: &'v Value,
) -> Result<&'v [u8], ConfigFault>
    ensures table { IsAnswerOf result (needed_form operation place.now (codes "operation") (view value.now)) }
    ensures value { IfOk result (λ found. found.now ≡ text (codes "operation") (view value.now)) }
{
    let Some(member) = value.get("operation") else {
        return Err(member_refusal(alloc, place, "operation", Cause::Missing));
    };
    let Some(text) = member.as_str() else {
        return Err(member_refusal(alloc, place, "operation", Cause::Shape));
    };
    if !is_operation(text.as_bytes()) {
        return Err(member_refusal(alloc, place, "operation", Cause::Shape));
    }
    Ok(text.as_bytes())
}

/// What is done to the headers of a name.
fn operation_of(
    alloc: Global,
    scheme: &Scheme,
    at: Place,
    place: &[u8],
    value: &Value,
) -> Result<Operation, ConfigFault>
    ensures table { IsAnswerOf result (operation_table (judged scheme.now) at place.now (view value.now)) }
    ensures value { IfOk result (λ made. operation_data made ≡ operation_at (view value.now)) }
    ensures built { IfOk result (IsOperationBuilt scheme.now at) }
{
    let name = needed_operation(alloc, place, value)?;
    if name == b"remove".as_slice() {
        return Ok(Operation::Remove);
    }
    let operand = dynamic_of(alloc, scheme, at, place, value)?;
    if name == b"set".as_slice() {
        Ok(Operation::Set(operand))
    } else {
        Ok(Operation::Add(operand))
    }
}

/// The change of the headers of one name, behind those before it.
#[tactic(auto, unfolding(crate::specs::Rewrites::header_table))]
fn header_of(
    alloc: Global,
    scheme: &Scheme,
    at: Place,
    headers: &[u8],
    earlier: &[HeaderRewrite],
    name: &[u8],
    value: &Value,
) -> Result<HeaderRewrite, ConfigFault>
    ensures table { IsAnswerOf result (header_here scheme.now at headers.now earlier.now name.now value.now) }
    ensures value { IfOk result (λ made. header_data made ≡ header_at (name.now, view value.now)) }
    ensures built { IfOk result (IsHeaderBuilt scheme.now at) }
{
    let place = child(alloc, headers, name)?;
    let place = place.bytes();
    an_object(alloc, place, value)?;
    a_name(alloc, place, earlier, name)?;
    let operation = operation_of(alloc, scheme, at, place, value)?;
    Ok(HeaderRewrite {
        name: Text::of(alloc, name)?,
        operation,
    })
}

fn each_header(
    alloc: Global,
    scheme: &Scheme,
    at: Place,
    place: &[u8],
    entries: &[Entry],
) -> Result<HeaderRewrites, ConfigFault>
    ensures table { IsAnswerOf result (each_header_table (judged scheme.now) at place.now (map shown entries.now)) }
    ensures value { IfOk result (λ made. map header_data made ≡ map header_at (map shown entries.now)) }
    ensures built { IfOk result (AllByRecursion (IsHeaderBuilt scheme.now at)) }
{
    let mut made = Items::new(alloc);
    for entry in entries {
        let name = entry.0.as_bytes();
        let header = header_of(alloc, scheme, at, place, made.as_slice(), name, entry.1)?;
        made.push(header)?;
    }
    Ok(made)
}

/// The changes of headers that an object gives, in the order of their names.
pub(crate) fn headers_of(
    alloc: Global,
    scheme: &Scheme,
    at: Place,
    place: &[u8],
    value: &Value,
) -> Result<HeaderRewrites, ConfigFault>
    ensures table { IsAnswerOf result (headers_table (judged scheme.now) at place.now (view value.now)) }
    ensures value { IfOk result (λ made. map header_data made ≡ headers_at (view value.now)) }
    ensures built { IfOk result (AllByRecursion (IsHeaderBuilt scheme.now at)) }
{
    let entries = entries_in_order(alloc, value)?;
    each_header(alloc, scheme, at, place, entries.as_slice())
}
