ghost use Rattle.std.specs.Prelude.{◌≡◌, ◌↔◌, true, Some, option_map, is_some, IfOk, IfErr};
ghost use Rattle.serde_json.specs.Data.{Data};
ghost use Rattle.serde_json.specs.Errors.{IsMemory};
ghost use Rattle.serde_json.specs.View.{view};
ghost use Rattle.trace_form.specs.Item.{is_short, is_blank, IsJson, IsNoJson, has_raw, deployed_of, IsAsking, IsAsked, IsItem, IsNoItem, IsValueItem, IsNoValueItem, SaysWhy};

use crate::item::{LineItem, Recorded};
use crate::members::{has_member, member_of};
use crate::refusal::{BadCause, LineFault};
use crate::request::request_of;
use crate::sent::sent_request_of;
use serde_json::{Category, Error, Value};
use std::alloc::Global;

/// The longest line, in bytes.
const MAX_LINE: usize = 1_048_576;

fn is_short(line: &[u8]) -> bool
    ensures { result ≡ is_short line.now }
{
    line.len() <= MAX_LINE
}

/// Whether all bytes are spaces, tabs and CR.
fn is_blank(line: &[u8]) -> bool
    ensures { result ≡ is_blank line.now }
{
    line.iter()
        .all(|&byte| byte == b' ' || byte == b'\t' || byte == b'\r')
}

/// What a failed read of a line says of the line.
fn fault_of(error: &Error) -> LineFault
    ensures memory { (result ≡ LineFault.Memory) ↔ IsMemory error.now }
    ensures bad { (¬ (IsMemory error.now)) → result ≡ LineFault.Bad BadCause.NotJson }
{
    if error.classify() == Category::Memory {
        LineFault::Memory
    } else {
        LineFault::Bad(BadCause::NotJson)
    }
}

/// The JSON value that a line is.
fn value_of(alloc: Global, line: &[u8]) -> Result<Value, LineFault>
    ensures ok { IfOk result (λ value. IsJson line.now (view value)) }
    ensures bad { IfErr result (SaysWhy (IsNoJson line.now)) }
{
    match Value::from_slice(alloc, line) {
        Ok(value) => Ok(value),
        Err(error) => Err(fault_of(&error)),
    }
}

/// Whether the head and the body stand as they were sent.
fn has_raw(value: &Value) -> bool
    ensures { result ≡ has_raw (view value.now) }
{
    has_member(value, "raw")
}

/// The value of the member `deploy`, which is there; it is taken out.
fn deployed_of(value: Value) -> Value
    requires { is_some (deployed_of (view value)) ≡ true }
    ensures { deployed_of (view value) ≡ Some (view result) }
{
    match member_of(value, "deploy") {
        Some(deployed) => deployed,
        None => unreachable!(),
    }
}

/// The request that a value is which is judged as one.
fn asked_of(alloc: Global, value: Value) -> Result<Recorded, LineFault>
    requires { IsAsking (view value) }
    ensures ok { IfOk result (IsAsked (view value)) }
    ensures bad { IfErr result (SaysWhy (IsNoValueItem (view value))) }
{
    if has_raw(&value) {
        sent_request_of(alloc, value)
    } else {
        request_of(alloc, value)
    }
}

/// The item that a value is.
fn item_of(alloc: Global, value: Value) -> Result<LineItem, LineFault>
    ensures ok { IfOk result (IsValueItem (view value)) }
    ensures bad { IfErr result (SaysWhy (IsNoValueItem (view value))) }
{
    if has_member(&value, "deploy") {
        return Ok(LineItem::Deploy(deployed_of(value)));
    }
    let asked = asked_of(alloc, value)?;
    Ok(LineItem::Ask(asked))
}

/// What a line of a trace is, or the first cause why it is no item.
pub fn read_item(alloc: Global, line: &[u8]) -> Result<LineItem, LineFault>
    ensures ok { IfOk result (IsItem line.now) }
    ensures bad { IfErr result (SaysWhy (IsNoItem line.now)) }
{
    if !is_short(line) {
        return Err(LineFault::Bad(BadCause::LongLine));
    }
    if is_blank(line) {
        return Ok(LineItem::Blank);
    }
    let value = value_of(alloc, line)?;
    item_of(alloc, value)
}
