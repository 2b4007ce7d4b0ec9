ghost use Rattle.std.specs.Prelude.{◌≡◌, ◌≤◌, option_map, IfOk, IfErr, IfSome};
ghost use Rattle.std.specs.List.{list_all};
ghost use Rattle.serde_json.specs.View.{view, number_view};
ghost use Rattle.trace_form.specs.Asked.{is_method, is_target_byte, is_target, moment_in, moment_of, ssl_of, minor_in, minor_of};
ghost use Rattle.trace_form.specs.Asked.{method_of, target_of, IsRecorded, IsNoRequest};
ghost use Rattle.trace_form.specs.Item.{SaysWhy};
ghost use Rattle.trace_form.specs.Found.{IsToldFound, IsBothFound};

use crate::headers::headers_of;
use crate::item::Recorded;
use crate::members::{is_token, split_member, text_of};
use crate::refusal::{BadCause, LineFault};
use crate::reply::{dated, reply_by};
use crate::told::{Told, ToldReply};
use edge_base::{Memory, Moment, Request, Text, parse_addr};
use serde_json::{Number, Value};
use std::alloc::Global;

/// The longest method and the longest target, in bytes.
const MAX_METHOD: usize = 32;

const MAX_TARGET: usize = 16_384;

fn is_method(text: &[u8]) -> bool
    ensures { result ≡ is_method text.now }
{
    text.len() <= MAX_METHOD && is_token(text)
}

fn are_target_bytes(text: &[u8]) -> bool
    ensures { result ≡ list_all is_target_byte text.now }
{
    text.iter().all(|&byte| 32 < byte && byte != 127)
}

fn is_target(text: &[u8]) -> bool
    ensures { result ≡ is_target text.now }
{
    0 < text.len() && text.len() <= MAX_TARGET && are_target_bytes(text)
}

/// The moment that a number tells: none where it is no integer, and none inside where it isn't from 0 to 2^53.
pub(crate) fn moment_in(number: &Number) -> Option<Option<Moment>>
    ensures { result ≡ moment_in (number_view number.now) }
{
    if number.is_f64() {
        return None;
    }
    match number.as_u64() {
        Some(n) => Some(Moment::of(n)),
        None => Some(None),
    }
}

/// When the request came.
pub(crate) fn moment_of(value: &Value) -> Option<Option<Moment>>
    ensures { result ≡ moment_of (view value.now) }
{
    moment_in(value.get("at")?.as_number()?)
}

/// Whether the request came over TLS.
pub(crate) fn ssl_of(value: &Value) -> Option<bool>
    ensures { result ≡ ssl_of (view value.now) }
{
    match value.get("ssl") {
        None => Some(false),
        Some(ssl) => ssl.as_bool(),
    }
}

/// The last number of a version.
fn minor_in(text: &[u8]) -> Option<u8>
    ensures value { result ≡ minor_in text.now }
    ensures within { IfSome result (λ minor. minor ≤ 1) }
{
    if text == b"HTTP/1.0".as_slice() {
        Some(0)
    } else if text == b"HTTP/1.1".as_slice() {
        Some(1)
    } else {
        None
    }
}

/// The last number of the request's version.
fn minor_of(value: &Value) -> Option<u8>
    ensures value { result ≡ minor_of (view value.now) }
    ensures within { IfSome result (λ minor. minor ≤ 1) }
{
    match value.get("version") {
        None => Some(1),
        Some(version) => minor_in(version.as_str()?.as_bytes()),
    }
}

fn method_of(value: &Value) -> Option<&[u8]>
    ensures { option_map (λ text. text.now) result ≡ method_of (view value.now) }
{
    let text = text_of(value, "method")?;
    if is_method(text) { Some(text) } else { None }
}

fn target_of(value: &Value) -> Option<&[u8]>
    ensures { option_map (λ text. text.now) result ≡ target_of (view value.now) }
{
    let text = text_of(value, "target")?;
    if is_target(text) { Some(text) } else { None }
}

/// What an object tells of a request, where it has the shape of one. The texts of the headers are taken out of it.
fn told_of(alloc: Global, value: Value) -> Result<Option<Told>, Memory>
    ensures { IfOk result (IsToldFound (view value)) }
{
    let Some(at) = moment_of(&value) else {
        return Ok(None);
    };
    let Some(ip) = text_of(&value, "ip") else {
        return Ok(None);
    };
    let from = parse_addr(ip);
    let Some(ssl) = ssl_of(&value) else {
        return Ok(None);
    };
    let Some(method) = method_of(&value) else {
        return Ok(None);
    };
    let Some(target) = target_of(&value) else {
        return Ok(None);
    };
    let Some(minor) = minor_of(&value) else {
        return Ok(None);
    };
    let method = Text::of(alloc, method)?;
    let target = Text::of(alloc, target)?;
    let Some(headers) = headers_of(alloc, value)? else {
        return Ok(None);
    };
    Ok(Some(Told {
        at,
        from,
        ssl,
        method,
        target,
        minor,
        headers,
    }))
}

/// What an object tells of a request and of its reply. The texts of the headers are taken out of it.
fn both_of(alloc: Global, value: Value) -> Result<Option<(Told, Option<ToldReply>)>, Memory>
    ensures { IfOk result (IsBothFound (view value)) }
{
    let (member, rest) = split_member(value, "reply");
    let Some(told) = told_of(alloc, rest)? else {
        return Ok(None);
    };
    let Some(reply) = reply_by(alloc, told.at, member)? else {
        return Ok(None);
    };
    Ok(Some((told, reply)))
}

/// The request that an object tells, with its reply, or the first cause why it tells none. The texts of the headers are
/// taken out of it.
pub(crate) fn request_of(alloc: Global, value: Value) -> Result<Recorded, LineFault>
    ensures ok { IfOk result (IsRecorded (view value)) }
    ensures bad { IfErr result (SaysWhy (IsNoRequest (view value))) }
{
    let Some((told, reply)) = both_of(alloc, value)? else {
        return Err(LineFault::Bad(BadCause::Shape));
    };
    let Some(from) = told.from else {
        return Err(LineFault::Bad(BadCause::BadAddress));
    };
    let Some(at) = told.at else {
        return Err(LineFault::Bad(BadCause::BadMoment));
    };
    let Some(reply) = dated(reply) else {
        return Err(LineFault::Bad(BadCause::BadMoment));
    };
    let request = Request {
        at,
        from,
        ssl: told.ssl,
        method: told.method,
        target: told.target,
        minor: told.minor,
        headers: told.headers,
        body: Text::from_vec(Vec::new(alloc)),
    };
    Ok(Recorded { request, reply })
}
