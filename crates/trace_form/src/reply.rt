ghost use Rattle.std.specs.Prelude.{◌≡◌, option_map, IfOk};
ghost use Rattle.serde_json.specs.View.{view, number_view};
ghost use Rattle.trace_form.specs.Asked.{status_in, status_of, moment_or, reply_in, reply_by};
ghost use Rattle.trace_form.specs.Found.{IsDatedFound};

use crate::headers::headers_of;
use crate::request::moment_in;
use crate::told::ToldReply;
use edge_base::{Memory, Moment, Reply, Text};
use serde_json::{Number, Value};
use std::alloc::Global;

/// The status that a number tells.
fn status_in(number: &Number) -> Option<u16>
    ensures { result ≡ status_in (number_view number.now) }
{
    match number.as_u64() {
        Some(n) if 100 <= n && n <= 999 => Some(n as u16),
        _ => None,
    }
}

fn status_of(value: &Value) -> Option<u16>
    ensures { result ≡ status_of (view value.now) }
{
    status_in(value.get("status")?.as_number()?)
}

/// When the reply came, by default at this moment.
fn moment_or(at: Option<Moment>, value: &Value) -> Option<Option<Moment>>
    ensures { result ≡ moment_or at (view value.now) }
{
    match value.get("at") {
        None => Some(at),
        Some(member) => moment_in(member.as_number()?),
    }
}

/// The reply that an object tells, to a request of this moment.
fn reply_in(alloc: Global, at: Option<Moment>, value: Value) -> Result<Option<ToldReply>, Memory>
    ensures { IfOk result (λ found. found ≡ reply_in at (view value)) }
{
    let Some(status) = status_of(&value) else {
        return Ok(None);
    };
    let Some(moment) = moment_or(at, &value) else {
        return Ok(None);
    };
    let Some(headers) = headers_of(alloc, value)? else {
        return Ok(None);
    };
    let reply = Reply {
        status,
        headers,
        body: Text::from_vec(Vec::new(alloc)),
    };
    Ok(Some((reply, moment)))
}

/// What a member tells of a reply, where it has the shape of one.
pub(crate) fn reply_by(
    alloc: Global,
    at: Option<Moment>,
    member: Option<Value>,
) -> Result<Option<Option<ToldReply>>, Memory>
    ensures { IfOk result (λ found. found ≡ reply_by at (option_map view member)) }
{
    let Some(value) = member else {
        return Ok(Some(None));
    };
    match reply_in(alloc, at, value)? {
        Some(reply) => Ok(Some(Some(reply))),
        None => Ok(None),
    }
}

/// The reply with its moment, where that is in range.
pub(crate) fn dated(told: Option<ToldReply>) -> Option<Option<(Reply, Moment)>>
    ensures { IsDatedFound told result }
{
    let Some((reply, moment)) = told else {
        return Some(None);
    };
    match moment {
        Some(at) => Some(Some((reply, at))),
        None => None,
    }
}
