//! Requests whose head and body a line has as they were sent.

ghost use Rattle.std.specs.Prelude.{◌≡◌, IfOk, IfErr};
ghost use Rattle.serde_json.specs.View.{view};
ghost use Rattle.trace_form.specs.Found.{IsSentFound, IsSentBothFound, head_fault};
ghost use Rattle.trace_form.specs.Item.{SaysWhy};
ghost use Rattle.trace_form.specs.Sent.{IsRead, IsUnread, IsSentRecorded, IsNoSent};
ghost use Rattle.trace_form.specs.declared.refusal.BadCause.TheVariants as cause;

use crate::item::Recorded;
use crate::members::{member_of, split_member, string_of, text_of};
use crate::refusal::{BadCause, LineFault};
use crate::reply::{dated, reply_by};
use crate::request::{moment_of, ssl_of};
use crate::told::{Sent, ToldReply};
use edge_base::{Addr, Memory, Moment, Request, Text, parse_addr};
use http_front::HeadFault;
use serde_json::Value;
use std::alloc::Global;

/// What an object tells of such a request, where it has the shape of one. The bytes are taken out of it.
fn sent_of(value: Value) -> Option<Sent>
    ensures { IsSentFound (view value) result }
{
    let at = moment_of(&value)?;
    let from = parse_addr(text_of(&value, "ip")?);
    let ssl = ssl_of(&value)?;
    let raw = string_of(member_of(value, "raw")?)?;
    Some(Sent {
        at,
        from,
        ssl,
        bytes: Text::from_vec(raw.into_bytes()),
    })
}

/// What an object tells of such a request and of its reply.
fn sent_and_reply(alloc: Global, value: Value) -> Result<Option<(Sent, Option<ToldReply>)>, Memory>
    ensures { IfOk result (IsSentBothFound (view value)) }
{
    let (member, rest) = split_member(value, "reply");
    let Some(sent) = sent_of(rest) else {
        return Ok(None);
    };
    let Some(reply) = reply_by(alloc, sent.at, member)? else {
        return Ok(None);
    };
    Ok(Some((sent, reply)))
}

/// What a failed reading of a head says of the line.
fn head_fault(refused: HeadFault) -> LineFault
    ensures { result ≡ head_fault refused }
{
    match refused {
        HeadFault::Memory => LineFault::Memory,
        _ => LineFault::Bad(BadCause::BadHead),
    }
}

/// The request with which the bytes begin, of a peer and at a moment.
fn read_of(
    alloc: Global,
    bytes: &[u8],
    from: Addr,
    ssl: bool,
    at: Moment,
) -> Result<Request, LineFault>
    ensures ok { IfOk result (IsRead bytes.now from ssl at) }
    ensures bad { IfErr result (SaysWhy (λ why. (why ≡ cause.BadHead) × IsUnread bytes.now from ssl at)) }
{
    match http_front::request_of(alloc, bytes, from, ssl, at) {
        Ok(request) => Ok(request),
        Err(refused) => Err(head_fault(refused)),
    }
}

/// The request that an object tells by its bytes, with its reply, or the first cause why it tells none.
pub(crate) fn sent_request_of(alloc: Global, value: Value) -> Result<Recorded, LineFault>
    ensures ok { IfOk result (IsSentRecorded (view value)) }
    ensures bad { IfErr result (SaysWhy (IsNoSent (view value))) }
{
    let Some((sent, reply)) = sent_and_reply(alloc, value)? else {
        return Err(LineFault::Bad(BadCause::Shape));
    };
    let Some(from) = sent.from else {
        return Err(LineFault::Bad(BadCause::BadAddress));
    };
    let Some(at) = sent.at else {
        return Err(LineFault::Bad(BadCause::BadMoment));
    };
    let Some(reply) = dated(reply) else {
        return Err(LineFault::Bad(BadCause::BadMoment));
    };
    let request = read_of(alloc, sent.bytes.bytes(), from, sent.ssl, at)?;
    Ok(Recorded { request, reply })
}
