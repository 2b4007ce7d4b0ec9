//! A world over a list of events, and what it shows as a text.
ghost use Rattle.std.specs.Prelude.{[]};

use edge_base::{Addr, Header, Memory, Moment, Reply, Request, Text, TextBuilder};
use edge_core::{Events, Shown, World, run};
use rate_plain::{Answer, PlainCounter, StepFault, Tally};
use ruleset_model::VerdictKind;
use serde_json::Value;
use sqlite_items::Items;
use std::alloc::Global;

/// A request that comes at a moment from an address that ends so.
pub fn request(alloc: Global, at: u64, from: u32) -> Result<Request, Memory> {
    let Some(at) = Moment::of(at) else {
        return Err(Memory);
    };
    let mut headers = Items::new(alloc);
    headers.push(Header {
        name: Text::of(alloc, b"host")?,
        value: Text::of(alloc, b"a.example")?,
    })?;
    Ok(Request {
        at,
        from: Addr::V4(from),
        ssl: false,
        method: Text::of(alloc, b"GET")?,
        target: Text::of(alloc, b"/")?,
        minor: 1,
        headers,
        body: Text::of(alloc, b"")?,
    })
}

/// A reply of this status.
pub fn reply(alloc: Global, status: u16) -> Result<Reply, Memory> {
    Ok(Reply {
        status,
        headers: Items::new(alloc),
        body: Text::of(alloc, b"")?,
    })
}

/// A document.
pub fn document(alloc: Global, text: &str) -> Result<Value, Memory> {
    match Value::from_slice(alloc, text.as_bytes()) {
        Ok(value) => Ok(value),
        Err(_) => Err(Memory),
    }
}

fn push_answer(out: &mut TextBuilder, answer: Answer) -> Result<(), Memory> {
    match answer {
        Answer::Pass => out.push(b"pass"),
        Answer::Over { until } => {
            out.push(b"over@")?;
            out.push_number(until)
        }
        Answer::Full => out.push(b"full"),
    }
}

fn push_verdict(out: &mut TextBuilder, kind: &VerdictKind) -> Result<(), Memory> {
    match kind {
        VerdictKind::Pass => out.push(b"pass"),
        VerdictKind::Block(response) => {
            out.push(b"block:")?;
            out.push_number(u64::from(response.status_code))
        }
        VerdictKind::Challenge => out.push(b"challenge"),
        VerdictKind::Redirect { .. } => out.push(b"redirect"),
    }
}

fn push_numbered(out: &mut TextBuilder, word: &[u8], number: u64) -> Result<(), Memory> {
    out.push(word)?;
    out.push(b" ")?;
    out.push_number(number)
}

/// Adds what an event shows, and a line feed.
fn push_shown(out: &mut TextBuilder, shown: &Shown) -> Result<(), Memory> {
    match shown {
        Shown::Nothing => out.push(b"-")?,
        Shown::Unfit => out.push(b"unfit")?,
        Shown::Picked(number) => push_numbered(out, b"picked", *number)?,
        Shown::Counted(position, answer) => {
            push_numbered(out, b"counted", *position)?;
            out.push(b" ")?;
            push_answer(out, *answer)?;
        }
        Shown::Verdict(verdict) => push_verdict(out, &verdict.kind)?,
        Shown::Replied(reply) => push_numbered(out, b"replied", u64::from(reply.status))?,
        Shown::Deployed(number) => push_numbered(out, b"deployed", *number)?,
        Shown::Refused(place, cause) => {
            out.push(b"refused ")?;
            out.push(place.bytes())?;
            out.push(b" ")?;
            out.push(cause.name())?;
        }
    }
    out.push(b"\n")
}

/// What a new world of so many callers shows of these events, with a counter of 64 lanes that has counted nothing.
fn show<T: Tally + Drop>(
    alloc: Global,
    callers: u32,
    counter: T,
    events: Events,
) -> Result<Vec<Shown>, StepFault>
    requires { T.stands counter 64 4096 [] }
{
    let mut world = World::new(alloc, callers, counter)?;
    run(alloc, &mut world, events)
}

/// The same as a text, a line for each event.
pub fn shown_text(alloc: Global, callers: u32, events: Events) -> Result<Text, StepFault> {
    let mut out = TextBuilder::new(alloc);
    let counter = PlainCounter::new(alloc, 64, 4096);
    for shown in &show(alloc, callers, counter, events)? {
        push_shown(&mut out, shown)?;
    }
    Ok(out.into_text())
}
