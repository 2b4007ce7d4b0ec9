//! A head: looking for one, and what is made of one that was found.
ghost use Rattle.std.specs.Prelude.{◌≡◌, ◌+◌, ◌≤◌, length, map, IfOk};
ghost use Rattle.httparse.specs.Grammar.{RequestHead};
ghost use Rattle.httparse.specs.Spans.{IsHeaderWithin, IsRequestWithin, IsRequestAt};
ghost use Rattle.http_front.specs.Heads.{headers_max};
ghost use Rattle.http_front.specs.Reading.{arrival_of};
ghost use Rattle.http_front.specs.Steps.{Finds, LieIn, header_at, Begins, IsShort, IsRequestFrom};

use crate::causes::HeadFault;
use crate::framing::framing_of;
use edge_base::{Addr, Header, Headers, Memory, Moment, Request, Text};
use httparse::spans::{HeaderSpan, RequestSpans, parse_request};
use httparse::{Error, Status};
use sqlite_items::Items;
use std::alloc::Global;

/// The most header fields of a head.
pub(crate) const HEADERS_MAX: usize = 100;

/// The most bytes of a head.
pub(crate) const HEAD_MAX: usize = 1 << 16;

/// What the bytes that came so far are.
#[derive(Clone, Copy, Debug)]
pub(crate) enum HeadState {
    /// They begin with a head, whose parts stand at these places.
    Whole(RequestSpans),
    /// No bytes that could follow make them a head.
    Bad,
    /// They have more fields than a head may have.
    Crowded,
    /// They hold no head.
    Open,
}

/// Looks for a head at the front of the bytes, and tells the places of its fields. Copies nothing.
pub(crate) fn look(bytes: &[u8], places: &mut [HeaderSpan]) -> HeadState
    requires { length places.old ≡ headers_max }
    ensures { Finds bytes.now places.new result }
{
    match parse_request(bytes, places) {
        Ok(Status::Complete(head)) => HeadState::Whole(head),
        Ok(Status::Partial) => HeadState::Open,
        Err(Error::TooManyHeaders) => HeadState::Crowded,
        Err(_) => HeadState::Bad,
    }
}

/// The parts of a head, and how long it and its body are.
#[derive(Debug, Drop)]
pub(crate) struct Begun {
    pub method: Text,
    pub target: Text,
    pub minor: u8,
    pub headers: Headers,
    /// Where the body begins: the length of the head.
    pub start: usize,
    pub length: usize,
}

/// The header at a place.
fn header_at(alloc: Global, bytes: &[u8], place: &HeaderSpan) -> Result<Header, Memory>
    requires { IsHeaderWithin (length bytes.now) place.now }
    ensures { IfOk result (λ header. header ≡ header_at bytes.now place.now) }
{
    Ok(Header {
        name: Text::of(alloc, place.name.of(bytes))?,
        value: Text::of(alloc, place.value.of(bytes))?,
    })
}

/// The headers at some places, in order.
fn headers_at(alloc: Global, bytes: &[u8], places: &[HeaderSpan]) -> Result<Headers, Memory>
    requires { LieIn bytes.now places.now }
    ensures { IfOk result (λ headers. headers ≡ map (header_at bytes.now) places.now) }
{
    let mut headers = Items::new(alloc);
    for place in places {
        headers.push(header_at(alloc, bytes, place)?)?;
    }
    Ok(headers)
}

/// The parts of a head at these places, or the first cause against its body.
pub(crate) fn begin(
    alloc: Global,
    bytes: &[u8],
    places: &[HeaderSpan],
    head: &RequestSpans,
) -> Result<Begun, HeadFault>
    requires { IsRequestWithin bytes.now places.now head.now }
    ensures began { (found : RequestHead) → IsRequestAt bytes.now places.now head.now found → Begins found result }
    ensures short { IfOk result (IsShort bytes.now) }
{
    let headers = headers_at(alloc, bytes, &places[..head.headers])?;
    let length = framing_of(headers.as_slice())?;
    Ok(Begun {
        method: Text::of(alloc, head.method.of(bytes))?,
        target: Text::of(alloc, head.path.of(bytes))?,
        minor: head.version,
        headers,
        start: head.len,
        length: length as usize,
    })
}

impl Begun {
    /// The request of these parts, with the body that stands in the bytes.
    pub fn into_request(
        self,
        alloc: Global,
        bytes: &[u8],
        from: Addr,
        ssl: bool,
        at: Moment,
    ) -> Result<Request, Memory>
        requires fits { self.start + self.length ≤ length bytes.now }
        requires minor { self.minor ≤ 1 }
        ensures { IfOk result (IsRequestFrom (arrival_of from ssl at) self bytes.now) }
    {
        let body = Text::of(alloc, &bytes[self.start..self.start + self.length])?;
        let Begun {
            method,
            target,
            minor,
            headers,
            ..
        } = self;
        Ok(Request {
            at,
            from,
            ssl,
            method,
            target,
            minor,
            headers,
            body,
        })
    }
}
