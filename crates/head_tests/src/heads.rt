mod causes;
mod limits;
mod links;
mod read;
mod replies;

use edge_base::{Addr, Memory, Moment, Request, Text, TextBuilder};
use edge_outside::{MemoryLink, Numbers, TextSink, TextSource};
use http_front::{HeadFault, read_request, request_of};
use std::alloc::Global;
use std::process::Abort;

/// The name of a cause.
fn name_of(cause: HeadFault) -> &'static str {
    match cause {
        HeadFault::BadHead => "BadHead",
        HeadFault::TooManyHeaders => "TooManyHeaders",
        HeadFault::HeadTooLong => "HeadTooLong",
        HeadFault::Coding => "Coding",
        HeadFault::BadLength => "BadLength",
        HeadFault::BodyTooLong => "BodyTooLong",
        HeadFault::Cut => "Cut",
        HeadFault::ReadFault => "ReadFault",
        HeadFault::Memory => "Memory",
    }
}

/// A request on one line: method, target and minor version, each header as `name=value;`, `#` and the body.
fn push_request(text: &mut TextBuilder, request: &Request) -> Result<(), Memory> {
    text.push(request.method.bytes())?;
    text.push(b" ")?;
    text.push(request.target.bytes())?;
    text.push(b" ")?;
    text.push_number(u64::from(request.minor))?;
    text.push(b" ")?;
    for header in request.headers.as_slice() {
        text.push(header.name.bytes())?;
        text.push(b"=")?;
        text.push(header.value.bytes())?;
        text.push(b";")?;
    }
    text.push(b"#")?;
    text.push(request.body.bytes())
}

/// What was read, on one line.
fn shown(alloc: Global, read: &Result<Request, HeadFault>) -> Result<Text, Memory> {
    let mut text = TextBuilder::new(alloc);
    match read {
        Ok(request) => push_request(&mut text, request)?,
        Err(cause) => text.push(name_of(*cause).as_bytes())?,
    }
    Ok(text.into_text())
}

/// A link that gives these bytes, `piece` of them in a read, and whose reads of these numbers fail.
fn link(alloc: Global, bytes: &[u8], piece: usize, fail_at: &[u64]) -> Result<MemoryLink, Memory> {
    let text = Text::of(alloc, bytes)?;
    let source = TextSource::new(text, piece.max(1), Numbers::from_slice(alloc, fail_at)?);
    Ok(MemoryLink::new(source, TextSink::new(alloc, 0, 1, Numbers::new(alloc))?))
}

fn moment() -> Result<Moment, Memory> {
    Moment::of(0).ok_or(Memory)
}

/// What is read of the bytes.
fn read_whole(alloc: Global, bytes: &[u8]) -> Result<Text, Memory> {
    let read = request_of(alloc, bytes, Addr::V4(1), true, moment()?);
    shown(alloc, &read)
}

/// What is read of a link.
fn read_link(alloc: Global, link: &mut MemoryLink) -> Result<Text, Memory> {
    let read = read_request(alloc, link, Addr::V4(1), true, moment()?);
    shown(alloc, &read)
}

/// The bytes give this, whole and in pieces of 1, 7 and 4,096.
fn gives(rt: &impl Abort, alloc: Global, bytes: &[u8], wanted: &[u8]) -> Result<(), Memory> {
    assert_eq!(rt; read_whole(alloc, bytes)?.bytes(), wanted, "of {bytes:?}");
    for piece in [1, 7, 4096] {
        let mut link = link(alloc, bytes, piece, &[])?;
        assert_eq!(rt;
            read_link(alloc, &mut link)?.bytes(),
            wanted,
            "of {bytes:?}"
        );
    }
    Ok(())
}
