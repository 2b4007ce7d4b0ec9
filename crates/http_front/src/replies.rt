//! The bytes of a reply.
ghost use Rattle.std.specs.Prelude.{◌≡◌, ◌++◌, IfOk, OnOk};
ghost use Rattle.http_front.specs.Replies.{phrase_of, status_line, is_framing, header_line, header_lines, may_have_body, length_line, body_of, head_text, reply_text};

use crate::framing::is_named;
use edge_base::{Header, Headers, Memory, Text, TextBuilder};
use http::StatusCode;
use std::alloc::Global;

/// The end of a line.
const CRLF: &[u8] = b"\r\n";

/// The phrase of a status, or nothing.
fn phrase_of(status: u16) -> &'static [u8]
    ensures { result.now ≡ phrase_of status }
{
    match StatusCode::from_u16(status) {
        Ok(code) => match code.canonical_reason() {
            Some(phrase) => phrase.as_bytes(),
            None => b"",
        },
        Err(_) => b"",
    }
}

/// Adds the first line.
fn push_status_line(text: &mut TextBuilder, status: u16) -> Result<(), Memory>
    ensures { OnOk result (text.new ≡ text.old ++ status_line status) }
{
    text.push(b"HTTP/1.1 ")?;
    text.push_number(u64::from(status))?;
    text.push(b" ")?;
    text.push(phrase_of(status))?;
    text.push(CRLF)
}

/// Whether a header is one that a reply says by itself.
fn is_framing(header: &Header) -> bool
    ensures { result ≡ is_framing header.now }
{
    is_named(b"content-length", header)
        || is_named(b"connection", header)
        || is_named(b"transfer-encoding", header)
}

/// Adds the line of a header, unless the reply says that by itself.
fn push_header(text: &mut TextBuilder, header: &Header) -> Result<(), Memory>
    ensures { OnOk result (text.new ≡ text.old ++ header_line header.now) }
{
    if is_framing(header) {
        return Ok(());
    }
    text.push(header.name.bytes())?;
    text.push(b": ")?;
    text.push(header.value.bytes())?;
    text.push(CRLF)
}

/// Adds the lines of headers.
#[tactic(auto, using(crate::proofs::ReplyLemmas::one_line_more))]
fn push_headers(text: &mut TextBuilder, headers: &[Header]) -> Result<(), Memory>
    ensures { OnOk result (text.new ≡ text.old ++ header_lines headers.now) }
{
    for header in headers {
        push_header(text, header)?;
    }
    Ok(())
}

/// Whether a reply of this status may have a body.
fn may_have_body(status: u16) -> bool
    ensures { result ≡ may_have_body status }
{
    !((100 <= status && status <= 199) || status == 204 || status == 304)
}

/// Adds the line of the body's length, where there may be a body.
fn push_length(text: &mut TextBuilder, status: u16, body: &[u8]) -> Result<(), Memory>
    ensures { OnOk result (text.new ≡ text.old ++ length_line status body.now) }
{
    if !may_have_body(status) {
        return Ok(());
    }
    text.push(b"content-length: ")?;
    text.push_number(body.len() as u64)?;
    text.push(CRLF)
}

/// The body that is sent: none where there may be none, and none for a request for the head alone.
fn body_of(status: u16, body: &[u8], to_head: bool) -> &[u8]
    ensures { result.now ≡ body_of status body.now to_head }
{
    if may_have_body(status) && !to_head {
        body
    } else {
        b""
    }
}

/// Adds the head of a reply.
fn push_head(
    text: &mut TextBuilder,
    status: u16,
    headers: &[Header],
    body: &[u8],
) -> Result<(), Memory>
    ensures { OnOk result (text.new ≡ text.old ++ head_text status headers.now body.now) }
{
    push_status_line(text, status)?;
    push_headers(text, headers)?;
    push_length(text, status, body)?;
    text.push(b"connection: close\r\n\r\n")?;
    Ok(())
}

/// The bytes of a reply, `to_head` where it answers a request with the method `HEAD`. Headers that say how long the
/// body is or what becomes of the connection are left out, since the reply says that by itself.
pub fn reply_bytes(
    alloc: Global,
    status: u16,
    headers: &Headers,
    body: &Text,
    to_head: bool,
) -> Result<Text, Memory>
    ensures { IfOk result (λ text. text ≡ reply_text status headers.now body.now to_head) }
{
    let mut text = TextBuilder::new(alloc);
    push_head(&mut text, status, headers.as_slice(), body.bytes())?;
    text.push(body_of(status, body.bytes(), to_head))?;
    Ok(text.into_text())
}
