//! The same table as lines of `replay`: each row is a deployment and a request.

use super::evaluating::{ROWS, is_said, said};
use edge_base::{Memory, TextBuilder};
use edge_main::{Status, edge_quiet, lane_hashers};
use edge_outside::{Numbers, TextSink, TextSource};
use std::process::Abort;
use std::test::Fail;

const BEFORE_EXPRESSION: &[u8] =
    b"{\"deploy\":{\"rulesets\":[{\"id\":\"fw\",\"kind\":\"zone\",\"phase\":\"http_request_firewall_custom\",\"rules\":[{\"id\":\"r1\",\"action\":\"block\",\"expression\":";

/// A text as JSON writes it.
fn push_quoted(out: &mut TextBuilder, text: &str) -> Result<(), Memory> {
    out.push(b"\"")?;
    for &byte in text.as_bytes() {
        if byte == b'"' || byte == b'\\' {
            out.push(b"\\")?;
        }
        out.push(&[byte])?;
    }
    out.push(b"\"")
}

/// A member with a text, and the comma behind it.
fn push_member(out: &mut TextBuilder, name: &str, text: &str) -> Result<(), Memory> {
    push_quoted(out, name)?;
    out.push(b":")?;
    push_quoted(out, text)?;
    out.push(b",")
}

/// A header as a pair, where the text is `NAME:VALUE`; another text is left out.
fn push_header(out: &mut TextBuilder, text: &str, is_first: bool) -> Result<(), Memory> {
    let Some((name, value)) = text.split_once(":") else {
        return Ok(());
    };
    if !is_first {
        out.push(b",")?;
    }
    out.push(b"[")?;
    push_quoted(out, name)?;
    out.push(b",")?;
    push_quoted(out, value)?;
    out.push(b"]")
}

fn push_headers(out: &mut TextBuilder, text: &str) -> Result<(), Memory> {
    let mut is_first = true;
    for one in text.split(",") {
        push_header(out, one, is_first)?;
        is_first = false;
    }
    Ok(())
}

/// A deployment of one rule with this condition, as a line.
fn push_deployment(out: &mut TextBuilder, text: &str) -> Result<(), Memory> {
    out.push(BEFORE_EXPRESSION)?;
    push_quoted(out, text)?;
    out.push(b"}]}]}}\n")
}

/// The request of a row, as a line.
fn push_request(out: &mut TextBuilder, words: &str) -> Result<(), Memory> {
    out.push(b"{")?;
    push_member(out, "ip", said(words, "ip").unwrap_or("10.0.0.1"))?;
    push_member(out, "method", said(words, "method").unwrap_or("GET"))?;
    push_member(out, "target", said(words, "target").unwrap_or("/"))?;
    if is_said(words, "version", "1.0") {
        push_member(out, "version", "HTTP/1.0")?;
    }
    if is_said(words, "ssl", "yes") {
        out.push(b"\"ssl\":true,")?;
    }
    out.push(b"\"at\":")?;
    out.push(said(words, "at").unwrap_or("0").as_bytes())?;
    out.push(b",\"headers\":[")?;
    push_headers(out, said(words, "headers").unwrap_or("host:a.example"))?;
    out.push(b"]}\n")
}

/// What is written for both lines.
fn push_wanted(
    out: &mut TextBuilder,
    number: u64,
    words: &str,
    wanted: &str,
) -> Result<(), Memory> {
    out.push(b"deploy v")?;
    out.push_number(number)?;
    out.push(b"\n")?;
    out.push_number(number)?;
    out.push(b" v")?;
    out.push_number(number)?;
    if wanted == "true" {
        out.push(b" block:403 fw/r1 ")?;
    } else {
        out.push(b" pass - ")?;
    }
    out.push(said(words, "target").unwrap_or("/").as_bytes())?;
    out.push(b" -\n")
}

/// Both lines of a row and what is written for them; no lines for a row that is asked of a reply.
fn push_row(
    input: &mut TextBuilder,
    output: &mut TextBuilder,
    number: u64,
    row: &str,
) -> Result<bool, Memory> {
    let mut parts = row.split("  ");
    let text = parts.next().unwrap_or("");
    let words = parts.next().unwrap_or("");
    let wanted = parts.next().unwrap_or("");
    if said(words, "reply").is_some() {
        return Ok(false);
    }
    push_deployment(input, text)?;
    push_request(input, words)?;
    push_wanted(output, number, words, wanted)?;
    Ok(true)
}

#[test]
fn each_expression_judges_a_request(rt: HostRuntime) -> Result<(), Fail> {
    let alloc = rt.alloc();
    let mut input = TextBuilder::new(alloc);
    let mut output = TextBuilder::new(alloc);
    let mut number: u32 = 1;
    for row in ROWS.split("\n") {
        if push_row(&mut input, &mut output, u64::from(number), row)? {
            number = number.wrapping_add(1);
        }
    }
    let mut source = TextSource::new(input.into_text(), 4_096, Numbers::new(alloc));
    let mut out = TextSink::new(alloc, 65_536, 4_096, Numbers::new(alloc))?;
    let mut operator = TextSink::new(alloc, 64, 64, Numbers::new(alloc))?;
    let hashers = lane_hashers(&rt, alloc)?;
    let status = edge_quiet(
        alloc,
        &["replay"],
        &mut source,
        &mut out,
        &mut operator,
        hashers,
    );
    assert!(rt; status == Status::Done);
    assert!(rt; out.bytes() == output.bytes());
    Ok(())
}
