mod made;
mod replies;
mod written;

use edge_base::{Addr, Header, Request, TextBuilder};
use std::test::Fail;
use trace_form::{BadCause, LineFault, LineItem, push_bad_line, push_deploy_line, read_item};

/// A line, and what it is or why it is no item.
type Row = (&'static str, &'static str);

const ROWS: [Row; 51] = [
    ("", "blank"),
    (" \t\r", "blank"),
    (r#"{"deploy":{"rulesets":[]}}"#, "deploy"),
    (r#"{"deploy":null}"#, "deploy"),
    (r#"{"deploy":{},"raw":"x"}"#, "deploy"),
    (r#"{"at":-1,"deploy":{},"reply":null}"#, "deploy"),
    (r#"{x"#, "NotJson"),
    (r#"{"at":1e400}"#, "NotJson"),
    (r#"{"raw":"\ud800"}"#, "NotJson"),
    (r#"[]"#, "Shape"),
    (r#"null"#, "Shape"),
    (r#"{}"#, "Shape"),
    (r#"{"raw":null}"#, "Shape"),
    (r#"{"at":0,"ip":"10.0.0.1","raw":null}"#, "Shape"),
    (r#"{"at":-1,"ip":"x","raw":"","ssl":1}"#, "Shape"),
    (r#"{"at":-1,"ip":"x","raw":""}"#, "BadAddress"),
    (r#"{"at":-1,"ip":"::1","raw":""}"#, "BadMoment"),
    (r#"{"at":0,"ip":"::1","raw":""}"#, "BadHead"),
    (
        r#"{"at":0,"ip":"::1","raw":"GET /admin HTTP/1.1\r\nHost: a.example\r\n\r\n"}"#,
        "ask",
    ),
    (
        r#"{"at":0,"ip":"::1","raw":"GET /admin HTTP/1.1\r\nHost: a.example\r\n\r"}"#,
        "BadHead",
    ),
    (
        r#"{"at":0,"ip":"::1","raw":"GET / HTTP/1.1\r\n\r\n","method":1,"target":"","version":0,"headers":0}"#,
        "ask",
    ),
    (
        r#"{"at":0,"ip":"::1","raw":"POST / HTTP/1.1\r\ncontent-length: 2\r\n\r\nab"}"#,
        "ask",
    ),
    (
        r#"{"at":0,"ip":"::1","raw":"POST / HTTP/1.1\r\ncontent-length: 2\r\n\r\na"}"#,
        "BadHead",
    ),
    (
        r#"{"at":0,"ip":"::1","raw":"POST / HTTP/1.1\r\ntransfer-encoding: chunked\r\n\r\n"}"#,
        "BadHead",
    ),
    (
        r#"{"at":0,"ip":"::1","raw":"","reply":{"status":200,"at":-1}}"#,
        "BadMoment",
    ),
    (
        r#"{"at":0,"ip":"::1","raw":"","reply":{"status":20}}"#,
        "Shape",
    ),
    (
        r#"{"at":0,"ip":"10.0.0.1","method":"GET","target":"/","headers":[]}"#,
        "ask",
    ),
    (
        r#"{"at":0,"ip":"10.0.0.1","method":"GET","target":"/"}"#,
        "ask",
    ),
    (
        r#"{"at":0,"ip":"10.0.0.1","method":"GET","target":"/","more":[1.5]}"#,
        "ask",
    ),
    (
        r#"{"at":0,"ip":"::1","method":"GET","target":"/","headers":[],"ssl":true,"version":"HTTP/1.0"}"#,
        "ask",
    ),
    (
        r#"{"at":9007199254740992,"ip":"10.0.0.1","method":"GET","target":"/"}"#,
        "ask",
    ),
    (
        r#"{"at":9007199254740993,"ip":"10.0.0.1","method":"GET","target":"/"}"#,
        "BadMoment",
    ),
    (
        r#"{"at":18446744073709551615,"ip":"10.0.0.1","method":"GET","target":"/"}"#,
        "BadMoment",
    ),
    (
        r#"{"at":18446744073709551616,"ip":"10.0.0.1","method":"GET","target":"/"}"#,
        "Shape",
    ),
    (
        r#"{"at":-1,"ip":"10.0.0.1","method":"GET","target":"/"}"#,
        "BadMoment",
    ),
    (
        r#"{"at":-0,"ip":"10.0.0.1","method":"GET","target":"/"}"#,
        "Shape",
    ),
    (
        r#"{"at":1.0,"ip":"10.0.0.1","method":"GET","target":"/"}"#,
        "Shape",
    ),
    (
        r#"{"at":-1,"ip":"10.0.0","method":"GET","target":"/"}"#,
        "BadAddress",
    ),
    (r#"{"at":-1,"ip":"10.0.0","method":"GET"}"#, "Shape"),
    (
        r#"{"at":-1,"ip":"10.0.0","method":"GET","target":"/","headers":[["a"]]}"#,
        "Shape",
    ),
    (r#"{"ip":"10.0.0.1","method":"GET","target":"/"}"#, "Shape"),
    (r#"{"at":0,"method":"GET","target":"/"}"#, "Shape"),
    (r#"{"at":0,"ip":1,"method":"GET","target":"/"}"#, "Shape"),
    (
        r#"{"at":0,"ip":"10.0.0.1","method":"GET","target":"/","ssl":1}"#,
        "Shape",
    ),
    (
        r#"{"at":0,"ip":"10.0.0.1","method":"GET","target":"/","version":"HTTP/2"}"#,
        "Shape",
    ),
    (
        r#"{"at":0,"ip":"10.0.0.1","method":"","target":"/"}"#,
        "Shape",
    ),
    (
        r#"{"at":0,"ip":"10.0.0.1","method":"GET","target":"/a b"}"#,
        "Shape",
    ),
    (
        r#"{"at":0,"ip":"10.0.0.1","method":"GET","target":"/","headers":null}"#,
        "Shape",
    ),
    (
        r#"{"at":0,"ip":"10.0.0.1","method":"GET","target":"/","headers":[["","a"]]}"#,
        "Shape",
    ),
    (
        r#"{"at":0,"ip":"10.0.0.1","method":"GET","target":"/","headers":[["a","b\r"]]}"#,
        "Shape",
    ),
    (
        r#"{"at":0,"ip":"10.0.0.1","method":"GET","target":"/","headers":[["a","b","c"]]}"#,
        "Shape",
    ),
];

/// The name of what a line was read as, or of the cause why it is no item.
fn name_of(read: &Result<LineItem, LineFault>) -> &'static [u8] {
    match read {
        Ok(LineItem::Blank) => b"blank",
        Ok(LineItem::Deploy(_)) => b"deploy",
        Ok(LineItem::Ask(_)) => b"ask",
        Err(LineFault::Bad(why)) => why.name(),
        Err(LineFault::Memory) => b"memory",
    }
}

#[test]
fn each_line_is_told_apart(rt: HostRuntime) {
    for (line, name) in &ROWS {
        let read = read_item(rt.alloc(), line.as_bytes());
        assert!(rt; name_of(&read) == name.as_bytes(), "{line}");
    }
}

/// Whether this is the request of the first worked trace.
fn is_first_request(request: &Request) -> bool {
    request.at.get() == 0
        && request.from == Addr::V4(0x0A00_0001)
        && !request.ssl
        && request.minor == 1
        && request.method.bytes() == b"GET".as_slice()
        && request.target.bytes() == b"/admin".as_slice()
        && request.body.bytes().is_empty()
}

/// Whether these are its headers.
fn are_first_headers(headers: &[Header]) -> bool {
    headers.len() == 1
        && headers.iter().all(|header| {
            header.name.bytes() == b"host".as_slice()
                && header.value.bytes() == b"a.example".as_slice()
        })
}

fn is_first(read: &Result<LineItem, LineFault>) -> bool {
    match read {
        Ok(LineItem::Ask(recorded)) => {
            is_first_request(&recorded.request)
                && are_first_headers(recorded.request.headers.as_slice())
                && recorded.reply.is_none()
        }
        _ => false,
    }
}

#[test]
fn a_request_is_read_whole(rt: HostRuntime) {
    let line =
        r#"{"at":0,"ip":"10.0.0.1","method":"GET","target":"/admin","headers":[["host","a.example"]]}"#;
    let read = read_item(rt.alloc(), line.as_bytes());
    assert!(rt; is_first(&read));
}

#[test]
fn a_request_is_read_as_it_was_sent(rt: HostRuntime) {
    let line = r#"{"at":0,"ip":"10.0.0.1","raw":"GET /admin HTTP/1.1\r\nhost: a.example\r\n\r\n"}"#;
    let read = read_item(rt.alloc(), line.as_bytes());
    assert!(rt; is_first(&read));
}

#[test]
fn other_lines_are_answered(rt: HostRuntime) -> Result<(), Fail> {
    let alloc = rt.alloc();
    let mut out = TextBuilder::new(alloc);
    push_deploy_line(&mut out, 12)?;
    push_bad_line(&mut out, 2, BadCause::BadHead)?;
    assert_eq!(rt; out.bytes(), b"deploy v12\nbad 2 BadHead\n".as_slice());
    Ok(())
}
