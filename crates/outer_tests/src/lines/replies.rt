use super::name_of;
use edge_base::{Moment, Reply, Text};
use std::alloc::Global;
use std::test::Fail;
use trace_form::{LineFault, LineItem, Recorded, read_item};

/// The moment, the peer and the reply of a request, and what its line is or why it is no item.
type Row = (&'static str, &'static str, &'static str, &'static str);

const ROWS: [Row; 27] = [
    ("0", "10.0.0.1", r#"{"status":100}"#, "ask"),
    ("0", "10.0.0.1", r#"{"status":999}"#, "ask"),
    ("0", "10.0.0.1", r#"{"status":200,"headers":[]}"#, "ask"),
    ("0", "10.0.0.1", r#"{"status":200,"more":null}"#, "ask"),
    ("5", "10.0.0.1", r#"{"status":200,"at":4}"#, "ask"),
    (
        "0",
        "10.0.0.1",
        r#"{"status":200,"at":9007199254740992}"#,
        "ask",
    ),
    ("0", "10.0.0.1", "null", "Shape"),
    ("0", "10.0.0.1", "200", "Shape"),
    ("0", "10.0.0.1", "[]", "Shape"),
    ("0", "10.0.0.1", "{}", "Shape"),
    ("0", "10.0.0.1", r#"{"headers":[]}"#, "Shape"),
    ("0", "10.0.0.1", r#"{"status":99}"#, "Shape"),
    ("0", "10.0.0.1", r#"{"status":1000}"#, "Shape"),
    ("0", "10.0.0.1", r#"{"status":-200}"#, "Shape"),
    ("0", "10.0.0.1", r#"{"status":200.0}"#, "Shape"),
    ("0", "10.0.0.1", r#"{"status":"200"}"#, "Shape"),
    ("0", "10.0.0.1", r#"{"status":200,"at":null}"#, "Shape"),
    ("0", "10.0.0.1", r#"{"status":200,"at":1.0}"#, "Shape"),
    ("0", "10.0.0.1", r#"{"status":200,"headers":{}}"#, "Shape"),
    (
        "0",
        "10.0.0.1",
        r#"{"status":200,"headers":[["a","b\n"]]}"#,
        "Shape",
    ),
    ("-1", "x", "{}", "Shape"),
    ("-1", "x", r#"{"status":200,"at":-1}"#, "BadAddress"),
    ("-1", "10.0.0.1", r#"{"status":200}"#, "BadMoment"),
    ("-1", "10.0.0.1", r#"{"status":200,"at":0}"#, "BadMoment"),
    ("0", "10.0.0.1", r#"{"status":200,"at":-1}"#, "BadMoment"),
    (
        "0",
        "10.0.0.1",
        r#"{"status":200,"at":9007199254740993}"#,
        "BadMoment",
    ),
    (
        "0",
        "10.0.0.1",
        r#"{"status":200,"at":18446744073709551616}"#,
        "Shape",
    ),
];

/// The line of a request of this moment, from this peer and with this reply.
fn line_with(alloc: Global, at: &str, ip: &str, reply: &str) -> Result<String, Fail> {
    let mut line = String::new(alloc);
    for part in [
        r#"{"at":"#,
        at,
        r#","ip":""#,
        ip,
        r#"","method":"GET","target":"/","reply":"#,
        reply,
        "}",
    ] {
        line.push_str(part)?;
    }
    Ok(line)
}

#[test]
fn each_reply_is_told_apart(rt: HostRuntime) -> Result<(), Fail> {
    let alloc = rt.alloc();
    for (at, ip, reply, name) in &ROWS {
        let line = line_with(alloc, at, ip, reply)?;
        let read = read_item(alloc, line.as_bytes());
        assert!(rt; name_of(&read) == name.as_bytes(), "{reply}");
    }
    Ok(())
}

fn is_reply(reply: &Reply, at: Moment, moment: u64) -> bool {
    reply.status == 401
        && reply.body.bytes().is_empty()
        && at.get() == moment
        && reply.headers.len() == 1
        && reply.headers.as_slice().iter().all(|header| {
            header.name.bytes() == b"X-Left".as_slice() && header.value.bytes() == b"2".as_slice()
        })
}

/// Whether the request came at 7 and its reply at this moment.
fn is_answered_at(recorded: &Recorded, moment: u64) -> bool {
    let replied = match &recorded.reply {
        Some((reply, at)) => is_reply(reply, *at, moment),
        None => false,
    };
    replied && recorded.request.at.get() == 7 && recorded.request.headers.is_empty()
}

fn is_read_at(read: &Result<LineItem, LineFault>, moment: u64) -> bool {
    match read {
        Ok(LineItem::Ask(recorded)) => is_answered_at(recorded, moment),
        _ => false,
    }
}

/// A reply to a request that came at 7, and when the reply came.
const REPLIES: [(&str, u64); 2] = [
    (r#"{"status":401,"headers":[["X-Left","2"]]}"#, 7),
    (r#"{"headers":[["X-Left","2"]],"at":3,"status":401}"#, 3),
];

#[test]
fn a_reply_is_read_whole(rt: HostRuntime) -> Result<(), Fail> {
    let alloc = rt.alloc();
    for (reply, moment) in &REPLIES {
        let line = line_with(alloc, "7", "10.0.0.1", reply)?;
        let read = read_item(alloc, line.as_bytes());
        assert!(rt; is_read_at(&read, *moment), "{reply}");
    }
    Ok(())
}
