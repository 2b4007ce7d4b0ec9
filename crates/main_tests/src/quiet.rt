//! The commands on inputs in memory: worked examples, and each read and each write failing in turn.
ghost use Rattle.std.specs.Prelude.{◌≡◌, ◌≤◌, vec_len};

use edge_base::Text;
use edge_main::{Status, edge_quiet, lane_hashers};
use edge_outside::{Numbers, TextSink, TextSource};
use std::alloc::Global;
use std::hash::RandomState;
use std::process::Abort;
use std::random::RandomSource;
use std::test::Fail;

mod checking;
mod judged;
mod limits;
mod making;
mod rows;
mod trial;
mod waiting;

pub(crate) const DEPLOY: &str =
    "{\"deploy\":{\"rulesets\":[{\"id\":\"fw\",\"kind\":\"zone\",\"phase\":\"http_request_firewall_custom\",\"rules\":[{\"id\":\"r1\",\"expression\":\"http.request.uri.path eq \\\"/admin\\\"\",\"action\":\"block\"}]}]}}\n{\"at\":0,\"ip\":\"10.0.0.1\",\"method\":\"GET\",\"target\":\"/admin\",\"headers\":[[\"host\",\"a.example\"]]}\n";

/// The bytes of the first line of `DEPLOY`, with its newline.
const FIRST_LINE: usize = 181;

pub(crate) const BLOCKED: &str = "deploy v1\n1 v1 block:403 fw/r1 /admin -\n";

const ROOT: &str =
    "{\"at\":0,\"ip\":\"10.0.0.1\",\"method\":\"GET\",\"target\":\"/\",\"headers\":[[\"host\",\"a.example\"]]}\n";

const WITH_BAD: &str =
    "{\"at\":0,\"ip\":\"10.0.0.1\",\"method\":\"GET\",\"target\":\"/\",\"headers\":[[\"host\",\"a.example\"]]}\n{x\n{\"at\":1,\"ip\":\"10.0.0.1\",\"method\":\"GET\",\"target\":\"/\",\"headers\":[[\"host\",\"a.example\"]]}";

/// A rule with several tests, and requests that it blocks and passes; then texts that are no condition.
const CONDITIONS: &str =
    r#"{"deploy":{"rulesets":[{"id":"fw","kind":"zone","phase":"http_request_firewall_custom","rules":[{"id":"r2","expression":"not ip.src in {10.0.0.0/8 ::/0} and (ssl or any(lower(http.request.headers.names[*])[*] contains \"x-\")) or http.request.version eq \"HTTP/1.0\"","action":"block"}]}]}}
{"at":0,"ip":"10.0.0.1","method":"GET","target":"/a","headers":[],"ssl":true}
{"at":0,"ip":"11.0.0.1","method":"GET","target":"/b","headers":[],"ssl":true}
{"at":0,"ip":"::1","method":"GET","target":"/c","headers":[["X-A","1"]]}
{"at":0,"ip":"11.0.0.1","method":"GET","target":"/d","headers":[["X-A","1"]],"ssl":false,"version":"HTTP/1.1"}
{"at":0,"ip":"::1","method":"GET","target":"/e","headers":[],"version":"HTTP/1.0"}
{"deploy":{"rulesets":[{"id":"fw","kind":"zone","phase":"http_request_firewall_custom","rules":[{"id":"r3","expression":"http.host eq","action":"block"}]}]}}
{"deploy":{"rulesets":[{"id":"fw","kind":"zone","phase":"http_request_firewall_custom","rules":[{"id":"r3","expression":"http.host","action":"block"}]}]}}
{"deploy":{"rulesets":[{"id":"fw","kind":"zone","phase":"http_request_firewall_custom","rules":[{"id":"r3","expression":"ip.src in $office","action":"block"}]}]}}
{"deploy":{"rulesets":[{"id":"fw","kind":"zone","phase":"http_request_firewall_custom","rules":[{"id":"r3","expression":"http.response.code eq 200","action":"block"}]}]}}
{"at":0,"ip":"::1","method":"GET","target":"/e","headers":[],"version":"HTTP/1.0"}
"#;

const JUDGED: &str =
    "deploy v1\n1 v1 pass - /a -\n2 v1 block:403 fw/r2 /b -\n3 v1 pass - /c -\n4 v1 block:403 fw/r2 /d -\n5 v1 block:403 fw/r2 /e -\ndeploy refused /rulesets/0/rules/0/expression Syntax\ndeploy refused /rulesets/0/rules/0/expression Mismatch\ndeploy refused /rulesets/0/rules/0/expression UnknownList\ndeploy refused /rulesets/0/rules/0/expression ResponseField\n6 v1 block:403 fw/r2 /e -\n";

/// A line of each cause, a line with two, and what is ignored.
const CAUSES: &str = r#"{"at":0,"ip":"::1","raw":"GET"}
{"at":-1,"ip":"x","method":"GET","target":"/"}
{"at":-1,"ip":"::1","method":"GET","target":"/"}
[]
{"at":0,"ip":"::1","method":"GET","target":"/","note":{"raw":1}}
{"deploy":{},"reply":0}
x"#;

const REFUSED: &str =
    "bad 1 BadHead\nbad 2 BadAddress\nbad 3 BadMoment\nbad 4 Shape\n1 v0 pass - / -\ndeploy v1\nbad 7 NotJson\n";

/// What a run came to.
#[derive(Debug, Drop)]
struct Ran {
    status: Status,
    out: Text,
    said: Text,
}

/// Which calls of the streams fail, and the most that one call moves.
#[derive(Debug, Drop)]
struct Streams {
    piece: usize,
    reads: Numbers,
    writes: Numbers,
}

fn run(
    alloc: Global,
    hashers: Vec<RandomState>,
    words: &[&str],
    input: &str,
    streams: Streams,
) -> Result<Ran, Fail>
    requires hashers { vec_len hashers ≡ 64 }
    requires piece { 1 ≤ streams.piece }
{
    let input = Text::of(alloc, input.as_bytes())?;
    run_on(alloc, hashers, words, input, streams)
}

fn run_on(
    alloc: Global,
    hashers: Vec<RandomState>,
    words: &[&str],
    input: Text,
    streams: Streams,
) -> Result<Ran, Fail>
    requires hashers { vec_len hashers ≡ 64 }
    requires piece { 1 ≤ streams.piece }
{
    let Streams {
        piece,
        reads,
        writes,
    } = streams;
    let mut source = TextSource::new(input, piece, reads);
    let mut out = TextSink::new(alloc, 4_096, piece, writes)?;
    let mut said = TextSink::new(alloc, 64, 64, Numbers::new(alloc))?;
    let status = edge_quiet(alloc, words, &mut source, &mut out, &mut said, hashers);
    Ok(Ran {
        status,
        out: Text::of(alloc, out.bytes())?,
        said: Text::of(alloc, said.bytes())?,
    })
}

fn steady(alloc: Global, piece: usize) -> Streams
    ensures { result.piece ≡ piece }
{
    Streams {
        piece,
        reads: Numbers::new(alloc),
        writes: Numbers::new(alloc),
    }
}

fn check(rt: &impl Abort, ran: &Ran, status: Status, out: &[u8], said: &[u8]) {
    assert!(rt; ran.status == status);
    assert!(rt; ran.out.bytes() == out);
    assert!(rt; ran.said.bytes() == said);
}

#[test]
fn each_line_is_answered(rt: HostRuntime) -> Result<(), Fail> {
    let alloc = rt.alloc();
    let cases = [
        ("", "", Status::Done),
        (DEPLOY, BLOCKED, Status::Done),
        (ROOT, "1 v0 pass - / -\n", Status::Done),
        (
            WITH_BAD,
            "1 v0 pass - / -\nbad 2 NotJson\n2 v0 pass - / -\n",
            Status::BadItems,
        ),
        (" \t\r\n\n", "", Status::Done),
        (CAUSES, REFUSED, Status::BadItems),
        (CONDITIONS, JUDGED, Status::Done),
    ];
    for (input, out, status) in cases {
        let ran = run(
            alloc,
            lane_hashers(&rt, alloc)?,
            &["replay"],
            input,
            steady(alloc, 64),
        )?;
        check(&rt, &ran, status, out.as_bytes(), b"");
    }
    Ok(())
}

#[test]
fn other_words_are_no_command(rt: HostRuntime) -> Result<(), Fail> {
    let alloc = rt.alloc();
    let none = run(
        alloc,
        lane_hashers(&rt, alloc)?,
        &[],
        ROOT,
        steady(alloc, 64),
    )?;
    check(&rt, &none, Status::Usage, b"", b"edge: usage\n");
    let extra = run(
        alloc,
        lane_hashers(&rt, alloc)?,
        &["replay", "extra"],
        ROOT,
        steady(alloc, 64),
    )?;
    check(&rt, &extra, Status::Usage, b"", b"edge: usage\n");
    Ok(())
}

/// What the whole lines among the first bytes of `DEPLOY` are answered.
fn answered(taken: usize) -> &'static str {
    if DEPLOY.len() <= taken {
        BLOCKED
    } else if FIRST_LINE <= taken {
        "deploy v1\n"
    } else {
        ""
    }
}

/// The k-th read fails: what was taken before is answered, and nothing else.
fn check_read<R: Abort + RandomSource + AllocGlobal>(
    rt: &R,
    piece: usize,
    k: u16,
) -> Result<(), Fail>
    requires { 1 ≤ piece }
{
    let alloc = rt.alloc();
    let mut streams = steady(alloc, piece);
    streams.reads.push(u64::from(k))?;
    let ran = run(
        alloc,
        lane_hashers(rt, alloc)?,
        &["replay"],
        DEPLOY,
        streams,
    )?;
    let taken = piece.saturating_mul(usize::from(k));
    if taken < DEPLOY.len().saturating_add(piece) {
        check(
            rt,
            &ran,
            Status::ReadFault,
            answered(taken).as_bytes(),
            b"edge: read fault\n",
        );
    } else {
        check(rt, &ran, Status::Done, BLOCKED.as_bytes(), b"");
    }
    Ok(())
}

/// A command, its input, and all that it writes where no write fails.
#[derive(Drop)]
struct Case {
    words: &'static [&'static str],
    input: &'static str,
    whole: &'static str,
}

/// The k-th write fails: what was written before stands, so many bytes.
fn check_write<R: Abort + RandomSource + AllocGlobal>(
    rt: &R,
    case: &Case,
    piece: usize,
    k: u16,
    written: usize,
) -> Result<(), Fail>
    requires { 1 ≤ piece }
{
    let alloc = rt.alloc();
    let mut streams = steady(alloc, piece);
    streams.writes.push(u64::from(k))?;
    let hashers = lane_hashers(rt, alloc)?;
    let ran = run(alloc, hashers, case.words, case.input, streams)?;
    let whole = case.whole.as_bytes();
    if written < whole.len() {
        let front = &whole[..written];
        check(rt, &ran, Status::WriteFault, front, b"edge: write fault\n");
    } else {
        check(rt, &ran, Status::Done, whole, b"");
    }
    Ok(())
}

#[test]
fn each_read_may_fail(rt: HostRuntime) -> Result<(), Fail> {
    for k in 0..276 {
        check_read(&rt, 1, k)?;
    }
    for k in 0..42 {
        check_read(&rt, 7, k)?;
    }
    for k in 0..3 {
        check_read(&rt, 4_096, k)?;
    }
    Ok(())
}

#[test]
fn each_write_may_fail(rt: HostRuntime) -> Result<(), Fail> {
    let case = Case {
        words: &["replay"],
        input: DEPLOY,
        whole: BLOCKED,
    };
    for k in 0..48 {
        check_write(&rt, &case, 1, k, usize::from(k))?;
    }
    // each line is written by itself, since the next has not come yet
    for (k, written) in [
        (0, 0),
        (1, 7),
        (2, 10),
        (3, 17),
        (4, 24),
        (5, 31),
        (6, 38),
        (7, 40),
    ] {
        check_write(&rt, &case, 7, k, written)?;
    }
    // both lines are written at once
    for (k, written) in [(0, 0), (1, BLOCKED.len())] {
        check_write(&rt, &case, 4_096, k, written)?;
    }
    Ok(())
}
