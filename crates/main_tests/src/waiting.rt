//! `edge_wait` on inputs in memory: the words that it takes for a command.

use crate::quiet::{BLOCKED, DEPLOY};
use edge_base::Text;
use edge_main::{Status, edge_wait, lane_hashers};
use edge_outside::{
    EchoOrigin, ListClock, MemoryDoor, Numbers, OpenTurnstile, Point, TextSink, TextSource,
    Turnstile,
};
use std::alloc::Global;
use std::process::Abort;
use std::random::RandomSource;
use std::sync::Wait;
use std::sync::atomic::AtomicBool;
use std::sync::atomic::Ordering::SeqCst;
use std::test::Fail;
use std::thread::{Threads, yield_now};

/// Runs the words on an input, without doors.
fn run_waiting<R: Abort + RandomSource + AllocGlobal + Threads + Wait + Sync, T: Turnstile + Sync>(
    rt: &R,
    turnstile: &T,
    words: &[&str],
    input: &[u8],
    out: &mut TextSink,
    said: &mut TextSink,
) -> Result<Status, Fail> {
    let alloc = rt.alloc();
    let mut source = TextSource::new(Text::of(alloc, input)?, 4_096, Numbers::new(alloc));
    let mut doors: Vec<MemoryDoor> = Vec::new(alloc);
    let origins: Vec<EchoOrigin> = Vec::new(alloc);
    let clocks: Vec<ListClock> = Vec::new(alloc);
    let hashers = lane_hashers(rt, alloc)?;
    Ok(edge_wait(
        rt,
        alloc,
        words,
        &mut source,
        out,
        said,
        &mut doors,
        &mut None,
        origins,
        clocks,
        turnstile,
        hashers,
    ))
}

/// Runs the words on an input, and tests what came of it.
fn check_waiting<R: Abort + RandomSource + AllocGlobal + Threads + Wait + Sync>(
    rt: &R,
    words: &[&str],
    input: &[u8],
    status: Status,
    answer: &[u8],
    told: &[u8],
) -> Result<(), Fail> {
    let alloc = rt.alloc();
    let mut out = TextSink::new(alloc, 4_096, 64, Numbers::new(alloc))?;
    let mut said = TextSink::new(alloc, 64, 64, Numbers::new(alloc))?;
    let got = run_waiting(rt, &OpenTurnstile, words, input, &mut out, &mut said)?;
    assert!(rt; got == status);
    assert!(rt; out.bytes() == answer);
    assert!(rt; said.bytes() == told);
    Ok(())
}

/// What `replay` with this many workers writes for an input without bad lines.
pub(crate) fn replayed<R: Abort + RandomSource + AllocGlobal + Threads + Wait + Sync>(
    rt: &R,
    alloc: Global,
    workers: &str,
    input: &[u8],
) -> Result<Text, Fail> {
    let mut out = TextSink::new(alloc, 400_000, 65_536, Numbers::new(alloc))?;
    let mut said = TextSink::new(alloc, 64, 64, Numbers::new(alloc))?;
    let got = run_waiting(
        rt,
        &OpenTurnstile,
        &["replay", workers],
        input,
        &mut out,
        &mut said,
    )?;
    assert!(rt; got == Status::Done);
    Ok(Text::of(alloc, out.bytes())?)
}

#[test]
fn words_that_wait_are_run(rt: HostRuntime) -> Result<(), Fail> {
    let cases: [&[&str]; 3] = [
        &["replay", "--workers", "1"],
        &["--workers=2", "replay"],
        &["replay", "--workers=64"],
    ];
    for words in cases {
        check_waiting(
            &rt,
            words,
            DEPLOY.as_bytes(),
            Status::Done,
            BLOCKED.as_bytes(),
            b"",
        )?;
    }
    Ok(())
}

#[test]
fn other_words_are_no_command_that_waits(rt: HostRuntime) -> Result<(), Fail> {
    let cases: [&[&str]; 9] = [
        &[],
        &["replay"],
        &["check"],
        &["replay", "--workers", "0"],
        &["replay", "--workers", "65"],
        &["replay", "--workers"],
        &["replay", "--workers", "2", "--workers", "2"],
        &["replay", "extra", "--workers", "2"],
        &["serve", "--listen", "a:80"],
    ];
    for words in cases {
        check_waiting(
            &rt,
            words,
            DEPLOY.as_bytes(),
            Status::Usage,
            b"",
            b"edge: usage\n",
        )?;
    }
    Ok(())
}

/// Holds the first worker where it took a request, until the second has answered one.
#[derive(Drop)]
struct Held {
    answered: AtomicBool,
    /// Whether the first went on only then.
    was_answered: AtomicBool,
}

/// Waits until it is raised, for at most 1,000,000,000 turns.
fn waits(raised: &AtomicBool) -> bool {
    for _ in 0..1_000_000_000u32 {
        if raised.load(SeqCst) {
            return true;
        }
        yield_now();
    }
    false
}

impl Turnstile for Held {
    fn at<R: Wait>(&self, _: &R, worker: u32, point: Point) {
        if worker == 0 && point == Point::Took {
            let answered = waits(&self.answered);
            self.was_answered.store(answered, SeqCst);
        }
        if worker == 1 && point == Point::Answered {
            self.answered.store(true, SeqCst);
        }
    }
}

const TWO: &str =
    "{\"at\":0,\"ip\":\"10.0.0.1\",\"method\":\"GET\",\"target\":\"/a\"}\n{\"at\":0,\"ip\":\"10.0.0.1\",\"method\":\"GET\",\"target\":\"/b\"}\n";

#[test]
fn workers_judge_a_batch_at_once(rt: HostRuntime) -> Result<(), Fail> {
    let alloc = rt.alloc();
    let held = Held {
        answered: AtomicBool::new(false),
        was_answered: AtomicBool::new(false),
    };
    let mut out = TextSink::new(alloc, 4_096, 4_096, Numbers::new(alloc))?;
    let mut said = TextSink::new(alloc, 64, 64, Numbers::new(alloc))?;
    let words = ["replay", "--workers=2"];
    let got = run_waiting(&rt, &held, &words, TWO.as_bytes(), &mut out, &mut said)?;
    assert!(rt; got == Status::Done);
    assert!(rt; out.bytes() == b"1 v0 pass - /a -\n2 v0 pass - /b -\n".as_slice());
    assert!(rt; held.was_answered.load(SeqCst));
    Ok(())
}

/// Inputs whose outputs no order of the steps can change, and the outputs.
const SAME: [(&str, &str); 4] = [
    ("", ""),
    (DEPLOY, BLOCKED),
    (
        r#"{"at":0,"ip":"10.0.0.1","method":"GET","target":"/","headers":[["host","a.example"]]}
"#,
        "1 v0 pass - / -\n",
    ),
    (
        r#"{"deploy":{"rulesets":[{"id":"fw","kind":"zone","phase":"http_request_firewall_custom","rules":[{"id":"r1","expression":"ssl","action":"block"}]}]}}
{"deploy":{"rulesets":[{"id":"fw","kind":"zone","phase":"http_request_firewall_custom","rules":[{"id":"r1","expression":"ssl","action":"block"},{"id":"r2","expression":"ssl","action":"block"},{"id":"r3","expression":"http.hots eq \"a\"","action":"block"}]}]}}
{"at":0,"ip":"10.0.0.1","method":"GET","target":"/","headers":[["host","a.example"]]}
"#,
        "deploy v1\ndeploy refused /rulesets/0/rules/2/expression UnknownField\n1 v1 pass - / -\n",
    ),
];

#[test]
fn two_workers_answer_as_one_thread(rt: HostRuntime) -> Result<(), Fail> {
    let words = ["replay", "--workers", "2"];
    for (input, answer) in SAME {
        let (input, answer) = (input.as_bytes(), answer.as_bytes());
        check_waiting(&rt, &words, input, Status::Done, answer, b"")?;
    }
    Ok(())
}
