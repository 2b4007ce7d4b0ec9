//! `check` on documents in memory.
ghost use Rattle.std.specs.Prelude.{◌≤◌};

use super::{check, run, run_on, steady};
use edge_base::Text;
use edge_main::{Status, lane_hashers};
use std::process::Abort;
use std::random::RandomSource;
use std::test::Fail;

const TWO: &str =
    r#"{"rulesets":[{"id":"fw","kind":"zone","phase":"http_request_firewall_custom","rules":[{"id":"r1","expression":"ssl","action":"block"},{"id":"r2","expression":"not ssl","action":"log"}]},{"id":"late","kind":"zone","phase":"http_request_late_transform","rules":[{"id":"r1","expression":"ssl","action":"rewrite","action_parameters":{"headers":{"x-a":{"operation":"remove"}}}}]}]}"#;

const TAKEN: &str = "ok 2 3\n";

#[test]
fn a_document_is_taken_or_refused(rt: HostRuntime) -> Result<(), Fail> {
    let alloc = rt.alloc();
    let cases = [
        (r#"{"rulesets":[]}"#, "ok 0 0\n", Status::Done),
        ("{}\n", "ok 0 0\n", Status::Done),
        (TWO, TAKEN, Status::Done),
        ("[", "refused / NotJson\n", Status::BadItems),
        ("", "refused / NotJson\n", Status::BadItems),
        ("[]", "refused / Shape\n", Status::BadItems),
        (
            r#"{"rulesets":[{"id":"fw"}]}"#,
            "refused /rulesets/0/kind Missing\n",
            Status::BadItems,
        ),
        (
            r#"{"rulesets":[{"id":"fw","kind":"zone","phase":"http_request_firewall_custom","rules":[{"id":"r1","expression":"ssl eq","action":"block"}]}]}"#,
            "refused /rulesets/0/rules/0/expression Syntax\n",
            Status::BadItems,
        ),
    ];
    for (document, line, status) in cases {
        let ran = run(
            alloc,
            lane_hashers(&rt, alloc)?,
            &["check"],
            document,
            steady(alloc, 64),
        )?;
        check(&rt, &ran, status, line.as_bytes(), b"");
    }
    Ok(())
}

/// A document of so many bytes, all blanks, which is no JSON.
fn is_told<R: Abort + RandomSource + AllocGlobal>(
    rt: &R,
    bytes: usize,
    line: &str,
) -> Result<(), Fail> {
    let alloc = rt.alloc();
    let document = Text::from_vec(Vec::from_elem(alloc, b' ', bytes)?);
    let ran = run_on(
        alloc,
        lane_hashers(rt, alloc)?,
        &["check"],
        document,
        steady(alloc, 65_536),
    )?;
    check(rt, &ran, Status::BadItems, line.as_bytes(), b"");
    Ok(())
}

#[test]
fn a_document_has_a_most_of_bytes(rt: HostRuntime) -> Result<(), Fail> {
    is_told(&rt, 1_048_576, "refused / NotJson\n")?;
    is_told(&rt, 1_048_577, "refused / TooLong\n")
}

/// The k-th read fails: nothing is said.
fn check_read<R: Abort + RandomSource + AllocGlobal>(
    rt: &R,
    piece: usize,
    k: u16,
) -> Result<(), Fail>
    requires { 1 ≤ piece }
{
    let alloc = rt.alloc();
    let mut streams = steady(alloc, piece);
    streams.reads.push(u64::from(k))?;
    let ran = run(alloc, lane_hashers(rt, alloc)?, &["check"], TWO, streams)?;
    if piece.saturating_mul(usize::from(k)) < TWO.len().saturating_add(piece) {
        check(rt, &ran, Status::ReadFault, b"", b"edge: read fault\n");
    } else {
        check(rt, &ran, Status::Done, TAKEN.as_bytes(), b"");
    }
    Ok(())
}

/// The k-th write fails: what was written before stands.
fn check_write<R: Abort + RandomSource + AllocGlobal>(rt: &R, k: u16) -> Result<(), Fail> {
    let alloc = rt.alloc();
    let mut streams = steady(alloc, 1);
    streams.writes.push(u64::from(k))?;
    let ran = run(alloc, lane_hashers(rt, alloc)?, &["check"], TWO, streams)?;
    match TAKEN.as_bytes().get(..usize::from(k)) {
        Some(front) if front.len() < TAKEN.len() => {
            check(rt, &ran, Status::WriteFault, front, b"edge: write fault\n");
        }
        _ => check(rt, &ran, Status::Done, TAKEN.as_bytes(), b""),
    }
    Ok(())
}

#[test]
fn each_call_of_a_check_may_fail(rt: HostRuntime) -> Result<(), Fail> {
    for k in 0..70 {
        check_read(&rt, 7, k)?;
    }
    for k in 0..3 {
        check_read(&rt, 4_096, k)?;
    }
    for k in 0..9 {
        check_write(&rt, k)?;
    }
    Ok(())
}
