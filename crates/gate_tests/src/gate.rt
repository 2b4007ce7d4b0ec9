//! The gate on one thread, with one pass and with two.
ghost use Rattle.std.specs.Prelude.{◌≡◌, ◌≤◌, All, IfOk, OnOk};
ghost use Rattle.rate_shared.specs.Callers.{IsOf};
ghost use Rattle.gate_run.specs.Passes.{IsPassOf, seens_in};

use edge_base::{Addr, Memory, Moment, Reply, Request, Text};
use gate_run::{Answered, Desk, Gate, Pass, Passes};
use judge_core::Judged;
use rate_plain::{Answer, Counted, StepFault};
use ruleset_model::VerdictKind;
use serde_json::Value;
use sqlite_items::Items;
use std::alloc::Global;
use std::hash::RandomState;
use std::process::Abort;
use std::sync::Wait;
use std::test::Fail;

const BLOCK: &[u8] =
    br#"{"rulesets":[{"id":"fw","kind":"zone","phase":"http_request_firewall_custom","rules":[{"id":"r1","expression":"http.request.uri.path eq \"/admin\"","action":"block"}]}]}"#;

/// 3 in 10 s, with a timeout of 10 s.
const LIMIT: &[u8] =
    br#"{"rulesets":[{"id":"rl","kind":"zone","phase":"http_ratelimit","rules":[{"id":"r1","expression":"true","action":"block","ratelimit":{"characteristics":["ip.src"],"period":10,"requests_per_period":3,"mitigation_timeout":10}}]}]}"#;

/// The same, which counts replies of status 401.
const LOGIN: &[u8] =
    br#"{"rulesets":[{"id":"rl","kind":"zone","phase":"http_ratelimit","rules":[{"id":"r1","expression":"true","action":"block","ratelimit":{"characteristics":["ip.src"],"period":60,"requests_per_period":1,"mitigation_timeout":60,"counting_expression":"http.response.code eq 401"}}]}]}"#;

const UNKNOWN: &[u8] =
    br#"{"rulesets":[{"id":"fw","kind":"zone","phase":"http_request_firewall_custom","rules":[{"id":"r1","expression":"http.hots eq \"a\"","action":"block"}]}]}"#;

/// A gate with so many passes and four lanes.
fn gate_of<R: Wait>(
    rt: &R,
    alloc: Global,
    hasher: RandomState,
    passes: u32,
) -> Result<(Gate, Passes, Desk), Memory>
    requires { (1 ≤ passes) × (passes ≤ 1024) }
    ensures { IfOk result (λ made. All (IsOf made.0.counters) (seens_in made.1)) }
{
    let hashers = Vec::from_elem(alloc, hasher, 4)?;
    Gate::new(rt, alloc, passes, 8, hashers)
}

/// The last of the passes.
fn last(gate: &Gate, passes: &mut Passes) -> Result<Pass, Memory>
    requires { All (IsOf gate.now.counters) (seens_in passes.old) }
    ensures of { IfOk result (IsPassOf gate.now) }
    ensures others { All (IsOf gate.now.counters) (seens_in passes.new) }
{
    let Some(pass) = passes.pop() else {
        return Err(Memory);
    };
    Ok(pass)
}

/// A request of one address, at moment 0.
fn request(alloc: Global, target: &[u8]) -> Result<Request, Memory> {
    let Some(at) = Moment::of(0) else {
        return Err(Memory);
    };
    Ok(Request {
        at,
        from: Addr::V4(0x0A00_0001),
        ssl: false,
        method: Text::of(alloc, b"GET")?,
        target: Text::of(alloc, target)?,
        minor: 1,
        headers: Items::new(alloc),
        body: Text::of(alloc, b"")?,
    })
}

/// Deploys a document, which becomes the version of this number.
fn deploys<R: Wait + Abort>(
    rt: &R,
    alloc: Global,
    gate: &Gate,
    desk: &mut Desk,
    document: &[u8],
    wanted: u64,
) -> Result<(), Fail> {
    let value = Value::from_slice(alloc, document)?;
    assert!(rt; gate.deploy(rt, alloc, desk, &value) == Ok(wanted));
    Ok(())
}

#[test]
fn a_request_picks_what_was_deployed(rt: HostRuntime) -> Result<(), Fail> {
    let alloc = rt.alloc();
    let (gate, mut passes, mut desk) = gate_of(&rt, alloc, RandomState::new(&rt)?, 1)?;
    let mut pass = last(&gate, &mut passes)?;
    deploys(&rt, alloc, &gate, &mut desk, BLOCK, 1)?;
    let request = request(alloc, b"/admin")?;
    let Answered { judged, counts } = gate.request(&rt, alloc, &mut pass, request)?;
    assert_eq!(rt; judged.version, 1);
    assert!(rt; matches!(&judged.verdict.kind, VerdictKind::Block(_)));
    assert!(rt; counts.is_empty());
    Ok(())
}

#[test]
fn a_refused_document_changes_nothing(rt: HostRuntime) -> Result<(), Fail> {
    let alloc = rt.alloc();
    let (gate, _passes, mut desk) = gate_of(&rt, alloc, RandomState::new(&rt)?, 1)?;
    let value = Value::from_slice(alloc, UNKNOWN)?;
    assert!(rt; gate.deploy(&rt, alloc, &mut desk, &value).is_err());
    assert_eq!(rt; desk.current()?.number, 0);
    Ok(())
}

/// Judges one request, which takes one step.
fn counts<R: Wait + Abort>(
    rt: &R,
    alloc: Global,
    gate: &Gate,
    pass: &mut Pass,
) -> Result<Counted, StepFault>
    requires { IsPassOf gate.now pass.old }
    ensures { IsPassOf gate.now pass.new }
{
    let request = request(alloc, b"/")?;
    let answered = gate.request(rt, alloc, pass, request)?;
    assert_eq!(rt; answered.counts.len(), 1);
    match answered.counts.get(0) {
        Some(counted) => Ok(*counted),
        None => Err(StepFault::Memory),
    }
}

#[test]
fn a_pass_catches_up_with_others(rt: HostRuntime) -> Result<(), Fail> {
    let alloc = rt.alloc();
    let (gate, mut passes, mut desk) = gate_of(&rt, alloc, RandomState::new(&rt)?, 2)?;
    let (mut first, mut second) = (last(&gate, &mut passes)?, last(&gate, &mut passes)?);
    deploys(&rt, alloc, &gate, &mut desk, LIMIT, 1)?;
    counts(&rt, alloc, &gate, &mut first)?;
    assert_eq!(rt; gate.catch_up(&mut second), 1);
    Ok(())
}

/// What is told at each position, of which there are four.
fn in_order(steps: &[Counted]) -> [Option<Answer>; 4] {
    let mut row = [None; 4];
    for step in steps {
        if step.position < 4 {
            row[step.position as usize] = Some(step.answer);
        }
    }
    row
}

/// Puts a pass back among the others.
fn put_back(gate: &Gate, passes: &mut Passes, pass: Pass) -> Result<(), Memory>
    requires others { All (IsOf gate.now.counters) (seens_in passes.old) }
    requires of { IsPassOf gate.now pass }
    ensures { OnOk result (All (IsOf gate.now.counters) (seens_in passes.new)) }
{
    passes.push(pass)
}

/// Ends the gate, with two passes of it and the others.
fn ends(
    rt: &impl Abort,
    gate: Gate,
    mut passes: Passes,
    desk: Desk,
    first: Pass,
    second: Pass,
) -> Result<(), Memory>
    requires others { All (IsOf gate.counters) (seens_in passes) }
    requires first { IsPassOf gate first }
    requires second { IsPassOf gate second }
{
    put_back(&gate, &mut passes, second)?;
    let Err((gate, mut passes, desk)) = gate.close(passes, desk) else {
        return Err(Memory);
    };
    put_back(&gate, &mut passes, first)?;
    let Ok(totals) = gate.close(passes, desk) else {
        return Err(Memory);
    };
    assert_eq!(rt; totals.history, 4);
    Ok(())
}

/// Four steps in one order: three of them are let through, and the last is over.
fn is_worked_row(steps: &[Counted]) -> bool {
    let row = in_order(steps);
    let pass = Some(Answer::Pass);
    row == [pass, pass, pass, Some(Answer::Over { until: 10_000 })]
}

#[test]
fn two_passes_count_in_one_history(rt: HostRuntime) -> Result<(), Fail> {
    let alloc = rt.alloc();
    let (gate, mut passes, mut desk) = gate_of(&rt, alloc, RandomState::new(&rt)?, 2)?;
    let (mut first, mut second) = (last(&gate, &mut passes)?, last(&gate, &mut passes)?);
    deploys(&rt, alloc, &gate, &mut desk, LIMIT, 1)?;
    let one = counts(&rt, alloc, &gate, &mut first)?;
    let two = counts(&rt, alloc, &gate, &mut second)?;
    let three = counts(&rt, alloc, &gate, &mut second)?;
    let four = counts(&rt, alloc, &gate, &mut first)?;
    assert!(rt; is_worked_row(&[one, two, three, four]));
    let note = gate.note(&mut first);
    assert!(rt; gate.meet(&mut second, note) == 4);
    ends(&rt, gate, passes, desk, first, second)?;
    Ok(())
}

/// The reply to a request that passed, with this status and at moment 0, takes one step.
fn replies<R: Wait + Abort>(
    rt: &R,
    alloc: Global,
    gate: &Gate,
    pass: &mut Pass,
    judged: Judged,
    status: u16,
) -> Result<Counted, StepFault>
    requires { IsPassOf gate.now pass.old }
    ensures { IsPassOf gate.now pass.new }
{
    let reply = Reply {
        status,
        headers: Items::new(alloc),
        body: Text::of(alloc, b"")?,
    };
    let Some(at) = Moment::of(0) else {
        return Err(StepFault::Memory);
    };
    match &judged.verdict.kind {
        VerdictKind::Pass => {}
        VerdictKind::Block(_) | VerdictKind::Challenge | VerdictKind::Redirect { .. } => {
            return Err(StepFault::Memory);
        }
    }
    let finished = gate.response(rt, alloc, pass, judged, reply, at)?;
    assert_eq!(rt; finished.reply.status, status);
    match finished.counts.get(0) {
        Some(counted) => Ok(*counted),
        None => Err(StepFault::Memory),
    }
}

#[test]
fn a_reply_counts_behind_its_request(rt: HostRuntime) -> Result<(), Fail> {
    let alloc = rt.alloc();
    let (gate, mut passes, mut desk) = gate_of(&rt, alloc, RandomState::new(&rt)?, 1)?;
    let mut pass = last(&gate, &mut passes)?;
    deploys(&rt, alloc, &gate, &mut desk, LOGIN, 1)?;
    let picked = desk.current()?;
    deploys(&rt, alloc, &gate, &mut desk, BLOCK, 2)?;
    let request = request(alloc, b"/login")?;
    let Answered { judged, counts } = gate.request_in(&rt, alloc, &mut pass, picked, request)?;
    assert_eq!(rt; (judged.version, counts.len()), (1, 1));
    let counted = replies(&rt, alloc, &gate, &mut pass, judged, 401)?;
    let answer = Answer::Pass;
    assert!(rt;
        counted
            == Counted {
                position: 1,
                answer
            }
    );
    Ok(())
}
