//! Worked lists of events.
use crate::worlds::{document, reply, request, shown_text};
use edge_base::{Memory, Moment};
use edge_core::{Event, Events};
use std::alloc::Global;
use std::process::Abort;
use std::test::Fail;

/// At most one request in 10 s from an address.
const LIMITED: &str =
    r#"{"rulesets":[{"id":"rl","kind":"zone","phase":"http_ratelimit","rules":[{"id":"r1","expression":"true","action":"block","ratelimit":{"characteristics":["ip.src"],"period":10,"requests_per_period":1,"mitigation_timeout":10}}]}]}"#;

/// At most one reply of 401 in 60 s to an address.
const BY_REPLY: &str =
    r#"{"rulesets":[{"id":"rl","kind":"zone","phase":"http_ratelimit","rules":[{"id":"r1","expression":"true","action":"block","ratelimit":{"characteristics":["ip.src"],"period":60,"requests_per_period":1,"mitigation_timeout":60,"counting_expression":"http.response.code eq 401"}}]}]}"#;

const WITH_SSL: &str =
    r#"{"rulesets":[{"id":"fw","kind":"zone","phase":"http_request_firewall_custom","rules":[{"id":"r1","expression":"ssl","action":"block"}]}]}"#;

const MISSPELT: &str =
    r#"{"rulesets":[{"id":"fw","kind":"zone","phase":"http_request_firewall_custom","rules":[{"id":"r1","expression":"ssl","action":"block"},{"id":"r2","expression":"ssl","action":"block"},{"id":"r3","expression":"http.hots eq \"a\"","action":"block"}]}]}"#;

fn deploy(alloc: Global, events: &mut Events, text: &str) -> Result<(), Memory> {
    events.push(Event::Deploy(document(alloc, text)?))?;
    Ok(())
}

fn come(alloc: Global, events: &mut Events, caller: u32, at: u64) -> Result<(), Memory> {
    events.push(Event::Arrive(caller, request(alloc, at, 1)?))?;
    events.push(Event::Pick(caller))?;
    Ok(())
}

/// A request, its one step, and its end.
fn whole(alloc: Global, events: &mut Events, at: u64) -> Result<(), Memory> {
    come(alloc, events, 0, at)?;
    events.push(Event::Count(0))?;
    events.push(Event::Done(0))?;
    Ok(())
}

/// A reply of 401, its one step, and its end.
fn answered(alloc: Global, events: &mut Events, at: u64) -> Result<(), Memory> {
    let Some(at) = Moment::of(at) else {
        return Err(Memory);
    };
    events.push(Event::Back(0, reply(alloc, 401)?, at))?;
    events.push(Event::Count(0))?;
    events.push(Event::Done(0))?;
    Ok(())
}

#[test]
fn each_caller_is_judged_by_the_version_that_it_picked(rt: HostRuntime) -> Result<(), Fail> {
    let alloc = rt.alloc();
    let mut events = Vec::new(alloc);
    deploy(alloc, &mut events, LIMITED)?;
    come(alloc, &mut events, 0, 0)?;
    deploy(alloc, &mut events, "{}")?;
    come(alloc, &mut events, 1, 0)?;
    events.push(Event::Count(0))?;
    events.push(Event::Done(0))?;
    events.push(Event::Done(1))?;
    events.push(Event::Count(1))?;
    let shown = shown_text(alloc, 2, events)?;
    let wanted =
        b"deployed 1\n-\npicked 1\ndeployed 2\n-\npicked 2\ncounted 0 pass\npass\npass\nunfit\n";
    assert!(rt; shown.bytes() == wanted.as_slice());
    Ok(())
}

#[test]
fn a_refused_deployment_leaves_the_version(rt: HostRuntime) -> Result<(), Fail> {
    let alloc = rt.alloc();
    let mut events = Vec::new(alloc);
    deploy(alloc, &mut events, WITH_SSL)?;
    deploy(alloc, &mut events, MISSPELT)?;
    come(alloc, &mut events, 0, 0)?;
    events.push(Event::Done(0))?;
    let shown = shown_text(alloc, 1, events)?;
    let wanted =
        b"deployed 1\nrefused /rulesets/0/rules/2/expression UnknownField\n-\npicked 1\npass\n";
    assert!(rt; shown.bytes() == wanted.as_slice());
    Ok(())
}

#[test]
fn replies_are_counted_as_events(rt: HostRuntime) -> Result<(), Fail> {
    let alloc = rt.alloc();
    let mut events = Vec::new(alloc);
    deploy(alloc, &mut events, BY_REPLY)?;
    for at in [0u64, 1000] {
        whole(alloc, &mut events, at)?;
        answered(alloc, &mut events, at)?;
    }
    whole(alloc, &mut events, 2000)?;
    let shown = shown_text(alloc, 1, events)?;
    let wanted =
        b"deployed 1\n-\npicked 1\ncounted 0 pass\npass\n-\ncounted 1 pass\nreplied 401\n-\npicked 1\ncounted 2 pass\npass\n-\ncounted 3 over@61000\nreplied 401\n-\npicked 1\ncounted 4 over@61000\nblock:429\n";
    assert!(rt; shown.bytes() == wanted.as_slice());
    Ok(())
}
