//! Random lists of events, from a fixed seed, in a world and by hand.
use crate::plain::{Deployed, Happened, Walk};
use crate::worlds::{document, reply, request, shown_text};
use edge_base::{Memory, Moment};
use edge_core::{Event, Events};
use rate_plain::StepFault;
use std::alloc::Global;
use std::process::Abort;
use std::test::Fail;

/// At most two requests in 10 s from an address.
const REQUESTS: &str =
    r#"{"rulesets":[{"id":"rl","kind":"zone","phase":"http_ratelimit","rules":[{"id":"r1","expression":"true","action":"block","ratelimit":{"characteristics":["ip.src"],"period":10,"requests_per_period":2,"mitigation_timeout":10}}]}]}"#;

/// At most one reply of 401 in 60 s to an address.
const REPLIES: &str =
    r#"{"rulesets":[{"id":"rl","kind":"zone","phase":"http_ratelimit","rules":[{"id":"r1","expression":"true","action":"block","ratelimit":{"characteristics":["ip.src"],"period":60,"requests_per_period":1,"mitigation_timeout":60,"counting_expression":"http.response.code eq 401"}}]}]}"#;

/// A document that is refused at `/rulesets` as `Shape`.
const MISSPELT: &str = r#"{"rulesets":1}"#;

/// The next number of a walk.
fn next(number: u64) -> u64 {
    let product = u128::from(number) * 6364136223846793005u128 + 1442695040888963407u128;
    (product & 0xFFFF_FFFF_FFFF_FFFF) as u64
}

/// The event that a number draws, of so many callers; one caller more is drawn, whom the world hasn't.
fn drawn(number: u64, callers: u32) -> Happened {
    let caller = ((number >> 40) % (u64::from(callers) + 1)) as u32;
    match (number >> 20) % 24 {
        0..=4 => Happened::Arrive(caller),
        5..=9 => Happened::Pick(caller),
        10..=14 => Happened::Count(caller),
        15..=18 => Happened::Done(caller),
        19 => Happened::Back(caller, 200),
        20 => Happened::Back(caller, 401),
        21 => Happened::Deploy(Deployed::Requests),
        22 => Happened::Deploy(Deployed::Replies),
        _ => {
            if number & (1 << 60) == 0 {
                Happened::Deploy(Deployed::Nothing)
            } else {
                Happened::Misspelt
            }
        }
    }
}

fn text_of(deployed: Deployed) -> &'static str {
    match deployed {
        Deployed::Nothing => "{}",
        Deployed::Requests => REQUESTS,
        Deployed::Replies => REPLIES,
    }
}

/// The same event for a world.
fn event_of(alloc: Global, happened: Happened) -> Result<Event, Memory> {
    let Some(at) = Moment::of(0) else {
        return Err(Memory);
    };
    Ok(match happened {
        Happened::Arrive(caller) => { Event::Arrive(caller, request(alloc, 0, caller)?) }
        Happened::Pick(caller) => Event::Pick(caller),
        Happened::Count(caller) => Event::Count(caller),
        Happened::Done(caller) => Event::Done(caller),
        Happened::Back(caller, status) => Event::Back(caller, reply(alloc, status)?, at),
        Happened::Deploy(deployed) => Event::Deploy(document(alloc, text_of(deployed))?),
        Happened::Misspelt => Event::Deploy(document(alloc, MISSPELT)?),
    })
}

fn add(events: &mut Events, event: Event) -> Result<(), Memory> {
    events.push(event)?;
    Ok(())
}

/// Whether a world of so many callers shows what the walk says, over a list of events that begins with a deployment.
fn agrees(alloc: Global, seed: u64, callers: u32) -> Result<bool, StepFault> {
    let mut number = seed;
    let mut walk = Walk::new(alloc, callers as usize)?;
    let mut events = Events::new(alloc);
    for _ in 0..24 {
        number = next(number);
        let happened = drawn(number, callers);
        walk.step(happened)?;
        add(&mut events, event_of(alloc, happened)?)?;
    }
    let shown = shown_text(alloc, callers, events)?;
    Ok(shown.bytes() == walk.text())
}

#[test]
fn two_thousand_lists_of_events_are_as_by_hand(rt: HostRuntime) -> Result<(), Fail> {
    let alloc = rt.alloc();
    let mut seed = 1u64;
    for round in 0..2000u32 {
        seed = next(seed);
        assert!(rt; agrees(alloc, seed, round % 4 + 1)?);
    }
    Ok(())
}
