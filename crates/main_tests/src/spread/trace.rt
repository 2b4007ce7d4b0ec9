//! A made trace: 2,000 requests and 40 deployments, some of which are refused.

ghost use Rattle.rate_plain.specs.KeyParts.{HasRanges};

use edge_base::{Memory, Text, TextBuilder};
use std::alloc::Global;

/// How many requests the trace has.
pub(super) const REQUESTS: u64 = 2_000;

/// A request, and what the rules of its version make of it.
#[derive(Clone, Copy, Debug)]
pub(super) struct Asked {
    pub number: u64,
    pub version: u64,
    /// The last byte of its address.
    pub address: u8,
    /// The number in its path.
    pub path: u64,
    pub at: u64,
}

/// What a line of the trace asks for.
#[derive(Clone, Copy, Debug)]
pub(super) enum Wanted {
    Deployed(u64),
    Refused,
    Asked(Asked),
}

/// The lines of the trace, and what they ask for.
#[derive(Drop)]
pub(super) struct Trace {
    pub text: Text,
    pub wanted: Vec<Wanted>,
}

/// How many steps the first limit lets through in this version.
pub(super) fn threshold_in(version: u64) -> u64
    ensures { HasRanges 10000 result 5000 }
{
    version % 3 + 2
}

/// The number in the path that is blocked in this version.
pub(super) fn blocked_in(version: u64) -> u64 {
    version % 8
}

/// Whether a deployment stands before this request: twenty among the first 700, and twenty among the last 600.
fn is_before(request: u64) -> bool {
    if request < 700 {
        request % 35 == 0
    } else {
        request >= 1_400 && request % 30 == 10
    }
}

const FRONT: &[u8] =
    br#"{"deploy":{"rulesets":[{"id":"fw","kind":"zone","phase":"http_request_firewall_custom","rules":[{"id":"w","expression":"http.request.uri.path eq \"/p"#;

const MIDDLE: &[u8] =
    br#"\"","action":"block"}]},{"id":"rl","kind":"zone","phase":"http_ratelimit","rules":[{"id":"r1","expression":"true","action":"block","ratelimit":{"characteristics":["ip.src"],"period":10,"requests_per_period":"#;

const END: &[u8] =
    br#","mitigation_timeout":5}},{"id":"r2","expression":"true","action":"log","ratelimit":{"characteristics":["cf.colo.id"],"period":10,"requests_per_period":9}}]}]}}
"#;

const REFUSED: &[u8] =
    br#"{"deploy":{"rulesets":[{"id":"fw","kind":"zone","phase":"http_request_firewall_custom","rules":[{"id":"w","expression":"http.host eq","action":"block"}]}]}}
"#;

/// Adds a deployment of the version with this number.
fn push_deployment(text: &mut TextBuilder, version: u64) -> Result<(), Memory> {
    text.push(FRONT)?;
    text.push_number(blocked_in(version))?;
    text.push(MIDDLE)?;
    text.push_number(threshold_in(version))?;
    text.push(END)
}

/// Adds a request.
fn push_request(text: &mut TextBuilder, asked: &Asked) -> Result<(), Memory> {
    text.push(br#"{"at":"#)?;
    text.push_number(asked.at)?;
    text.push(br#","ip":"10.0.0."#)?;
    text.push_number(u64::from(asked.address))?;
    text.push(br#"","method":"GET","target":"/p"#)?;
    text.push_number(asked.path)?;
    text.push(b"\"}\n")
}

/// The next of a row of numbers that show no order.
fn next(number: u64) -> u64 {
    number
        .wrapping_mul(6_364_136_223_846_793_005)
        .wrapping_add(1_442_695_040_888_963_407)
}

/// Adds the deployment that stands before this request, and gives the version then in force. Every fifth is refused.
fn deploy(
    text: &mut TextBuilder,
    wanted: &mut Vec<Wanted>,
    request: u64,
    version: u64,
) -> Result<u64, Memory> {
    if request % 25 == 0 {
        text.push(REFUSED)?;
        wanted.push(Wanted::Refused)?;
        return Ok(version);
    }
    let version = version.wrapping_add(1);
    push_deployment(text, version)?;
    wanted.push(Wanted::Deployed(version))?;
    Ok(version)
}

/// The trace. Moments grow by up to 255 ms, and every eighth request is late.
pub(super) fn made(alloc: Global) -> Result<Trace, Memory> {
    let mut text = TextBuilder::new(alloc);
    let mut wanted = Vec::new(alloc);
    let (mut state, mut version, mut moment) = (7, 0, 1_000u64);
    for request in 0..REQUESTS {
        if is_before(request) {
            version = deploy(&mut text, &mut wanted, request, version)?;
        }
        state = next(state);
        moment = moment.saturating_add(state >> 56);
        let asked = Asked {
            number: request + 1,
            version,
            address: ((state >> 40) % 8) as u8,
            path: (state >> 33) % 8,
            at: if request % 8 == 7 {
                moment.saturating_sub(900)
            } else {
                moment
            },
        };
        push_request(&mut text, &asked)?;
        wanted.push(Wanted::Asked(asked))?;
    }
    Ok(Trace {
        text: text.into_text(),
        wanted,
    })
}
