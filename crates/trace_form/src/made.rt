ghost use Rattle.std.specs.Prelude.{◌≡◌, ◌≤◌, ◌+◌, ◌*◌, ◌++◌, IfOk, OnOk, OnErr};
ghost use Rattle.std.specs.Io.{StartsWith};
ghost use Rattle.trace_form.specs.Made.{next_number, drawn, host_of, path_of, pause_of, request_line, deployment_line, made_line, making};

use edge_base::{Memory, Text, TextBuilder};
use std::alloc::Global;
use std::marker::Model;

/// By what a number is multiplied, and what is added then, to make the next.
const FACTOR: u64 = 6_364_136_223_846_793_005;

const ADDEND: u64 = 1_442_695_040_888_963_407;

/// The generator of a large valid input, which is made from a number: how far it has come.
#[derive(Debug, Drop)]
pub struct Made {
    seed: u64,
    /// The index of the next line.
    next: u64,
    /// The number of the last request, and its moment; at first the seed, and 0.
    number: u64,
    moment: u64,
}

impl Model for Made {
    ghost use Rattle.trace_form.specs.Made.{Making, IsAt};

    ghost Value = { Making };

    ghost view = { λ made. record { seed = made.seed; next = made.next } };

    ghost invariant = { λ made. IsAt made.seed made.next made.number made.moment };
}

impl Made {
    /// A generator from this number. Takes no memory.
    pub fn new(seed: u64) -> Made
        ensures { result ≡ making seed 0 }
    {
        Made {
            seed,
            next: 0,
            number: seed,
            moment: 0,
        }
    }
}

/// The number that comes after one.
fn next_number(number: u64) -> u64
    ensures { result ≡ next_number number }
{
    number.wrapping_mul(FACTOR).wrapping_add(ADDEND)
}

/// What a request is drawn from.
fn drawn(number: u64) -> u64
    ensures { result ≡ drawn number }
{
    number / (1 << 33)
}

/// How much later than the last one a request comes, in milliseconds.
fn pause_of(drawn: u64) -> u64
    ensures value { result ≡ pause_of drawn }
    ensures within { result ≤ 2000 }
{
    drawn / 128 % 2000
}

/// A request of this moment, from what it is drawn from.
#[tactic(auto, unfolding(crate::specs::Made::request_line))]
fn request_line(alloc: Global, moment: u64, drawn: u64) -> Result<Text, Memory>
    ensures { IfOk result (λ text. text ≡ request_line moment drawn) }
{
    let mut out = TextBuilder::new(alloc);
    out.push(b"{\"at\":")?;
    out.push_number(moment)?;
    out.push(b",\"ip\":\"10.0.0.")?;
    out.push_number(drawn % 16)?;
    out.push(b"\",\"method\":\"GET\",\"target\":\"/p")?;
    out.push_number(drawn / 16 % 8)?;
    out.push(b"\",\"headers\":[[\"host\",\"a.example\"]]}\n")?;
    Ok(out.into_text())
}

/// A rule that blocks one path, and a rule that limits each address.
#[tactic(auto, unfolding(crate::specs::Made::deployment_line))]
fn deployment_line(alloc: Global) -> Result<Text, Memory>
    ensures { IfOk result (λ text. text ≡ deployment_line) }
{
    let mut out = TextBuilder::new(alloc);
    out.push(b"{\"deploy\":{\"rulesets\":[")?;
    out.push(
        b"{\"id\":\"fw\",\"kind\":\"zone\",\"phase\":\"http_request_firewall_custom\",\"rules\":[",
    )?;
    out.push(
        b"{\"id\":\"b1\",\"expression\":\"http.request.uri.path eq \\\"/p7\\\"\",\"action\":\"block\"}]}",
    )?;
    out.push(b",")?;
    out.push(b"{\"id\":\"rl\",\"kind\":\"zone\",\"phase\":\"http_ratelimit\",\"rules\":[")?;
    out.push(b"{\"id\":\"l1\",\"expression\":\"true\",\"action\":\"block\",\"ratelimit\":")?;
    out.push(
        b"{\"characteristics\":[\"ip.src\"],\"period\":10,\"requests_per_period\":5,\"mitigation_timeout\":10}}]}",
    )?;
    out.push(b"]}}\n")?;
    Ok(out.into_text())
}

/// The line of the generator with this index, which comes next: at 0 the deployment, then the requests from 1.
pub fn made_line(alloc: Global, seed: u64, index: u64, state: &mut Made) -> Result<Text, Memory>
    requires from_seed { state.old.seed ≡ seed }
    requires in_order { state.old.next ≡ index }
    requires within { index ≤ 10000000 }
    ensures ok { IfOk result (λ text. text ≡ made_line seed index) }
    ensures next { OnOk result (state.new ≡ making seed (index + 1)) }
    ensures err { OnErr result (state.new ≡ state.old) }
{
    if index == 0 {
        let text = deployment_line(alloc)?;
        state.next = 1;
        return Ok(text);
    }
    let number = next_number(state.number);
    let drawn = drawn(number);
    let moment = state.moment + pause_of(drawn);
    let text = request_line(alloc, moment, drawn)?;
    state.next = index + 1;
    state.number = number;
    state.moment = moment;
    Ok(text)
}
