//! A judging, step by step with the counter of `replay`.

ghost use Rattle.std.specs.Prelude.{◌≡◌, Err, IfOk};
ghost use Rattle.std.specs.Arc.{arc_value};
ghost use Rattle.judge_core.specs.Values.{Listed, AreTold};
ghost use Rattle.edge_main.specs.Stepping.{IsCounting, IsFull, TakesStep, WhereCounts, JudgesTo, SpendsOnRequest, BacksTo, SpendsOnReply};

use edge_base::{Moment, Reply, Request};
use judge_core::{Back, BackTurn, Judge, Judged, Turn};
use rate_lane::Lanes;
use rate_plain::{Answer, Ask, Counted, Counts, StepFault, Tally};
use ruleset_model::Picked;
use std::alloc::Global;

/// The one caller of the counter.
const CALLER: u32 = 0;

/// Takes a step, and adds it to those that are shown.
fn take_step(
    alloc: Global,
    counter: &mut Lanes,
    ask: &Ask,
    shown: &mut Counts,
) -> Result<Answer, StepFault>
    ensures took { IfOk result (TakesStep counter.old ask.now shown.old counter.new shown.new) }
    ensures spent { result ≡ Err StepFault.Spent → IsFull counter.old }
{
    let position = counter.length();
    let answer = counter.step(alloc, CALLER, ask)?;
    shown.push(Counted { position, answer })?;
    Ok(answer)
}

/// Judges a request in a version, to its end, and adds its steps to those that are shown.
pub fn judge_request(
    alloc: Global,
    counter: &mut Lanes,
    picked: Picked,
    request: Request,
    shown: &mut Counts,
) -> Result<Judged, StepFault>
    ghost listed: { Listed }
    requires told { AreTold listed (arc_value picked.config) }
    requires counting { IsCounting counter.old }
    ensures judged { IfOk result (λ judged. WhereCounts counter.old (JudgesTo listed picked request shown.old counter.new shown.new judged)) }
    ensures spent { result ≡ Err StepFault.Spent → SpendsOnRequest listed picked request counter.old }
{
    let mut judge = Judge::start(alloc, picked, request);
    let mut answer = None;
    'turns: loop {
        match judge.next(alloc, answer)? {
            Turn::Count(ask) => answer = Some(take_step(alloc, counter, &ask, shown)?),
            Turn::Done(judged) => return Ok(judged),
        }
    }
}

/// Judges a reply that came at a moment, to its end, and adds its steps to those that are shown.
pub fn judge_reply(
    alloc: Global,
    counter: &mut Lanes,
    judged: Judged,
    reply: Reply,
    at: Moment,
    shown: &mut Counts,
) -> Result<Reply, StepFault>
    ghost listed: { Listed }
    requires told { AreTold listed (arc_value judged.config) }
    requires counting { IsCounting counter.old }
    ensures backed { IfOk result (λ backed. WhereCounts counter.old (BacksTo listed judged reply at shown.old counter.new shown.new backed)) }
    ensures spent { result ≡ Err StepFault.Spent → SpendsOnReply listed judged reply at counter.old }
{
    let mut back = Back::start(alloc, judged, reply, at);
    let mut answer = None;
    'turns: loop {
        match back.next(alloc, answer)? {
            BackTurn::Count(ask) => answer = Some(take_step(alloc, counter, &ask, shown)?),
            BackTurn::Done(backed) => return Ok(backed),
        }
    }
}
