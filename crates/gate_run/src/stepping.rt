//! The loops between a judging, of a request or of a reply, and the counter that threads share.

ghost use Rattle.std.specs.Prelude.{◌≡◌, ◌^◌, [], Err, length};
ghost use Rattle.std.specs.Arc.{arc_value};
ghost use Rattle.judge_core.specs.Values.{Listed};
ghost use Rattle.rate_shared.specs.Callers.{own_history, shape_of, IsOf, IsSameCaller};
ghost use Rattle.gate_run.specs.Named.{IsMeaningOf};
ghost use Rattle.gate_run.specs.Stepping.{TakesStep, JudgesIn, BacksIn};

use edge_base::{Moment, Reply, Request};
use judge_core::{Back, BackTurn, Judge, Judged, Turn};
use rate_plain::{Answer, Ask, Counted, StepFault};
use rate_shared::{Counters, Seen};
use ruleset_model::Picked;
use std::alloc::Global;
use std::sync::Wait;

/// Takes a step, and shows it. The room to show it is taken first, so that no step is lost that was counted.
fn take_step<R: Wait>(
    rt: &R,
    alloc: Global,
    counters: &Counters,
    seen: &mut Seen,
    ask: &Ask,
    shown: &mut Vec<Counted>,
) -> Result<Answer, StepFault>
    requires of { IsOf counters.now seen.old }
    ensures same { IsSameCaller seen.old seen.new }
    ensures took { TakesStep (shape_of counters.now) seen.old seen.new ask.now shown.old.items shown.new.items result }
    ensures spent { result ≡ Err StepFault.Spent → length (own_history seen.old) ≡ 2 ^ 40 }
{
    shown.reserve(1)?;
    let counted = counters.step(rt, alloc, seen, ask)?;
    shown.push_reserved(counted);
    Ok(counted.answer)
}

/// Judges a request in a version, to its end, and shows its steps.
pub(crate) fn judge_request<R: Wait>(
    rt: &R,
    alloc: Global,
    counters: &Counters,
    seen: &mut Seen,
    picked: Picked,
    request: Request,
    shown: &mut Vec<Counted>,
) -> Result<Judged, StepFault>
    ghost listed: { Listed }
    requires of { IsOf counters.now seen.old }
    requires meaning { IsMeaningOf (arc_value picked.config).lists listed }
    requires nothing { shown.old.items ≡ [] }
    ensures same { IsSameCaller seen.old seen.new }
    ensures judged { JudgesIn (shape_of counters.now) seen.old seen.new picked request shown.new.items result }
{
    let mut judge = Judge::start(alloc, picked, request);
    let mut answer = None;
    'turns: loop {
        match judge.next(alloc, answer)? {
            Turn::Count(ask) => answer = Some(take_step(rt, alloc, counters, seen, &ask, shown)?),
            Turn::Done(judged) => return Ok(judged),
        }
    }
}

/// Judges a reply that came at a moment, to its end, and shows its steps.
pub(crate) fn judge_reply<R: Wait>(
    rt: &R,
    alloc: Global,
    counters: &Counters,
    seen: &mut Seen,
    judged: Judged,
    reply: Reply,
    at: Moment,
    shown: &mut Vec<Counted>,
) -> Result<Reply, StepFault>
    ghost listed: { Listed }
    requires of { IsOf counters.now seen.old }
    requires meaning { IsMeaningOf (arc_value judged.config).lists listed }
    requires nothing { shown.old.items ≡ [] }
    ensures same { IsSameCaller seen.old seen.new }
    ensures backed { BacksIn (shape_of counters.now) seen.old seen.new judged reply at shown.new.items result }
{
    let mut back = Back::start(alloc, judged, reply, at);
    let mut answer = None;
    'turns: loop {
        match back.next(alloc, answer)? {
            BackTurn::Count(ask) => answer = Some(take_step(
                rt, alloc, counters, seen, &ask, shown,
            )?),
            BackTurn::Done(backed) => return Ok(backed),
        }
    }
}
