//! A judging that is kept with its next turn.

ghost use Rattle.std.specs.Prelude.{◌≡◌, None, Some, IfOk};
ghost use Rattle.std.specs.Arc.{arc_value};
ghost use Rattle.judge_core.specs.Backing.{BackCourse, IsToldBack, MayTellBack, StandsForBack, TellsBack, back_more, back_opening};
ghost use Rattle.judge_core.specs.Stands.{Course, IsTold, MayTell, StandsFor, Tells, opening, told_more};
ghost use Rattle.judge_core.specs.Values.{Listed, AreTold};
ghost use Rattle.edge_core.specs.Turns.{IsGoing, IsGoingBack};

use edge_base::{Memory, Moment, Reply, Request};
use judge_core::{Back, BackTurn, Judge, Judged, Turn};
use rate_plain::Answer;
use ruleset_model::Picked;
use std::alloc::Global;

/// The judging of a request in a version, with its first turn.
pub fn begin(alloc: Global, picked: Picked, request: Request) -> Result<(Judge, Turn), Memory>
    ghost listed: { Listed }
    requires { AreTold listed (arc_value picked.config) }
    ensures { IfOk result (λ begun. Tells listed (opening picked request) begun.0 begun.1) }
{
    let mut judge = Judge::start(alloc, picked, request);
    let turn = judge.next(alloc, None)?;
    Ok((judge, turn))
}

/// Its next turn, by the answer to the step that it asked.
pub fn go_on(alloc: Global, mut judge: Judge, answer: Answer) -> Result<(Judge, Turn), Memory>
    ghost listed: { Listed }
    requires told { IsTold listed judge }
    requires may { MayTell (Some answer) judge }
    ensures tells { IfOk result (λ next. (course : Course) → StandsFor listed course judge → Tells listed (told_more (Some answer) course) next.0 next.1) }
    ensures going { IfOk result (λ _. IsGoing judge) }
{
    let turn = judge.next(alloc, Some(answer))?;
    Ok((judge, turn))
}

/// The judging of a reply, with its first turn.
pub fn begin_back(
    alloc: Global,
    judged: Judged,
    reply: Reply,
    at: Moment,
) -> Result<(Back, BackTurn), Memory>
    ghost listed: { Listed }
    requires { AreTold listed (arc_value judged.config) }
    ensures { IfOk result (λ begun. TellsBack listed (back_opening judged reply at) begun.0 begun.1) }
{
    let mut back = Back::start(alloc, judged, reply, at);
    let turn = back.next(alloc, None)?;
    Ok((back, turn))
}

/// Its next turn, by the answer to the step that it asked.
pub fn go_back_on(alloc: Global, mut back: Back, answer: Answer) -> Result<(Back, BackTurn), Memory>
    ghost listed: { Listed }
    requires told { IsToldBack listed back }
    requires may { MayTellBack (Some answer) back }
    ensures tells { IfOk result (λ next. (course : BackCourse) → StandsForBack listed course back → TellsBack listed (back_more (Some answer) course) next.0 next.1) }
    ensures going { IfOk result (λ _. IsGoingBack back) }
{
    let turn = back.next(alloc, Some(answer))?;
    Ok((back, turn))
}
