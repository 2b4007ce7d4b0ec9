//! The judging from a place, or from the answer to a step, until it asks a step or ends.

ghost use Rattle.std.specs.Prelude.{IfOk};
ghost use Rattle.judge_core.specs.Ran.{Runs, Resumes, GoesOn};
ghost use Rattle.judge_core.specs.Values.{Listed, AreTold};

use crate::answering::take_answer;
use crate::carried::State;
use crate::outcome::{Asked, Place, Ran, Step, Where};
use crate::stepping::step;
use edge_base::Memory;
use rate_plain::Answer;
use ruleset_model::Config;
use std::alloc::Global;

/// From a place on until a step is asked or the judging ends.
pub(crate) fn run(
    alloc: Global,
    config: &Config,
    from: Place,
    state: &mut State,
) -> Result<Ran, Memory>
    ghost listed: { Listed }
    requires told { AreTold listed config.now }
    ensures { IfOk result (Runs listed config.now from state.old state.new) }
{
    let mut place = from;
    'steps: loop {
        match step(alloc, config, place, state)? {
            Step::Moved(next) => place = next,
            Step::Closed(kind, name) => return Ok(Ran::Closed(kind, name)),
            Step::Passed => return Ok(Ran::Passed),
            Step::Asks(ask, asked) => return Ok(Ran::Asks(ask, asked)),
        }
    }
}

/// From the place on where a rule asked a step, once that is answered.
pub(crate) fn resume(
    alloc: Global,
    config: &Config,
    asked: Asked,
    answer: Answer,
    state: &mut State,
) -> Result<Ran, Memory>
    ghost listed: { Listed }
    requires told { AreTold listed config.now }
    ensures { IfOk result (Resumes listed config.now asked answer state.old state.new) }
{
    match take_answer(alloc, config, asked, answer, state)? {
        Step::Moved(next) => run(alloc, config, next, state),
        Step::Closed(kind, name) => Ok(Ran::Closed(kind, name)),
        Step::Passed => Ok(Ran::Passed),
        Step::Asks(ask, asked) => Ok(Ran::Asks(ask, asked)),
    }
}

/// From the rule on that asked a step, or else from the first phase.
pub(crate) fn go_on(
    alloc: Global,
    config: &Config,
    asked: Option<Asked>,
    answer: Option<Answer>,
    state: &mut State,
) -> Result<Ran, Memory>
    ghost listed: { Listed }
    requires told { AreTold listed config.now }
    ensures { IfOk result (GoesOn listed config.now asked answer state.old state.new) }
{
    let first = Place {
        phase: 0,
        at: Where::Between,
    };
    let Some(asked) = asked else {
        return run(alloc, config, first, state);
    };
    match answer {
        Some(answer) => resume(alloc, config, asked, answer, state),
        None => run(alloc, config, first, state),
    }
}
