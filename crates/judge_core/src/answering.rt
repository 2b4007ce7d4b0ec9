//! On from the rule that asked a step, once that is answered.

ghost use Rattle.std.specs.Prelude.{◌≡◌, IfOk};
ghost use Rattle.judge_core.specs.Machine.{IsAnswered, EntryAnswers, InnerAnswers, Answers};
ghost use Rattle.judge_core.specs.Places.{Reaches};
ghost use Rattle.judge_core.specs.Reaching.{is_over};
ghost use Rattle.judge_core.specs.Values.{Listed, AreTold};

use crate::acting::act;
use crate::carried::{RulePlace, State};
use crate::outcome::{Asked, Inner, Outcome, Place, Step, Walk, Where};
use crate::places::find;
use crate::stepping::{leave, next_in_entry, settle_entry, settle_executed};
use edge_base::Memory;
use rate_plain::Answer;
use ruleset_model::{Act, Config, Rule, Ruleset};
use std::alloc::Global;

fn is_over(answer: Answer) -> bool
    ensures { result ≡ is_over answer }
{
    match answer {
        Answer::Over { .. } => true,
        Answer::Pass | Answer::Full => false,
    }
}

/// What a rule does once its step is answered.
#[tactic(auto, unfolding(crate::specs::Reaching::answered))]
fn answer_rule(
    alloc: Global,
    config: &Config,
    place: RulePlace,
    set: &Ruleset,
    rule: &Rule,
    asked: Asked,
    answer: Answer,
    state: &mut State,
) -> Result<Outcome, Memory>
    ghost listed: { Listed }
    requires told { AreTold listed config.now }
    requires reaches { Reaches config.now place set.now rule.now }
    ensures { IfOk result (IsAnswered listed config.now set.now rule.now asked answer state.old state.new) }
{
    if is_over(answer) && asked.holds {
        act(alloc, config, place, set, rule, asked.action, state)
    } else {
        Ok(Outcome::Goes)
    }
}

/// On from a rule of an entry point.
fn answer_entry(
    alloc: Global,
    config: &Config,
    number: u8,
    walk: Walk,
    asked: Asked,
    answer: Answer,
    state: &mut State,
) -> Result<Step, Memory>
    ghost listed: { Listed }
    requires told { AreTold listed config.now }
    ensures { IfOk result (EntryAnswers listed config.now number walk asked answer state.old state.new) }
{
    let place = walk.rule();
    let Some(found) = find(config, place) else {
        return leave(alloc, config, number, state);
    };
    let outcome = answer_rule(
        alloc, config, place, found.set, found.rule, asked, answer, state,
    )?;
    settle_entry(alloc, config, number, walk, found.rule, outcome, state)
}

/// On from a rule of an executed ruleset.
fn answer_executed(
    alloc: Global,
    config: &Config,
    number: u8,
    walk: Walk,
    inner: Inner,
    asked: Asked,
    answer: Answer,
    state: &mut State,
) -> Result<Step, Memory>
    ghost listed: { Listed }
    requires told { AreTold listed config.now }
    ensures { IfOk result (InnerAnswers listed config.now number walk inner asked answer state.old state.new) }
{
    let Some(executing) = find(config, walk.rule()) else {
        return leave(alloc, config, number, state);
    };
    let Act::Execute(_, _) = &executing.rule.act else {
        return leave(alloc, config, number, state);
    };
    let place = inner.rule();
    let Some(found) = find(config, place) else {
        return Ok(next_in_entry(number, walk));
    };
    let outcome = answer_rule(
        alloc, config, place, found.set, found.rule, asked, answer, state,
    )?;
    Ok(settle_executed(config, number, walk, inner, found.rule, outcome, state))
}

/// On from the place where a rule asked a step.
pub(crate) fn take_answer(
    alloc: Global,
    config: &Config,
    asked: Asked,
    answer: Answer,
    state: &mut State,
) -> Result<Step, Memory>
    ghost listed: { Listed }
    requires told { AreTold listed config.now }
    ensures { IfOk result (Answers listed config.now asked answer state.old state.new) }
{
    let number = asked.place.phase;
    match asked.place.at {
        Where::Between => Ok(Step::Moved(Place {
            phase: number,
            at: Where::Between,
        })),
        Where::Entry(walk) => answer_entry(alloc, config, number, walk, asked, answer, state),
        Where::Executed(walk, inner) => {
            answer_executed(alloc, config, number, walk, inner, asked, answer, state)
        }
    }
}
