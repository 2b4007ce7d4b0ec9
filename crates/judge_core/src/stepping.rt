//! One step of the judging from a place.

ghost use Rattle.std.specs.Prelude.{◌≡◌, ◌<◌, Some, IfOk, OnOk, OnSome};
ghost use Rattle.judge_core.specs.declared.outcome.Step.TheVariants as step;
ghost use Rattle.judge_core.specs.declared.outcome.Where.TheVariants as at;
ghost use Rattle.judge_core.specs.Changing.{phase_end};
ghost use Rattle.judge_core.specs.Machine.{phase_numbered, left, entry_at, executed_at, Steps, IsNearer};
ghost use Rattle.judge_core.specs.Machine.{BetweenSteps, EntrySteps, EntrySettles, Executing};
ghost use Rattle.judge_core.specs.Machine.{ExecutedSteps, InnerSettles};
ghost use Rattle.judge_core.specs.Places.{carried_of, rule_at};
ghost use Rattle.judge_core.specs.Reaching.{own, under};
ghost use Rattle.judge_core.specs.Values.{Listed, AreTold};
ghost use Rattle.judge_core.specs.Walks.{place_of, next_walk, next_inner};

use crate::acting::plain_of;
use crate::carried::State;
use crate::changing::end_phase;
use crate::outcome::{Asked, Inner, Outcome, Place, Reached, Step, Walk, Where};
use crate::places::{find, set_at};
use crate::reaching::reach;
use crate::skips::{skips_phase, skips_ruleset};
use edge_base::Memory;
use override_plan::{Effective, Overrides, effective};
use ruleset_model::{Act, Config, Phase, Rule};
use std::alloc::Global;

/// The phases by their numbers: those of a request, its end, and that of a reply.
const ORDER: [Option<Phase>; 8] = [
    Some(Phase::DynamicRedirect),
    Some(Phase::Transform),
    Some(Phase::FirewallCustom),
    Some(Phase::RateLimit),
    Some(Phase::FirewallManaged),
    Some(Phase::LateTransform),
    None,
    Some(Phase::ResponseTransform),
];

/// The phase with a number.
fn phase_at(number: u8) -> Option<Phase>
    ensures found { result ≡ phase_numbered number }
    ensures within { OnSome result (number < 8) }
{
    match ORDER.get(number as usize) {
        Some(found) => *found,
        None => None,
    }
}

// ---- between two phases

/// A phase begins, or is passed over.
#[tactic(auto, using(crate::proofs::StepLemmas::phases_end))]
fn step_between(config: &Config, number: u8, state: &State) -> Step
    ghost listed: { Listed }
    ensures talk { BetweenSteps listed config.now number state.now result }
    ensures nearer { IsNearer (record { phase = number; at = at.Between }) result }
{
    let Some(phase) = phase_at(number) else {
        return Step::Passed;
    };
    let passed_over = Place {
        phase: number + 1,
        at: Where::Between,
    };
    if skips_phase(config, state, phase) {
        return Step::Moved(passed_over);
    }
    let Some(holder) = config.entry(phase) else {
        return Step::Moved(passed_over);
    };
    let Some(set) = set_at(config, holder) else {
        return Step::Moved(passed_over);
    };
    if skips_ruleset(config, state, set) {
        return Step::Moved(passed_over);
    }
    let walk = Walk {
        set: holder,
        next: 0,
    };
    Step::Moved(Place {
        phase: number + 1,
        at: Where::Entry(walk),
    })
}

// ---- in an entry point

/// On to the next rule of an entry point.
pub(crate) fn next_in_entry(number: u8, walk: Walk) -> Step
    requires { walk.next < 1000 }
    ensures { result ≡ step.Moved (entry_at number (next_walk walk)) }
{
    let next = Walk {
        set: walk.set,
        next: walk.next + 1,
    };
    Step::Moved(Place {
        phase: number,
        at: Where::Entry(next),
    })
}

/// The judging of a ruleset begins where a rule executes one that isn't skipped.
#[tactic(auto, using(crate::proofs::StepLemmas::executes_none, crate::proofs::StepLemmas::executes_skipped, crate::proofs::StepLemmas::executes))]
fn begin_executed(config: &Config, number: u8, walk: Walk, rule: &Rule, state: &State) -> Step
    ghost listed: { Listed }
    requires few { walk.next < 1000 }
    requires there { rule_at config.now (place_of walk) ≡ Some rule.now }
    ensures talk { Executing listed config.now number walk rule.now.act state.now result }
    ensures nearer { IsNearer (entry_at number walk) result }
{
    let Act::Execute(holder, _) = &rule.act else {
        return next_in_entry(number, walk);
    };
    let Some(executed) = set_at(config, *holder) else {
        return next_in_entry(number, walk);
    };
    if skips_ruleset(config, state, executed) {
        return next_in_entry(number, walk);
    }
    let inner = Inner {
        set: *holder,
        next: 0,
    };
    Step::Moved(Place {
        phase: number,
        at: Where::Executed(walk, inner),
    })
}

/// The phase ends.
pub(crate) fn leave(
    alloc: Global,
    config: &Config,
    number: u8,
    state: &mut State,
) -> Result<Step, Memory>
    ensures moved { IfOk result (λ s. s ≡ step.Moved (record { phase = number; at = at.Between })) }
    ensures state { OnOk result (carried_of config.now state.new ≡ phase_end (carried_of config.now state.old)) }
{
    end_phase(alloc, config, state)?;
    Ok(Step::Moved(Place {
        phase: number,
        at: Where::Between,
    }))
}

/// On from a rule of an entry point, by what it did.
pub(crate) fn settle_entry(
    alloc: Global,
    config: &Config,
    number: u8,
    walk: Walk,
    rule: &Rule,
    outcome: Outcome,
    state: &mut State,
) -> Result<Step, Memory>
    ghost listed: { Listed }
    requires few { walk.next < 1000 }
    requires there { rule_at config.now (place_of walk) ≡ Some rule.now }
    ensures talk { IfOk result (EntrySettles listed config.now number walk rule.now outcome state.old state.new) }
    ensures nearer { IfOk result (IsNearer (entry_at number walk)) }
{
    match outcome {
        Outcome::Goes => Ok(next_in_entry(number, walk)),
        Outcome::Leaves => leave(alloc, config, number, state),
        Outcome::Closes(kind, name) => Ok(Step::Closed(kind, name)),
        Outcome::Executes => Ok(begin_executed(config, number, walk, rule, state)),
    }
}

/// A rule as it stands.
fn own(rule: &Rule) -> Effective
    ensures { result ≡ own rule.now }
{
    Effective {
        enabled: rule.enabled,
        action: plain_of(&rule.act),
    }
}

/// The next rule of an entry point is reached, or the phase ends.
#[tactic(auto, using(crate::proofs::StepLemmas::entry_ends))]
fn step_entry(
    alloc: Global,
    config: &Config,
    number: u8,
    walk: Walk,
    state: &mut State,
) -> Result<Step, Memory>
    ghost listed: { Listed }
    requires told { AreTold listed config.now }
    ensures talk { IfOk result (EntrySteps listed config.now number walk state.old state.new) }
    ensures nearer { IfOk result (IsNearer (entry_at number walk)) }
{
    let place = walk.rule();
    let Some(found) = find(config, place) else {
        return leave(alloc, config, number, state);
    };
    let effective = own(found.rule);
    let action = effective.action;
    match reach(
        alloc, config, place, found.set, found.rule, effective, state,
    )? {
        Reached::Came(outcome) => {
            settle_entry(alloc, config, number, walk, found.rule, outcome, state)
        }
        Reached::Asks(ask, holds) => {
            let place = Place {
                phase: number,
                at: Where::Entry(walk),
            };
            let asked = Asked {
                place,
                action,
                holds,
            };
            Ok(Step::Asks(ask, asked))
        }
    }
}

// ---- in an executed ruleset

/// On to the next rule of an executed ruleset.
fn next_in_executed(number: u8, walk: Walk, inner: Inner) -> Step
    requires { inner.next < 1000 }
    ensures { result ≡ step.Moved (executed_at number walk (next_inner inner)) }
{
    let next = Inner {
        set: inner.set,
        next: inner.next + 1,
    };
    Step::Moved(Place {
        phase: number,
        at: Where::Executed(walk, next),
    })
}

/// On from a rule of an executed ruleset, by what it did.
pub(crate) fn settle_executed(
    config: &Config,
    number: u8,
    walk: Walk,
    inner: Inner,
    rule: &Rule,
    outcome: Outcome,
    state: &State,
) -> Step
    ghost listed: { Listed }
    requires few { walk.next < 1000 }
    requires inner_few { inner.next < 1000 }
    ensures talk { InnerSettles listed config.now number walk inner rule.now outcome state.now result }
    ensures nearer { IsNearer (executed_at number walk inner) result }
{
    match outcome {
        Outcome::Goes | Outcome::Executes => next_in_executed(number, walk, inner),
        Outcome::Leaves => next_in_entry(number, walk),
        Outcome::Closes(kind, name) => Step::Closed(kind, name),
    }
}

/// A rule under the overrides of the one that executes it.
fn under(overrides: &Overrides, rule: &Rule) -> Effective
    ensures { result ≡ under overrides.now rule.now }
{
    let action = plain_of(&rule.act);
    effective(overrides, &rule.id, &rule.tags, rule.enabled, action)
}

/// The next rule of an executed ruleset is reached, or the executing one goes on.
fn step_executed(
    alloc: Global,
    config: &Config,
    number: u8,
    walk: Walk,
    inner: Inner,
    state: &mut State,
) -> Result<Step, Memory>
    ghost listed: { Listed }
    requires told { AreTold listed config.now }
    ensures talk { IfOk result (ExecutedSteps listed config.now number walk inner state.old state.new) }
    ensures nearer { IfOk result (IsNearer (executed_at number walk inner)) }
{
    let Some(executing) = find(config, walk.rule()) else {
        return leave(alloc, config, number, state);
    };
    let Act::Execute(_, overrides) = &executing.rule.act else {
        return Ok(next_in_entry(number, walk));
    };
    let place = inner.rule();
    let Some(found) = find(config, place) else {
        return Ok(next_in_entry(number, walk));
    };
    let effective = under(overrides, found.rule);
    let action = effective.action;
    match reach(
        alloc, config, place, found.set, found.rule, effective, state,
    )? {
        Reached::Came(outcome) => Ok(settle_executed(
            config, number, walk, inner, found.rule, outcome, state,
        )),
        Reached::Asks(ask, holds) => {
            let place = Place {
                phase: number,
                at: Where::Executed(walk, inner),
            };
            let asked = Asked {
                place,
                action,
                holds,
            };
            Ok(Step::Asks(ask, asked))
        }
    }
}

/// One step from a place.
pub(crate) fn step(
    alloc: Global,
    config: &Config,
    place: Place,
    state: &mut State,
) -> Result<Step, Memory>
    ghost listed: { Listed }
    requires told { AreTold listed config.now }
    ensures talk { IfOk result (Steps listed config.now (left listed config.now place) state.old state.new) }
    ensures nearer { IfOk result (IsNearer place) }
{
    match place.at {
        Where::Between => Ok(step_between(config, place.phase, state)),
        Where::Entry(walk) => step_entry(alloc, config, place.phase, walk, state),
        Where::Executed(walk, inner) => {
            step_executed(alloc, config, place.phase, walk, inner, state)
        }
    }
}
