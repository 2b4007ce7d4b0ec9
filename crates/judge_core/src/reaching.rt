//! What comes of a rule that is reached.

ghost use Rattle.std.specs.Prelude.{◌≡◌, IfOk, OnOk};
ghost use Rattle.judge_core.specs.Machine.{ActsWhere, IsKept, Asking, IsReached};
ghost use Rattle.judge_core.specs.Places.{Reaches, LimitSuits};
ghost use Rattle.judge_core.specs.Values.{Listed, AreTold};

use crate::acting::act;
use crate::carried::{RulePlace, State};
use crate::kept::KeptCount;
use crate::limits::{adds_on, is_by_reply, key_on};
use crate::outcome::{Outcome, Reached};
use crate::skips::skips_rule;
use crate::values::is_true;
use edge_base::Memory;
use override_plan::{Effective, Plain};
use rate_plain::{Ask, Key};
use ruleset_model::{Config, Limit, Rule, Ruleset};
use std::alloc::Global;

/// A rule acts where its condition is true.
fn act_where(
    alloc: Global,
    config: &Config,
    place: RulePlace,
    set: &Ruleset,
    rule: &Rule,
    action: Plain,
    holds: bool,
    state: &mut State,
) -> Result<Outcome, Memory>
    ghost listed: { Listed }
    requires told { AreTold listed config.now }
    requires reaches { Reaches config.now place set.now rule.now }
    ensures { IfOk result (ActsWhere listed config.now set.now rule.now action holds state.old state.new) }
{
    if holds {
        act(alloc, config, place, set, rule, action, state)
    } else {
        Ok(Outcome::Goes)
    }
}

/// A rule that counts by the reply is kept with its key.
fn keep(
    alloc: Global,
    config: &Config,
    place: RulePlace,
    limit: &Limit,
    key: &Key,
    state: &mut State,
) -> Result<(), Memory>
    ensures { OnOk result (IsKept config.now place limit.now key.now state.old state.new) }
{
    if is_by_reply(&limit.counting) {
        state.kept.push(KeptCount {
            holder: place.set,
            rule: place.rule,
            key: key.copy(alloc)?,
        })?;
    }
    Ok(())
}

/// A rule with a limit asks a step where its condition is true or the request is counted.
fn reach_limited(
    alloc: Global,
    config: &Config,
    place: RulePlace,
    set: &Ruleset,
    rule: &Rule,
    limit: &Limit,
    action: Plain,
    holds: bool,
    state: &mut State,
) -> Result<Reached, Memory>
    ghost listed: { Listed }
    requires told { AreTold listed config.now }
    requires suits { LimitSuits config.now limit.now }
    ensures { IfOk result (Asking listed config.now place set.now rule.now action limit.now holds state.old state.new) }
{
    let key = key_on(alloc, config, set, rule, limit, state)?;
    let adds = adds_on(alloc, config, &limit.counting, holds, state)?;
    keep(alloc, config, place, limit, &key, state)?;
    if !holds && !adds {
        return Ok(Reached::Came(Outcome::Goes));
    }
    let asked = state.request.at;
    Ok(Reached::Asks(Ask { key, asked, adds }, holds))
}

/// A rule is reached. One that is disabled or skipped is passed over.
#[tactic(auto, unfolding(crate::specs::Reaching::reached))]
pub(crate) fn reach(
    alloc: Global,
    config: &Config,
    place: RulePlace,
    set: &Ruleset,
    rule: &Rule,
    effective: Effective,
    state: &mut State,
) -> Result<Reached, Memory>
    ghost listed: { Listed }
    requires told { AreTold listed config.now }
    requires reaches { Reaches config.now place set.now rule.now }
    ensures { IfOk result (IsReached listed config.now place set.now rule.now effective state.old state.new) }
{
    if !effective.enabled || skips_rule(config, state, set, rule) {
        return Ok(Reached::Came(Outcome::Goes));
    }
    let action = effective.action;
    let holds = is_true(alloc, config, &rule.filter, state)?;
    match &rule.limit {
        None => Ok(Reached::Came(act_where(
            alloc, config, place, set, rule, action, holds, state,
        )?)),
        Some(limit) => reach_limited(alloc, config, place, set, rule, limit, action, holds, state),
    }
}
