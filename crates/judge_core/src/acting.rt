//! What a rule does whose condition is true.

ghost use Rattle.std.specs.Prelude.{◌≡◌, Some, IfOk};
ghost use Rattle.judge_core.specs.Acting.{name_of, plain_of, default_response, response_of, skipping};
ghost use Rattle.judge_core.specs.Acting.{done, acted};
ghost use Rattle.judge_core.specs.Machine.{Does, Redirects};
ghost use Rattle.judge_core.specs.Places.{skips_by, rule_at, DynamicSuits, ActSuits};
ghost use Rattle.judge_core.specs.Values.{Listed, AreTold};

use crate::carried::{RulePlace, State};
use crate::changing::keep_rewrite;
use crate::outcome::Outcome;
use crate::values::text_on;
use edge_base::{Memory, RuleName, Text};
use override_plan::Plain;
use rewrite_apply::target;
use ruleset_model::{Act, Config, Phase, Redirect, Response, Rule, Ruleset, Skips, VerdictKind};
use std::alloc::Global;

/// The status with which a rule blocks that says nothing of it, and that where rules have limits.
const BLOCKED: u16 = 403;

const LIMITED: u16 = 429;

/// The name of a rule: that of the ruleset in which it stands, and its own.
pub(crate) fn name_of(alloc: Global, set: &Ruleset, rule: &Rule) -> Result<RuleName, Memory>
    ensures { IfOk result (λ name. name ≡ name_of set.now rule.now) }
{
    Ok(RuleName {
        set_id: set.id.copy(alloc)?,
        rule: rule.id.copy(alloc)?,
    })
}

/// What an action is, as far as overrides may change it.
pub(crate) fn plain_of(act: &Act) -> Plain
    ensures { result ≡ plain_of act.now }
{
    match act {
        Act::Block(_) => Plain::Block,
        Act::Challenge(challenge) => *challenge,
        Act::Log => Plain::Log,
        Act::Skip(_) | Act::Execute(_, _) | Act::Rewrite(_) | Act::Redirect(_) => Plain::Other,
    }
}

/// What is sent where a rule blocks and has no response of its own.
fn default_response(alloc: Global, phase: Phase) -> Result<Response, Memory>
    ensures { IfOk result (λ response. response ≡ default_response phase) }
{
    let status_code = match phase {
        Phase::RateLimit => LIMITED,
        _ => BLOCKED,
    };
    Ok(Response {
        status_code,
        content: Text::of(alloc, b"blocked\n")?,
        content_type: Text::of(alloc, b"text/plain")?,
    })
}

/// What is sent where a rule blocks.
fn response_of(alloc: Global, set: &Ruleset, rule: &Rule) -> Result<Response, Memory>
    ensures { IfOk result (λ response. response ≡ response_of set.now rule.now) }
{
    match &rule.act {
        Act::Block(Some(response)) => response.copy(alloc),
        _ => default_response(alloc, set.phase),
    }
}

/// A rule skips.
#[tactic(auto, using(crate::proofs::PlaceLemmas::one_more_skips))]
fn skip(
    config: &Config,
    place: RulePlace,
    rule: &Rule,
    skips: &Skips,
    state: &mut State,
) -> Result<Outcome, Memory>
    requires there { rule_at config.now place ≡ Some rule.now }
    requires skips { skips_by rule.now.act ≡ Some skips.now }
    ensures { IfOk result (Does config.now rule.now (skipping skips.now) state.old state.new) }
{
    state.skipping.push(place)?;
    Ok(if skips.current {
        Outcome::Leaves
    } else {
        Outcome::Goes
    })
}

/// A rule redirects, unless its target is missing.
fn redirect(
    alloc: Global,
    config: &Config,
    set: &Ruleset,
    rule: &Rule,
    redirect: &Redirect,
    state: &State,
) -> Result<Outcome, Memory>
    ghost listed: { Listed }
    requires told { AreTold listed config.now }
    requires suits { DynamicSuits config.now redirect.now.target_url }
    ensures { IfOk result (Redirects listed config.now set.now rule.now redirect.now state.now) }
{
    let Some(location) = text_on(alloc, config, &redirect.target_url, state)? else {
        return Ok(Outcome::Goes);
    };
    let target = target(
        alloc,
        &location,
        redirect.preserve_query_string,
        &state.request,
    )?;
    let status = redirect.status_code;
    let kind = VerdictKind::Redirect { status, target };
    Ok(Outcome::Closes(kind, name_of(alloc, set, rule)?))
}

/// A rule does what no override reaches.
fn do_other(
    alloc: Global,
    config: &Config,
    place: RulePlace,
    set: &Ruleset,
    rule: &Rule,
    state: &mut State,
) -> Result<Outcome, Memory>
    ghost listed: { Listed }
    requires told { AreTold listed config.now }
    requires there { rule_at config.now place ≡ Some rule.now }
    requires suits { ActSuits config.now rule.now.act }
    ensures { IfOk result (Does config.now rule.now (done listed set.now rule.now rule.now.act) state.old state.new) }
{
    match &rule.act {
        Act::Skip(skips) => skip(config, place, rule, skips, state),
        Act::Execute(_, _) => Ok(Outcome::Executes),
        Act::Rewrite(rewrite) => {
            keep_rewrite(alloc, config, rewrite, state)?;
            Ok(Outcome::Goes)
        }
        Act::Redirect(to) => redirect(alloc, config, set, rule, to, state),
        Act::Block(_) | Act::Challenge(_) | Act::Log => Ok(Outcome::Goes),
    }
}

/// A rule acts, with the action that overrides have left it.
#[tactic(auto, unfolding(crate::specs::Acting::acted))]
pub(crate) fn act(
    alloc: Global,
    config: &Config,
    place: RulePlace,
    set: &Ruleset,
    rule: &Rule,
    action: Plain,
    state: &mut State,
) -> Result<Outcome, Memory>
    ghost listed: { Listed }
    requires told { AreTold listed config.now }
    requires there { rule_at config.now place ≡ Some rule.now }
    requires suits { ActSuits config.now rule.now.act }
    ensures { IfOk result (Does config.now rule.now (acted listed set.now rule.now action) state.old state.new) }
{
    match action {
        Plain::Block => {
            let kind = VerdictKind::Block(response_of(alloc, set, rule)?);
            Ok(Outcome::Closes(kind, name_of(alloc, set, rule)?))
        }
        Plain::Log => {
            state.noted.push(name_of(alloc, set, rule)?)?;
            Ok(Outcome::Goes)
        }
        Plain::ManagedChallenge | Plain::JsChallenge | Plain::Challenge => {
            let name = name_of(alloc, set, rule)?;
            Ok(Outcome::Closes(VerdictKind::Challenge, name))
        }
        Plain::Other => do_other(alloc, config, place, set, rule, state),
    }
}
