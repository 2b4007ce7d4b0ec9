ghost use Rattle.std.specs.Prelude.{◌≡◌, IfOk};
ghost use Rattle.serde_json.specs.View.{view};
ghost use Rattle.ruleset_model.specs.declared.phase.Phase.{Phase};
ghost use Rattle.ruleset_model.specs.Data.{act_data, blocks, challenges, skips, rewrites, redirects};
ghost use Rattle.config_read.specs.Sets.{data_of};
ghost use Rattle.config_read.specs.Refusals.{IsAnswerOf};
ghost use Rattle.config_read.specs.Judged.{judged};
ghost use Rattle.config_read.specs.Filters.{Lists, IsActBuilt};
ghost use Rattle.config_read.specs.Blocks.{block_table, block_at};
ghost use Rattle.config_read.specs.Skipped.{skip_table, skips_at};
ghost use Rattle.config_read.specs.Rewrites.{rewrite_at, redirect_at};
ghost use Rattle.config_read.specs.Parameters.{needed_parameters, optional_parameters, unread, parameters, execution_at, executions_table, rewrites_table, redirects_table, act_of_rule};
ghost use Rattle.config_read.specs.Here.{parameters_here};

use crate::action::Action;
use crate::blocks::block_of;
use crate::executions::execution_of;
use crate::fault::ConfigFault;
use crate::members::{needed_object, object_if_there};
use crate::places::child;
use crate::rewrites::{redirect_of, rewrite_of};
use crate::sets::Sets;
use crate::skipping::skips_of;
use edge_fields::Scheme;
use override_plan::Plain;
use ruleset_model::{Act, Phase};
use serde_json::Value;
use std::alloc::Global;

#[tactic(auto, unfolding(crate::specs::Blocks::block_table, crate::specs::Blocks::response_table))]
fn block(alloc: Global, phase: Phase, place: &[u8], value: &Value) -> Result<Act, ConfigFault>
    ensures table { IsAnswerOf result (optional_parameters block_table place.now (view value.now)) }
    ensures value { IfOk result (λ act. act_data act ≡ blocks (block_at phase (parameters (view value.now)))) }
    ensures built { (lists : Lists) → IfOk result (IsActBuilt lists phase) }
{
    match object_if_there(alloc, place, "action_parameters", value)? {
        Some(held) => {
            let inner = child(alloc, place, b"action_parameters")?;
            Ok(Act::Block(block_of(alloc, phase, inner.bytes(), held)?))
        }
        None => Ok(Act::Block(None)),
    }
}

/// Parameters that aren't read.
fn unread(alloc: Global, place: &[u8], value: &Value) -> Result<(), ConfigFault>
    ensures { IsAnswerOf result (optional_parameters unread place.now (view value.now)) }
{
    object_if_there(alloc, place, "action_parameters", value)?;
    Ok(())
}

fn challenge(alloc: Global, plain: Plain, place: &[u8], value: &Value) -> Result<Act, ConfigFault>
    ensures table { IsAnswerOf result (optional_parameters unread place.now (view value.now)) }
    ensures value { IfOk result (λ act. act_data act ≡ challenges plain) }
    ensures built { (lists : Lists) (phase : Phase) → IfOk result (IsActBuilt lists phase) }
{
    unread(alloc, place, value)?;
    Ok(Act::Challenge(plain))
}

fn skip(alloc: Global, place: &[u8], value: &Value) -> Result<Act, ConfigFault>
    ensures table { IsAnswerOf result (needed_parameters skip_table place.now (view value.now)) }
    ensures value { IfOk result (λ act. act_data act ≡ skips (skips_at (parameters (view value.now)))) }
    ensures built { (lists : Lists) (phase : Phase) → IfOk result (IsActBuilt lists phase) }
{
    let held = needed_object(alloc, place, "action_parameters", value)?;
    let inner = child(alloc, place, b"action_parameters")?;
    Ok(Act::Skip(skips_of(alloc, inner.bytes(), held)?))
}

fn execute(
    alloc: Global,
    all: &Sets,
    phase: Phase,
    place: &[u8],
    value: &Value,
) -> Result<Act, ConfigFault>
    ensures table { IsAnswerOf result (executions_table (data_of all.now) phase place.now (view value.now)) }
    ensures value { IfOk result (λ act. act_data act ≡ execution_at (data_of all.now) (parameters (view value.now))) }
    ensures built { (lists : Lists) → IfOk result (IsActBuilt lists phase) }
{
    let held = needed_object(alloc, place, "action_parameters", value)?;
    let inner = child(alloc, place, b"action_parameters")?;
    let (at, overrides) = execution_of(alloc, all, phase, inner.bytes(), held)?;
    Ok(Act::Execute(at, overrides))
}

fn rewrite(
    alloc: Global,
    scheme: &Scheme,
    phase: Phase,
    place: &[u8],
    value: &Value,
) -> Result<Act, ConfigFault>
    ensures table { IsAnswerOf result (rewrites_table (judged scheme.now) phase place.now (view value.now)) }
    ensures value { IfOk result (λ act. act_data act ≡ rewrites (rewrite_at (parameters (view value.now)))) }
    ensures built { IfOk result (IsActBuilt scheme.now phase) }
{
    let held = needed_object(alloc, place, "action_parameters", value)?;
    let inner = child(alloc, place, b"action_parameters")?;
    Ok(Act::Rewrite(rewrite_of(alloc, scheme, phase, inner.bytes(), held)?))
}

fn redirect(
    alloc: Global,
    scheme: &Scheme,
    phase: Phase,
    place: &[u8],
    value: &Value,
) -> Result<Act, ConfigFault>
    ensures table { IsAnswerOf result (redirects_table (judged scheme.now) phase place.now (view value.now)) }
    ensures value { IfOk result (λ act. act_data act ≡ redirects (redirect_at (parameters (view value.now)))) }
    ensures built { IfOk result (IsActBuilt scheme.now phase) }
{
    let held = needed_object(alloc, place, "action_parameters", value)?;
    let inner = child(alloc, place, b"action_parameters")?;
    Ok(Act::Redirect(redirect_of(alloc, scheme, phase, inner.bytes(), held)?))
}

/// What a rule does, by its action and its parameters. `all` are the rulesets of the document.
pub(crate) fn act_of(
    alloc: Global,
    scheme: &Scheme,
    all: &Sets,
    phase: Phase,
    action: Action,
    place: &[u8],
    value: &Value,
) -> Result<Act, ConfigFault>
    ensures table { IsAnswerOf result (parameters_here scheme.now all.now phase action place.now value.now) }
    ensures value { IfOk result (λ act. act_data act ≡ act_of_rule (data_of all.now) phase action (view value.now)) }
    ensures built { IfOk result (IsActBuilt scheme.now phase) }
{
    match action {
        Action::Block => block(alloc, phase, place, value),
        Action::Skip => skip(alloc, place, value),
        Action::Execute => execute(alloc, all, phase, place, value),
        Action::Rewrite => rewrite(alloc, scheme, phase, place, value),
        Action::Redirect => redirect(alloc, scheme, phase, place, value),
        Action::ManagedChallenge => challenge(alloc, Plain::ManagedChallenge, place, value),
        Action::JsChallenge => challenge(alloc, Plain::JsChallenge, place, value),
        Action::Challenge => challenge(alloc, Plain::Challenge, place, value),
        Action::Log => {
            unread(alloc, place, value)?;
            Ok(Act::Log)
        }
    }
}
