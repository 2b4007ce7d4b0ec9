//! Rules as they are printed.
ghost use Rattle.std.specs.Prelude.{◌≡◌, map, option_map, IfOk, OnOk};
ghost use Rattle.serde_json.specs.Data.{array, object, no_members};
ghost use Rattle.serde_json.specs.View.{view, items_of, members_view};
ghost use Rattle.ruleset_model.specs.declared.verdict.Response.{Response};
ghost use Rattle.config_read.specs.Printed.{act_name, printed_response, response_member, printed_parameters, printed_limit, rule_members, printed_rule};

use crate::printing::executions::{execution_value, plain_name};
use crate::printing::limits::limit_value;
use crate::printing::rewrites::{redirect_value, rewrite_value};
use crate::printing::skips::skips_value;
use crate::printing::values::{put_some, text_value, texts_value};
use edge_base::Memory;
use ruleset_model::{Act, Limit, Response, Rule, Ruleset};
use serde_json::{Map, Value, put};
use std::alloc::Global;

/// The name of what a rule does.
fn act_name(act: &Act) -> &'static [u8]
    ensures { result.now ≡ act_name act.now }
{
    match act {
        Act::Block(_) => b"block",
        Act::Challenge(plain) => plain_name(*plain),
        Act::Log => b"log",
        Act::Skip(_) => b"skip",
        Act::Execute(_, _) => b"execute",
        Act::Rewrite(_) => b"rewrite",
        Act::Redirect(_) => b"redirect",
    }
}

#[tactic(auto, using(crate::proofs::PrintLemmas::building))]
fn response_value(alloc: Global, response: &Response) -> Result<Value, Memory>
    ensures { IfOk result (λ v. view v ≡ printed_response response.now) }
{
    let content = text_value(alloc, response.content.bytes())?;
    let content_type = text_value(alloc, response.content_type.bytes())?;
    let mut map = Map::new(alloc);
    put(
        &mut map,
        alloc,
        "status_code",
        Value::from(response.status_code),
    )?;
    put(&mut map, alloc, "content_type", content_type)?;
    put(&mut map, alloc, "content", content)?;
    Ok(Value::Object(map))
}

/// The parameters of a block, where it has a response of its own.
#[tactic(auto, using(crate::proofs::PrintLemmas::building))]
fn block_value(alloc: Global, response: &Response) -> Result<Value, Memory>
    ensures { IfOk result (λ v. view v ≡ response_member response.now) }
{
    let response = response_value(alloc, response)?;
    let mut map = Map::new(alloc);
    put(&mut map, alloc, "response", response)?;
    Ok(Value::Object(map))
}

/// The parameters of an action that has some.
fn parameters_value(alloc: Global, sets: &[Ruleset], act: &Act) -> Result<Option<Value>, Memory>
    ensures { IfOk result (λ v. option_map view v ≡ printed_parameters sets.now act.now) }
{
    match act {
        Act::Block(Some(response)) => Ok(Some(block_value(alloc, response)?)),
        Act::Skip(skips) => Ok(Some(skips_value(alloc, skips)?)),
        Act::Execute(place, overrides) => Ok(Some(execution_value(
            alloc, sets, *place, overrides,
        )?)),
        Act::Rewrite(rewrite) => Ok(Some(rewrite_value(alloc, rewrite)?)),
        Act::Redirect(redirect) => Ok(Some(redirect_value(alloc, redirect)?)),
        Act::Block(None) | Act::Challenge(_) | Act::Log => Ok(None),
    }
}

fn limit_part(alloc: Global, limit: &Option<Limit>) -> Result<Option<Value>, Memory>
    ensures { IfOk result (λ v. option_map view v ≡ option_map printed_limit limit.now) }
{
    match limit {
        Some(limit) => Ok(Some(limit_value(alloc, limit)?)),
        None => Ok(None),
    }
}

/// What each rule has, as the members of an object.
#[tactic(auto, using(crate::proofs::PrintLemmas::building))]
fn members_of(alloc: Global, rule: &Rule) -> Result<Map<String, Value>, Memory>
    ensures { IfOk result (λ map. members_view map.entries ≡ rule_members rule.now) }
{
    let label = text_value(alloc, rule.label.bytes())?;
    let id = text_value(alloc, rule.id.bytes())?;
    let source = text_value(alloc, rule.source.bytes())?;
    let description = text_value(alloc, rule.description.bytes())?;
    let tags = texts_value(alloc, rule.tags.as_slice())?;
    let action = text_value(alloc, act_name(&rule.act))?;
    let mut map = Map::new(alloc);
    put(&mut map, alloc, "ref", label)?;
    put(&mut map, alloc, "id", id)?;
    put(&mut map, alloc, "expression", source)?;
    put(&mut map, alloc, "enabled", Value::Bool(rule.enabled))?;
    put(&mut map, alloc, "description", description)?;
    put(&mut map, alloc, "categories", tags)?;
    put(&mut map, alloc, "action", action)?;
    Ok(map)
}

#[tactic(auto, using(crate::proofs::PrintLemmas::building), unfolding(crate::specs::Printed::printed_rule))]
fn rule_value(alloc: Global, sets: &[Ruleset], rule: &Rule) -> Result<Value, Memory>
    ensures { IfOk result (λ v. view v ≡ printed_rule sets.now rule.now) }
{
    let parameters = parameters_value(alloc, sets, &rule.act)?;
    let limit = limit_part(alloc, &rule.limit)?;
    let mut map = members_of(alloc, rule)?;
    put_some(&mut map, alloc, "ratelimit", limit)?;
    put_some(&mut map, alloc, "action_parameters", parameters)?;
    Ok(Value::Object(map))
}

/// The array of the rules of a ruleset.
#[tactic(auto, using(crate::proofs::PrintLemmas::building))]
pub(crate) fn rules_value(alloc: Global, sets: &[Ruleset], rules: &[Rule]) -> Result<Value, Memory>
    ensures { IfOk result (λ v. view v ≡ array (items_of (map (printed_rule sets.now) rules.now))) }
{
    let mut values = Vec::new(alloc);
    for rule in rules {
        values.push(rule_value(alloc, sets, rule)?)?;
    }
    Ok(Value::Array(values))
}
