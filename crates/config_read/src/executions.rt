ghost use Rattle.std.specs.Prelude.{◌≡◌, ◌<◌, map, length, codes, IfOk};
ghost use Rattle.serde_json.specs.View.{view};
ghost use Rattle.config_read.specs.Sets.{data_of};
ghost use Rattle.config_read.specs.Refusals.{IsAnswerOf};
ghost use Rattle.config_read.specs.Members.{elements, member};
ghost use Rattle.config_read.specs.Executions.{is_executable, override_action_table, override_table, override_at, entry_table, entry_at, each_entry_table, entries_table, overrides_table, overrides_at, meant_table, executed_at, typed_overrides, execute_table, override_action_at, execution_parts};

use crate::fault::{Cause, ConfigFault};
use crate::members::{
    an_object, array_or_none, needed_text, object_if_there, text, truth_if_there,
};
use crate::names::{kind_name, override_of, phase_name};
use crate::places::{child, nth};
use crate::refusals::member_refusal;
use crate::sets::{Sets, position_of};
use edge_base::Text;
use override_plan::{NamedOverrides, Override, Overrides, Plain};
use ruleset_model::{Phase, RulesetKind};
use serde_json::Value;
use sqlite_items::Items;
use std::alloc::Global;

/// The action that an override gives, if it gives one.
fn override_action(alloc: Global, place: &[u8], value: &Value) -> Result<Option<Plain>, ConfigFault>
    ensures table { IsAnswerOf result (override_action_table place.now (view value.now)) }
    ensures value { IfOk result (λ given. given ≡ override_action_at (view value.now)) }
{
    let Some(member) = value.get("action") else {
        return Ok(None);
    };
    let Some(text) = member.as_str() else {
        return Err(member_refusal(alloc, place, "action", Cause::Shape));
    };
    match override_of(text.as_bytes()) {
        Some(action) => Ok(Some(action)),
        None => Err(member_refusal(alloc, place, "action", Cause::UnknownAction)),
    }
}

/// What an object says of the rules that it is for.
#[tactic(auto, using(crate::specs::Executions::override_given), unfolding(crate::specs::Executions::override_table))]
fn override_in(alloc: Global, place: &[u8], value: &Value) -> Result<Override, ConfigFault>
    ensures table { IsAnswerOf result (override_table place.now (view value.now)) }
    ensures value { IfOk result (λ said. said ≡ override_at (view value.now)) }
{
    let enabled = truth_if_there(alloc, place, "enabled", value)?;
    let action = override_action(alloc, place, value)?;
    Ok(Override { enabled, action })
}

/// One entry of overrides, behind those before it.
#[tactic(auto, unfolding(crate::specs::Executions::entry_table))]
fn entry_of(
    alloc: Global,
    name: &str,
    place: &[u8],
    earlier: &[(Text, Override)],
    value: &Value,
) -> Result<(Text, Override), ConfigFault>
    ensures table { IsAnswerOf result (entry_table name.now place.now earlier.now (view value.now)) }
    ensures value { IfOk result (λ entry. entry ≡ entry_at name.now (view value.now)) }
{
    let place = nth(alloc, place, earlier.len())?;
    let place = place.bytes();
    an_object(alloc, place, value)?;
    let meant = needed_text(alloc, place, name, value)?;
    let said = override_in(alloc, place, value)?;
    Ok((Text::of(alloc, meant)?, said))
}

fn each_entry(
    alloc: Global,
    name: &str,
    place: &[u8],
    values: &[Value],
) -> Result<NamedOverrides, ConfigFault>
    ensures table { IsAnswerOf result (each_entry_table name.now place.now (map view values.now)) }
    ensures value { IfOk result (λ entries. entries ≡ map (entry_at name.now) (map view values.now)) }
{
    let mut entries = Items::new(alloc);
    for value in values {
        entries.push(entry_of(alloc, name, place, entries.as_slice(), value)?)?;
    }
    Ok(entries)
}

/// The entries of a member, each for the rules that its own member of this name tells.
fn entries_of(
    alloc: Global,
    name: &str,
    place: &[u8],
    member: &str,
    value: &Value,
) -> Result<NamedOverrides, ConfigFault>
    ensures table { IsAnswerOf result (entries_table name.now place.now member.now (view value.now)) }
    ensures value { IfOk result (λ entries. entries ≡ map (entry_at name.now) (elements member.now (view value.now))) }
{
    let values = array_or_none(alloc, place, member, value)?;
    each_entry(
        alloc,
        name,
        child(alloc, place, member.as_bytes())?.bytes(),
        values,
    )
}

/// The overrides of an object.
#[tactic(auto, unfolding(crate::specs::Executions::overrides_table, crate::specs::Executions::overrides_at))]
fn overrides_of(alloc: Global, place: &[u8], value: &Value) -> Result<Overrides, ConfigFault>
    ensures table { IsAnswerOf result (overrides_table place.now (view value.now)) }
    ensures value { IfOk result (λ made. made ≡ overrides_at (view value.now)) }
{
    let whole = override_in(alloc, place, value)?;
    let tags = entries_of(alloc, "category", place, "categories", value)?;
    let rules = entries_of(alloc, "id", place, "rules", value)?;
    Ok(Overrides { whole, tags, rules })
}

/// Whether rules of the phase may execute the ruleset.
fn is_executable(phase: Phase, set: &Value) -> bool
    ensures { result ≡ is_executable phase (view set.now) }
{
    text(set, "kind") != kind_name(RulesetKind::Zone) && text(set, "phase") == phase_name(phase)
}

/// The place of the ruleset that is meant, which rules of the phase may execute.
fn meant_of(
    alloc: Global,
    all: &Sets,
    phase: Phase,
    place: &[u8],
    value: &Value,
) -> Result<usize, ConfigFault>
    ensures table { IsAnswerOf result (meant_table (data_of all.now) phase place.now (view value.now)) }
    ensures value { IfOk result (λ at. at ≡ executed_at (data_of all.now) (view value.now)) }
    ensures within { IfOk result (λ at. at < length all.now.values.now) }
{
    let id = needed_text(alloc, place, "id", value)?;
    let Some(at) = position_of(all, id) else {
        return Err(member_refusal(alloc, place, "id", Cause::UnknownRuleset));
    };
    if !is_executable(phase, &all.values[at]) {
        return Err(member_refusal(alloc, place, "id", Cause::ActionPlace));
    }
    Ok(at)
}

/// The overrides of a member, by default none.
fn overrides_in(alloc: Global, place: &[u8], value: &Value) -> Result<Overrides, ConfigFault>
    ensures table { IsAnswerOf result (typed_overrides place.now (view value.now)) }
    ensures value { IfOk result (λ made. made ≡ overrides_at (member (codes "overrides") (view value.now))) }
{
    let overrides = object_if_there(alloc, place, "overrides", value)?;
    let place = child(alloc, place, b"overrides")?;
    match overrides {
        Some(overrides) => Ok(overrides_of(alloc, place.bytes(), overrides)?),
        None => Ok(overrides_of(alloc, place.bytes(), &Value::Null)?),
    }
}

/// The ruleset that the parameters of an `execute` mean, and the overrides of its rules.
#[tactic(auto, unfolding(crate::specs::Executions::execute_table))]
pub(crate) fn execution_of(
    alloc: Global,
    all: &Sets,
    phase: Phase,
    place: &[u8],
    value: &Value,
) -> Result<(u32, Overrides), ConfigFault>
    ensures table { IsAnswerOf result (execute_table (data_of all.now) phase place.now (view value.now)) }
    ensures value { IfOk result (λ made. made ≡ execution_parts (data_of all.now) (view value.now)) }
{
    let at = meant_of(alloc, all, phase, place, value)?;
    let overrides = overrides_in(alloc, place, value)?;
    Ok((at as u32, overrides))
}
