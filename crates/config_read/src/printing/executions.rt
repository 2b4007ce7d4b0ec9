//! Executions as they are printed.
ghost use Rattle.std.specs.Prelude.{◌≡◌, map, option_map, IfOk, OnOk};
ghost use Rattle.serde_json.specs.Data.{array, boolean, string};
ghost use Rattle.serde_json.specs.View.{view, items_of, members_view};
ghost use Rattle.config_read.specs.Printed.{put_override, plain_name, printed_entry, printed_overrides, id_at, printed_execution};

use crate::printing::values::{put_some, text_value};
use edge_base::{Memory, Text};
use override_plan::{Override, Overrides, Plain};
use ruleset_model::Ruleset;
use serde_json::{Map, Value, put};
use std::alloc::Global;

/// The name of an action that an override may give.
pub(crate) fn plain_name(plain: Plain) -> &'static [u8]
    ensures { result.now ≡ plain_name plain }
{
    match plain {
        Plain::Block => b"block",
        Plain::Log => b"log",
        Plain::ManagedChallenge => b"managed_challenge",
        Plain::JsChallenge => b"js_challenge",
        Plain::Challenge => b"challenge",
        Plain::Other => b"",
    }
}

fn action_value(alloc: Global, action: Option<Plain>) -> Result<Option<Value>, Memory>
    ensures { IfOk result (λ v. option_map view v ≡ option_map (λ given. string (plain_name given)) action) }
{
    match action {
        Some(plain) => Ok(Some(text_value(alloc, plain_name(plain))?)),
        None => Ok(None),
    }
}

fn enabled_value(enabled: Option<bool>) -> Option<Value>
    ensures { option_map view result ≡ option_map boolean enabled }
{
    match enabled {
        Some(enabled) => Some(Value::Bool(enabled)),
        None => None,
    }
}

/// Puts what an override says.
fn put_override(map: &mut Map<String, Value>, alloc: Global, said: &Override) -> Result<(), Memory>
    ensures { OnOk result (members_view map.new.entries ≡ put_override said.now (members_view map.old.entries)) }
{
    let action = action_value(alloc, said.action)?;
    put_some(map, alloc, "action", action)?;
    put_some(map, alloc, "enabled", enabled_value(said.enabled))
}

/// An override with what it is for, by the name of the member that tells.
#[tactic(auto, using(crate::proofs::PrintLemmas::building), unfolding(crate::specs::Printed::printed_entry))]
fn entry_value(alloc: Global, name: &str, of: &Text, said: &Override) -> Result<Value, Memory>
    ensures { IfOk result (λ v. view v ≡ printed_entry name.now (of.now, said.now)) }
{
    let of = text_value(alloc, of.bytes())?;
    let mut map = Map::new(alloc);
    put(&mut map, alloc, name, of)?;
    put_override(&mut map, alloc, said)?;
    Ok(Value::Object(map))
}

#[tactic(auto, using(crate::proofs::PrintLemmas::building))]
fn entries_value(alloc: Global, name: &str, entries: &[(Text, Override)]) -> Result<Value, Memory>
    ensures { IfOk result (λ v. view v ≡ array (items_of (map (printed_entry name.now) entries.now))) }
{
    let mut values = Vec::new(alloc);
    for (of, said) in entries {
        values.push(entry_value(alloc, name, of, said)?)?;
    }
    Ok(Value::Array(values))
}

#[tactic(auto, using(crate::proofs::PrintLemmas::building), unfolding(crate::specs::Printed::printed_overrides))]
fn overrides_value(alloc: Global, overrides: &Overrides) -> Result<Value, Memory>
    ensures { IfOk result (λ v. view v ≡ printed_overrides overrides.now) }
{
    let rules = entries_value(alloc, "id", overrides.rules.as_slice())?;
    let tags = entries_value(alloc, "category", overrides.tags.as_slice())?;
    let mut map = Map::new(alloc);
    put(&mut map, alloc, "rules", rules)?;
    put(&mut map, alloc, "categories", tags)?;
    put_override(&mut map, alloc, &overrides.whole)?;
    Ok(Value::Object(map))
}

/// The id of the ruleset at a place.
fn id_at(sets: &[Ruleset], place: u32) -> &[u8]
    ensures { result.now ≡ id_at sets.now place }
{
    match sets.get(place as usize) {
        Some(set) => set.id.bytes(),
        None => b"",
    }
}

/// The parameters of an execution of the ruleset at a place.
#[tactic(auto, using(crate::proofs::PrintLemmas::building))]
pub(crate) fn execution_value(
    alloc: Global,
    sets: &[Ruleset],
    place: u32,
    overrides: &Overrides,
) -> Result<Value, Memory>
    ensures { IfOk result (λ v. view v ≡ printed_execution sets.now place overrides.now) }
{
    let overrides = overrides_value(alloc, overrides)?;
    let id = text_value(alloc, id_at(sets, place))?;
    let mut map = Map::new(alloc);
    put(&mut map, alloc, "overrides", overrides)?;
    put(&mut map, alloc, "id", id)?;
    Ok(Value::Object(map))
}
