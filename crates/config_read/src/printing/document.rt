//! A whole configuration as it is printed.
ghost use Rattle.std.specs.Prelude.{◌≡◌, map, IfOk, OnOk};
ghost use Rattle.ruleset_model.specs.Valid.{IsValid};
ghost use Rattle.serde_json.specs.Data.{array};
ghost use Rattle.serde_json.specs.View.{view, items_of};
ghost use Rattle.config_read.specs.Names.{kind_name};
ghost use Rattle.config_read.specs.Printed.{printed_set, printed};
ghost use Rattle.config_read.specs.Prints.{IsPrintOf};

use crate::printing::lists::lists_value;
use crate::printing::rules::rules_value;
use crate::printing::skips::phase_value;
use crate::printing::values::text_value;
use edge_base::{Memory, Text};
use ruleset_model::{Config, Ruleset, RulesetKind};
use serde_json::{Map, Value, put};
use std::alloc::Global;

/// The name of a ruleset's kind.
fn kind_name(kind: RulesetKind) -> &'static [u8]
    ensures { result.now ≡ kind_name kind }
{
    match kind {
        RulesetKind::Managed => b"managed",
        RulesetKind::Custom => b"custom",
        RulesetKind::Zone => b"zone",
    }
}

#[tactic(auto, using(crate::proofs::PrintLemmas::building), unfolding(crate::specs::Printed::printed_set))]
fn set_value(alloc: Global, sets: &[Ruleset], set: &Ruleset) -> Result<Value, Memory>
    ensures { IfOk result (λ v. view v ≡ printed_set sets.now set.now) }
{
    let rules = rules_value(alloc, sets, set.rules.as_slice())?;
    let phase = phase_value(alloc, set.phase)?;
    let name = text_value(alloc, set.name.bytes())?;
    let kind = text_value(alloc, kind_name(set.kind))?;
    let id = text_value(alloc, set.id.bytes())?;
    let mut map = Map::new(alloc);
    put(&mut map, alloc, "rules", rules)?;
    put(&mut map, alloc, "phase", phase)?;
    put(&mut map, alloc, "name", name)?;
    put(&mut map, alloc, "kind", kind)?;
    put(&mut map, alloc, "id", id)?;
    Ok(Value::Object(map))
}

/// The array of the rulesets.
#[tactic(auto, using(crate::proofs::PrintLemmas::building))]
fn sets_value(alloc: Global, sets: &[Ruleset]) -> Result<Value, Memory>
    ensures { IfOk result (λ v. view v ≡ array (items_of (map (printed_set sets.now) sets.now))) }
{
    let mut values = Vec::new(alloc);
    for set in sets {
        values.push(set_value(alloc, sets, set)?)?;
    }
    Ok(Value::Array(values))
}

#[tactic(auto, using(crate::proofs::PrintLemmas::building), unfolding(crate::specs::Printed::printed))]
fn config_value(alloc: Global, config: &Config) -> Result<Value, Memory>
    ensures ok { IfOk result (λ v. view v ≡ printed config.now) }
    ensures valid { OnOk result (IsValid config.now.lists config.now.rulesets) }
{
    let lists = lists_value(alloc, config.lists().parts())?;
    let rulesets = sets_value(alloc, config.rulesets())?;
    let mut map = Map::new(alloc);
    put(&mut map, alloc, "rulesets", rulesets)?;
    put(&mut map, alloc, "lists", lists)?;
    Ok(Value::Object(map))
}

/// The configuration as JSON: nothing of it is refused, and it is read as the configuration.
#[tactic(auto, using(crate::proofs::PrintedText::text_of_print))]
pub fn print_config(alloc: Global, config: &Config) -> Result<Text, Memory>
    ensures { IfOk result (λ text. IsPrintOf text config.now) }
{
    let value = config_value(alloc, config)?;
    Ok(Text::from_vec(value.to_vec(alloc)?))
}
