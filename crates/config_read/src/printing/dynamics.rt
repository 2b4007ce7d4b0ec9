//! Dynamic values as they are printed.
ghost use Rattle.std.specs.Prelude.{◌≡◌, option_map, IfOk};
ghost use Rattle.serde_json.specs.View.{view};
ghost use Rattle.config_read.specs.Printed.{printed_dynamic};

use crate::printing::values::text_value;
use edge_base::Memory;
use ruleset_model::Dynamic;
use serde_json::{Map, Value, put};
use std::alloc::Global;

/// The object of a dynamic value.
#[tactic(auto, using(crate::proofs::PrintLemmas::building))]
pub(crate) fn dynamic_value(alloc: Global, dynamic: &Dynamic) -> Result<Value, Memory>
    ensures { IfOk result (λ v. view v ≡ printed_dynamic dynamic.now) }
{
    let mut map = Map::new(alloc);
    match dynamic {
        Dynamic::Fixed(text) => {
            put(&mut map, alloc, "value", text_value(alloc, text.bytes())?)?;
            Ok(Value::Object(map))
        }
        Dynamic::Computed { source, .. } => {
            put(
                &mut map,
                alloc,
                "expression",
                text_value(alloc, source.bytes())?,
            )?;
            Ok(Value::Object(map))
        }
    }
}

/// The same of one that may be absent.
pub(crate) fn part_value(alloc: Global, part: &Option<Dynamic>) -> Result<Option<Value>, Memory>
    ensures { IfOk result (λ v. option_map view v ≡ option_map printed_dynamic part.now) }
{
    match part {
        Some(dynamic) => Ok(Some(dynamic_value(alloc, dynamic)?)),
        None => Ok(None),
    }
}
