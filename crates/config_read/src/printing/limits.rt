//! Limits as they are printed.
ghost use Rattle.std.specs.Prelude.{◌≡◌, IfOk};
ghost use Rattle.serde_json.specs.View.{view};
ghost use Rattle.config_read.specs.Printed.{counting_text, sources_of, printed_texts, printed_limit};

use crate::printing::values::text_value;
use edge_base::Memory;
use ruleset_model::{Characteristic, Counting, Limit};
use serde_json::{Map, Value, put};
use std::alloc::Global;

/// The array of the texts of characteristics.
#[tactic(auto, using(crate::proofs::PrintLemmas::building))]
fn sources_value(alloc: Global, characteristics: &[Characteristic]) -> Result<Value, Memory>
    ensures { IfOk result (λ v. view v ≡ printed_texts (sources_of characteristics.now)) }
{
    let mut values = Vec::new(alloc);
    for one in characteristics {
        values.push(text_value(alloc, one.source.bytes())?)?;
    }
    Ok(Value::Array(values))
}

/// The text of a counting expression, empty for none.
fn counting_text(counting: &Option<Counting>) -> &[u8]
    ensures { result.now ≡ counting_text counting.now }
{
    match counting {
        Some(counting) => counting.source.bytes(),
        None => b"",
    }
}

/// The member `ratelimit`.
#[tactic(auto, using(crate::proofs::PrintLemmas::building), unfolding(crate::specs::Printed::printed_limit))]
pub(crate) fn limit_value(alloc: Global, limit: &Limit) -> Result<Value, Memory>
    ensures { IfOk result (λ v. view v ≡ printed_limit limit.now) }
{
    let characteristics = sources_value(alloc, limit.characteristics.as_slice())?;
    let counting = text_value(alloc, counting_text(&limit.counting))?;
    let mut map = Map::new(alloc);
    put(
        &mut map,
        alloc,
        "requests_per_period",
        Value::from(limit.threshold),
    )?;
    put(&mut map, alloc, "period", Value::from(limit.period / 1000))?;
    put(
        &mut map,
        alloc,
        "mitigation_timeout",
        Value::from(limit.timeout / 1000),
    )?;
    put(&mut map, alloc, "counting_expression", counting)?;
    put(&mut map, alloc, "characteristics", characteristics)?;
    Ok(Value::Object(map))
}
