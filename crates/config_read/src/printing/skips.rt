//! Skips as they are printed.
ghost use Rattle.std.specs.Prelude.{◌≡◌, map, option_map, IfOk};
ghost use Rattle.serde_json.specs.Data.{array, object, no_members};
ghost use Rattle.serde_json.specs.View.{view, items_of};
ghost use Rattle.config_read.specs.Names.{phase_name};
ghost use Rattle.config_read.specs.Printed.{put_all, current_of, printed_phase, printed_skipped, printed_skips};

use crate::printing::values::{put_named, put_some, text_value, texts_value};
use edge_base::{Memory, Text, Texts};
use ruleset_model::{Phase, Skips};
use serde_json::{Map, Value, put};
use std::alloc::Global;

/// The name of a phase.
fn phase_name(phase: Phase) -> &'static [u8]
    ensures { result.now ≡ phase_name phase }
{
    match phase {
        Phase::DynamicRedirect => b"http_request_dynamic_redirect",
        Phase::Transform => b"http_request_transform",
        Phase::FirewallCustom => b"http_request_firewall_custom",
        Phase::RateLimit => b"http_ratelimit",
        Phase::FirewallManaged => b"http_request_firewall_managed",
        Phase::LateTransform => b"http_request_late_transform",
        Phase::ResponseTransform => b"http_response_headers_transform",
    }
}

pub(crate) fn phase_value(alloc: Global, phase: Phase) -> Result<Value, Memory>
    ensures { IfOk result (λ v. view v ≡ printed_phase phase) }
{
    text_value(alloc, phase_name(phase))
}

#[tactic(auto, using(crate::proofs::PrintLemmas::building))]
fn phases_value(alloc: Global, phases: &[Phase]) -> Result<Value, Memory>
    ensures { IfOk result (λ v. view v ≡ array (items_of (map printed_phase phases.now))) }
{
    let mut values = Vec::new(alloc);
    for phase in phases {
        values.push(phase_value(alloc, *phase)?)?;
    }
    Ok(Value::Array(values))
}

/// The object of single rules, by the ids of their rulesets.
#[tactic(auto, using(crate::proofs::PrintLemmas::building))]
fn rules_value(alloc: Global, rules: &[(Text, Texts)]) -> Result<Value, Memory>
    ensures { IfOk result (λ v. view v ≡ object (put_all no_members (map printed_skipped rules.now))) }
{
    let mut map = Map::new(alloc);
    for (set_id, ids) in rules {
        let ids = texts_value(alloc, ids.as_slice())?;
        put_named(&mut map, alloc, set_id.bytes(), ids)?;
    }
    Ok(Value::Object(map))
}

fn current_value(alloc: Global, current: bool) -> Result<Option<Value>, Memory>
    ensures { IfOk result (λ v. option_map view v ≡ current_of current) }
{
    if current {
        Ok(Some(text_value(alloc, b"current")?))
    } else {
        Ok(None)
    }
}

/// The parameters of a skip.
#[tactic(auto, using(crate::proofs::PrintLemmas::building), unfolding(crate::specs::Printed::printed_skips))]
pub(crate) fn skips_value(alloc: Global, skips: &Skips) -> Result<Value, Memory>
    ensures { IfOk result (λ v. view v ≡ printed_skips skips.now) }
{
    let rulesets = texts_value(alloc, skips.rulesets.as_slice())?;
    let rules = rules_value(alloc, skips.rules.as_slice())?;
    let phases = phases_value(alloc, skips.phases.as_slice())?;
    let current = current_value(alloc, skips.current)?;
    let mut map = Map::new(alloc);
    put(&mut map, alloc, "rulesets", rulesets)?;
    put(&mut map, alloc, "rules", rules)?;
    put(&mut map, alloc, "phases", phases)?;
    put_some(&mut map, alloc, "ruleset", current)?;
    Ok(Value::Object(map))
}
