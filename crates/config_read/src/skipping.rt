ghost use Rattle.std.specs.Prelude.{◌≡◌, map, codes, is_some, IfOk};
ghost use Rattle.serde_json.specs.View.{view};
ghost use Rattle.serde_json.specs.Find.{get};
ghost use Rattle.config_read.specs.Refusals.{IsAnswerOf};
ghost use Rattle.config_read.specs.Members.{elements, entries, typed, shown};
ghost use Rattle.config_read.specs.Forms.{current};
ghost use Rattle.config_read.specs.Filters.{skipped_names};
ghost use Rattle.ruleset_model.specs.Acts.{AreInOrder};
ghost use Rattle.config_read.specs.Skipped.{phase_table, phase_at, phases_table, skipped_table, skipped_at, each_skipped_table, typed_phases, typed_skipped, skip_table, skips_at};

use crate::fault::{Cause, ConfigFault};
use crate::members::{
    Entry, array_or_none, each_text, elements_of, entries_or_none, texts_or_none,
};
use crate::names::phase_of;
use crate::places::child;
use crate::refusals::{element_refusal, member_refusal};
use edge_base::{Text, Texts};
use ruleset_model::{Phase, Phases, SkippedRules, Skips};
use serde_json::Value;
use sqlite_items::Items;
use std::alloc::Global;

/// Whether the rest of the ruleset is skipped.
fn current_of(alloc: Global, place: &[u8], value: &Value) -> Result<bool, ConfigFault>
    ensures table { IsAnswerOf result (typed current place.now (codes "ruleset") (view value.now)) }
    ensures value { IfOk result (λ found. found ≡ is_some (get (codes "ruleset") (view value.now))) }
{
    let Some(member) = value.get("ruleset") else {
        return Ok(false);
    };
    if is_current(member) {
        Ok(true)
    } else {
        Err(member_refusal(alloc, place, "ruleset", Cause::Shape))
    }
}

/// Whether a value is the text `current`.
fn is_current(value: &Value) -> bool
    ensures { result ≡ is_some (current (view value.now)) }
{
    match value.as_str() {
        Some(text) => b"current".as_slice() == text.as_bytes(),
        None => false,
    }
}

/// One phase, behind those before it.
fn phase_in(
    alloc: Global,
    place: &[u8],
    earlier: &[Phase],
    value: &Value,
) -> Result<Phase, ConfigFault>
    ensures table { IsAnswerOf result (phase_table place.now earlier.now (view value.now)) }
    ensures value { IfOk result (λ phase. phase ≡ phase_at (view value.now)) }
{
    let Some(name) = value.as_str() else {
        return Err(element_refusal(alloc, place, earlier.len(), Cause::Shape));
    };
    match phase_of(name.as_bytes()) {
        Some(phase) => Ok(phase),
        None => Err(element_refusal(alloc, place, earlier.len(), Cause::UnknownPhase)),
    }
}

fn each_phase(alloc: Global, place: &[u8], values: &[Value]) -> Result<Phases, ConfigFault>
    ensures table { IsAnswerOf result (phases_table place.now (map view values.now)) }
    ensures value { IfOk result (λ phases. phases ≡ map phase_at (map view values.now)) }
{
    let mut phases = Items::new(alloc);
    for value in values {
        phases.push(phase_in(alloc, place, phases.as_slice(), value)?)?;
    }
    Ok(phases)
}

/// The rules of one ruleset that are skipped.
fn skipped_of(
    alloc: Global,
    place: &[u8],
    id: &str,
    value: &Value,
) -> Result<(Text, Texts), ConfigFault>
    ensures table { IsAnswerOf result (skipped_table place.now (id.now, view value.now)) }
    ensures value { IfOk result (λ entry. entry ≡ skipped_at (id.now, view value.now)) }
{
    let Some(values) = elements_of(value) else {
        return Err(member_refusal(alloc, place, id, Cause::Shape));
    };
    let rules = each_text(alloc, child(alloc, place, id.as_bytes())?.bytes(), values)?;
    Ok((Text::of(alloc, id.as_bytes())?, rules))
}

/// The rules of each ruleset that are skipped.
fn each_skipped(alloc: Global, place: &[u8], entries: &[Entry]) -> Result<SkippedRules, ConfigFault>
    ensures table { IsAnswerOf result (each_skipped_table place.now (map shown entries.now)) }
    ensures value { IfOk result (λ rules. rules ≡ map skipped_at (map shown entries.now)) }
{
    let mut rules = Items::new(alloc);
    for entry in entries {
        rules.push(skipped_of(alloc, place, entry.0, entry.1)?)?;
    }
    Ok(rules)
}

/// The phases that are skipped.
fn phases_in(alloc: Global, place: &[u8], value: &Value) -> Result<Phases, ConfigFault>
    ensures table { IsAnswerOf result (typed_phases place.now (view value.now)) }
    ensures value { IfOk result (λ phases. phases ≡ map phase_at (elements (codes "phases") (view value.now))) }
{
    let values = array_or_none(alloc, place, "phases", value)?;
    each_phase(alloc, child(alloc, place, b"phases")?.bytes(), values)
}

/// The single rules that are skipped, in byte order of the rulesets' ids.
#[tactic(auto, using(crate::proofs::MemberLemmas::rules_ordered))]
fn skipped_in(alloc: Global, place: &[u8], value: &Value) -> Result<SkippedRules, ConfigFault>
    ensures table { IsAnswerOf result (typed_skipped place.now (view value.now)) }
    ensures value { IfOk result (λ rules. rules ≡ map skipped_at (entries (codes "rules") (view value.now))) }
    ensures ordered { IfOk result (λ rules. AreInOrder (skipped_names rules)) }
{
    let entries = entries_or_none(alloc, place, "rules", value)?;
    each_skipped(
        alloc,
        child(alloc, place, b"rules")?.bytes(),
        entries.as_slice(),
    )
}

/// What is passed over, by the parameters of a `skip`.
#[tactic(auto, unfolding(crate::specs::Skipped::skip_table, crate::specs::Skipped::skips_at))]
pub(crate) fn skips_of(alloc: Global, place: &[u8], value: &Value) -> Result<Skips, ConfigFault>
    ensures table { IsAnswerOf result (skip_table place.now (view value.now)) }
    ensures value { IfOk result (λ made. made ≡ skips_at (view value.now)) }
    ensures ordered { IfOk result (λ made. AreInOrder (skipped_names made.rules)) }
{
    let current = current_of(alloc, place, value)?;
    let phases = phases_in(alloc, place, value)?;
    let rulesets = texts_or_none(alloc, place, "rulesets", value)?;
    let rules = skipped_in(alloc, place, value)?;
    Ok(Skips {
        current,
        phases,
        rulesets,
        rules,
    })
}
