ghost use Rattle.std.specs.Prelude.{◌≡◌, map, length, codes, IfOk};
ghost use Rattle.serde_json.specs.View.{view};
ghost use Rattle.ruleset_model.specs.Data.{set_data, rule_data};
ghost use Rattle.config_read.specs.Sets.{data_of};
ghost use Rattle.config_read.specs.Refusals.{IsAnswerOf};
ghost use Rattle.config_read.specs.Members.{text};
ghost use Rattle.config_read.specs.Judged.{judged};
ghost use Rattle.config_read.specs.Ids.{AreSetIdsOf};
ghost use Rattle.config_read.specs.RulesetsOf.{has_ruleset, has_own_entry, has_entry, kind_table, phase_table, set_head_table, kind_at, set_phase_at, rules_of, ruleset_at, has_many_rules, rulesets_table, rulesets_at, rules_under};
ghost use Rattle.config_read.specs.Here.{rules_under_here, ruleset_here, rulesets_here};
ghost use Rattle.config_read.specs.Filters.{AreRulesBuilt, IsRulesetBuilt, AreRulesetsBuilt};

use crate::fault::{Cause, ConfigFault};
use crate::heads::id_of;
use crate::ids::{Ids, is_kept, keep};
use crate::members::{an_object, array_or_none, elements_of, needed_text, text, text_or};
use crate::names::{kind_of, phase_of};
use crate::places::{child, nth};
use crate::refusals::{member_refusal, refuse};
use crate::rules::each_rule;
use crate::sets::{Sets, sets_of};
use edge_base::Text;
use edge_fields::Scheme;
use ruleset_model::{Phase, Rules, Ruleset, RulesetKind, Rulesets};
use serde_json::Value;
use sqlite_items::Items;
use std::alloc::Global;
use std::collections::BTreeMap;

/// The most rulesets.
const MAX_RULESETS: usize = 256;

/// The most rules of a ruleset.
const MAX_RULES: usize = 1_000;

/// The most rules in all.
const MAX_IN_ALL: usize = 10_000;

/// What comes before the rules of a ruleset.
#[derive(Drop)]
struct SetHead {
    id: Text,
    name: Text,
    kind: RulesetKind,
    phase: Phase,
}

/// The rulesets before another, with their ids.
#[derive(Drop)]
struct SetsBefore<'a, 'v> {
    sets: &'a [Ruleset],
    ids: &'a Ids<'v>,
    ghost same: { AreSetIdsOf ids.now (map set_data sets.now) },
}

/// Whether one of the rulesets has the id.
fn has_ruleset(earlier: &SetsBefore, id: &[u8]) -> bool
    ensures { result ≡ has_ruleset (map set_data earlier.now.sets.now) id.now }
{
    is_kept(earlier.ids, id)
}

fn has_own_entry(sets: &[Ruleset], phase: Phase) -> bool
    ensures { result ≡ has_own_entry sets.now phase }
{
    sets.iter()
        .any(|set| set.kind == RulesetKind::Zone && set.phase == phase)
}

/// Whether one of the rulesets is the entry point of the phase.
fn has_entry(sets: &[Ruleset], phase: Phase) -> bool
    ensures { result ≡ has_entry (map set_data sets.now) phase }
{
    has_own_entry(sets, phase)
}

fn kind_in(alloc: Global, place: &[u8], value: &Value) -> Result<RulesetKind, ConfigFault>
    ensures table { IsAnswerOf result (kind_table place.now (view value.now)) }
    ensures value { IfOk result (λ kind. kind ≡ kind_at (view value.now)) }
{
    let name = needed_text(alloc, place, "kind", value)?;
    match kind_of(name) {
        Some(kind) => Ok(kind),
        None => Err(member_refusal(alloc, place, "kind", Cause::UnknownKind)),
    }
}

fn phase_in(alloc: Global, place: &[u8], value: &Value) -> Result<Phase, ConfigFault>
    ensures table { IsAnswerOf result (phase_table place.now (view value.now)) }
    ensures value { IfOk result (λ phase. phase ≡ set_phase_at (view value.now)) }
{
    let name = needed_text(alloc, place, "phase", value)?;
    match phase_of(name) {
        Some(phase) => Ok(phase),
        None => Err(member_refusal(alloc, place, "phase", Cause::UnknownPhase)),
    }
}

/// What comes before the rules of a ruleset, behind the rulesets before it.
#[tactic(auto, unfolding(crate::specs::RulesetsOf::set_head_table))]
fn set_head_of(
    alloc: Global,
    place: &[u8],
    earlier: &SetsBefore,
    value: &Value,
) -> Result<SetHead, ConfigFault>
    ensures table { IsAnswerOf result (set_head_table place.now (map set_data earlier.now.sets.now) (view value.now)) }
    ensures id { IfOk result (λ head. head.id ≡ text (codes "id") (view value.now)) }
    ensures name { IfOk result (λ head. head.name ≡ text (codes "name") (view value.now)) }
    ensures kind { IfOk result (λ head. head.kind ≡ kind_at (view value.now)) }
    ensures phase { IfOk result (λ head. head.phase ≡ set_phase_at (view value.now)) }
{
    an_object(alloc, place, value)?;
    let id = id_of(alloc, place, value)?;
    refuse(
        alloc,
        has_ruleset(earlier, id),
        place,
        "id",
        Cause::DuplicateId,
    )?;
    let name = text_or(alloc, place, "name", value, b"")?;
    let kind = kind_in(alloc, place, value)?;
    let phase = phase_in(alloc, place, value)?;
    let has_other = kind == RulesetKind::Zone && has_entry(earlier.sets, phase);
    refuse(alloc, has_other, place, "phase", Cause::DuplicateEntry)?;
    Ok(SetHead {
        id: Text::of(alloc, id)?,
        name: Text::of(alloc, name)?,
        kind,
        phase,
    })
}

/// The rules of a ruleset of this kind and phase.
fn rules_of(
    alloc: Global,
    scheme: &Scheme,
    all: &Sets,
    kind: RulesetKind,
    phase: Phase,
    place: &[u8],
    value: &Value,
) -> Result<Rules, ConfigFault>
    ensures table { IsAnswerOf result (rules_under_here scheme.now all.now kind phase place.now value.now) }
    ensures value { IfOk result (λ made. map rule_data made ≡ rules_under (data_of all.now) phase (view value.now)) }
    ensures built { IfOk result (AreRulesBuilt scheme.now phase) }
{
    let values = array_or_none(alloc, place, "rules", value)?;
    refuse(
        alloc,
        MAX_RULES < values.len(),
        place,
        "rules",
        Cause::TooMany,
    )?;
    let inner = child(alloc, place, b"rules")?;
    each_rule(alloc, scheme, all, kind, phase, inner.bytes(), values)
}

/// One ruleset, behind those before it. `all` are the rulesets of the document.
#[tactic(auto, unfolding(crate::specs::RulesetsOf::ruleset_table, crate::specs::RulesetsOf::ruleset_at))]
fn ruleset_of(
    alloc: Global,
    scheme: &Scheme,
    all: &Sets,
    rulesets: &[u8],
    earlier: &SetsBefore,
    value: &Value,
) -> Result<Ruleset, ConfigFault>
    ensures table { IsAnswerOf result (ruleset_here scheme.now all.now rulesets.now earlier.now.sets.now value.now) }
    ensures value { IfOk result (λ set. set_data set ≡ ruleset_at (data_of all.now) (view value.now)) }
    ensures built { IfOk result (IsRulesetBuilt scheme.now) }
{
    let place = nth(alloc, rulesets, earlier.sets.len())?;
    let place = place.bytes();
    let SetHead {
        id,
        name,
        kind,
        phase,
    } = set_head_of(alloc, place, earlier, value)?;
    let rules = rules_of(alloc, scheme, all, kind, phase, place, value)?;
    Ok(Ruleset {
        id,
        name,
        kind,
        phase,
        rules,
    })
}

/// The rulesets of a document.
#[tactic(auto, using(crate::proofs::IdLemmas::no_sets))]
fn each_ruleset(
    alloc: Global,
    scheme: &Scheme,
    place: &[u8],
    all: &Sets,
) -> Result<Rulesets, ConfigFault>
    ensures table { IsAnswerOf result (rulesets_here scheme.now all.now place.now) }
    ensures value { IfOk result (λ made. map set_data made ≡ map (ruleset_at (data_of all.now)) (data_of all.now)) }
    ensures built { IfOk result (AreRulesetsBuilt scheme.now) }
{
    let mut sets = Items::new(alloc);
    let mut ids = BTreeMap::new(alloc);
    for value in all.values {
        let earlier = SetsBefore {
            sets: sets.as_slice(),
            ids: &ids,
        };
        let set = ruleset_of(alloc, scheme, all, place, &earlier, value)?;
        keep(&mut ids, text(value, "id"), sets.len())?;
        sets.push(set)?;
    }
    Ok(sets)
}

/// How many rules a ruleset of the document has.
fn count_rules(set: &Value) -> usize
    ensures { result ≡ length (rules_of (view set.now)) }
{
    match set.get("rules") {
        Some(member) => match elements_of(member) {
            Some(values) => values.len(),
            None => 0,
        },
        None => 0,
    }
}

/// Whether the rulesets have more rules than all may have; stops where they have.
fn has_many_rules(all: &[Value]) -> bool
    ensures { result ≡ has_many_rules (map view all.now) }
{
    let mut room = MAX_IN_ALL;
    for set in all {
        let count = count_rules(set);
        if room < count {
            return true;
        }
        room -= count;
    }
    false
}

/// The rulesets of a document, whose expressions may speak of these lists.
#[tactic(auto, unfolding(crate::specs::RulesetsOf::rulesets_table))]
pub(crate) fn rulesets_of(
    alloc: Global,
    scheme: &Scheme,
    document: &Value,
) -> Result<Rulesets, ConfigFault>
    ensures table { IsAnswerOf result (rulesets_table (judged scheme.now) (view document.now)) }
    ensures value { IfOk result (λ sets. map set_data sets ≡ rulesets_at (view document.now)) }
    ensures built { IfOk result (AreRulesetsBuilt scheme.now) }
{
    let all = array_or_none(alloc, b"", "rulesets", document)?;
    let is_crowded = MAX_RULESETS < all.len() || has_many_rules(all);
    refuse(alloc, is_crowded, b"", "rulesets", Cause::TooMany)?;
    let all = sets_of(alloc, all)?;
    each_ruleset(alloc, scheme, b"/rulesets", &all)
}
