//! What the skips so far hold for.

ghost use Rattle.std.specs.Prelude.{◌≡◌, bytes_eq};
ghost use Rattle.std.specs.List.{list_any};
ghost use Rattle.std.specs.Option.{option_copied};
ghost use Rattle.ruleset_model.specs.Phases.{same_phase};
ghost use Rattle.judge_core.specs.Places.{rule_at, skips_in, skips_of, is_one, any_added};
ghost use Rattle.judge_core.specs.Skipping.{names_rule, skips_in_phase, skips_set, skips_one};
ghost use Rattle.judge_core.specs.Skipping.{skips_phase, skips_ruleset, skips_rule};

use crate::carried::{RulePlace, State};
use edge_base::Text;
use ruleset_model::{Act, Config, Phase, Rule, Ruleset, Skips};

/// The rule at the places.
pub(crate) fn rule_at(config: &Config, place: RulePlace) -> Option<&Rule>
    ensures { option_copied result ≡ rule_at config.now place }
{
    let set = config.rulesets().get(place.set as usize)?;
    set.rules.as_slice().get(place.rule as usize)
}

/// What the rule at the places skips.
pub(crate) fn skips_at(config: &Config, place: RulePlace) -> Option<&Skips>
    ensures { option_copied result ≡ skips_in (rule_at config.now place) }
{
    match &rule_at(config, place)?.act {
        Act::Skip(skips) => Some(skips),
        _ => None,
    }
}

/// Whether a text is one of these.
fn has_text(texts: &[Text], text: &Text) -> bool
    ensures { result ≡ list_any (bytes_eq text.now) texts.now }
{
    texts.iter().any(|one| text == one)
}

// ---- phases

/// Whether these skips hold for a phase.
fn has_phase(skips: &Skips, phase: Phase) -> bool
    ensures { result ≡ skips_in_phase phase skips.now }
{
    skips
        .phases
        .as_slice()
        .iter()
        .any(|one| phase.number() == one.number())
}

/// Whether what the rule at the places skips holds for a phase.
fn skips_phase_at(config: &Config, place: RulePlace, phase: Phase) -> bool
    ensures { result ≡ is_one (skips_in_phase phase) (skips_in (rule_at config.now place)) }
{
    match skips_at(config, place) {
        Some(skips) => has_phase(skips, phase),
        None => false,
    }
}

/// Whether the skips that rules added hold for a phase.
fn added_skip_phase(config: &Config, places: &[RulePlace], phase: Phase) -> bool
    ensures { result ≡ any_added (skips_in_phase phase) config.now places.now }
{
    places
        .iter()
        .any(|place| skips_phase_at(config, *place, phase))
}

/// Whether the skips of the request, where a reply is judged, hold for a phase.
fn earlier_skip_phase(state: &State, phase: Phase) -> bool
    ensures { result ≡ is_one (skips_in_phase phase) state.now.earlier }
{
    match &state.earlier {
        Some(skips) => has_phase(skips, phase),
        None => false,
    }
}

/// Whether a phase that would begin is skipped.
#[tactic(auto, using(crate::proofs::SkipLemmas::any_skips))]
pub(crate) fn skips_phase(config: &Config, state: &State, phase: Phase) -> bool
    ensures { result ≡ skips_phase (skips_of config.now state.now) phase }
{
    earlier_skip_phase(state, phase) || added_skip_phase(config, state.skipping.as_slice(), phase)
}

// ---- rulesets

/// Whether these skips hold for a ruleset.
fn has_ruleset(skips: &Skips, set: &Ruleset) -> bool
    ensures { result ≡ skips_set set.now skips.now }
{
    has_text(skips.rulesets.as_slice(), &set.id)
}

/// Whether what the rule at the places skips holds for a ruleset.
fn skips_ruleset_at(config: &Config, place: RulePlace, set: &Ruleset) -> bool
    ensures { result ≡ is_one (skips_set set.now) (skips_in (rule_at config.now place)) }
{
    match skips_at(config, place) {
        Some(skips) => has_ruleset(skips, set),
        None => false,
    }
}

/// Whether the skips that rules added hold for a ruleset.
fn added_skip_ruleset(config: &Config, places: &[RulePlace], set: &Ruleset) -> bool
    ensures { result ≡ any_added (skips_set set.now) config.now places.now }
{
    places
        .iter()
        .any(|place| skips_ruleset_at(config, *place, set))
}

/// Whether the skips of the request, where a reply is judged, hold for a ruleset.
fn earlier_skip_ruleset(state: &State, set: &Ruleset) -> bool
    ensures { result ≡ is_one (skips_set set.now) state.now.earlier }
{
    match &state.earlier {
        Some(skips) => has_ruleset(skips, set),
        None => false,
    }
}

/// Whether a judging of a ruleset that would begin is skipped.
#[tactic(auto, using(crate::proofs::SkipLemmas::any_skips))]
pub(crate) fn skips_ruleset(config: &Config, state: &State, set: &Ruleset) -> bool
    ensures { result ≡ skips_ruleset (skips_of config.now state.now) set.now }
{
    earlier_skip_ruleset(state, set) || added_skip_ruleset(config, state.skipping.as_slice(), set)
}

// ---- rules

/// Whether an entry of skips names a rule of a ruleset.
fn names_rule(set: &Ruleset, rule: &Rule, set_id: &Text, ids: &[Text]) -> bool
    ensures { result ≡ names_rule set.now rule.now (set_id.now, ids.now) }
{
    &set.id == set_id && has_text(ids, &rule.id)
}

/// Whether these skips hold for a rule of a ruleset.
fn has_rule(skips: &Skips, set: &Ruleset, rule: &Rule) -> bool
    ensures { result ≡ skips_one set.now rule.now skips.now }
{
    skips.rules.as_slice().iter().any(|(set_id, ids)| names_rule(set, rule, set_id, ids.as_slice()))
}

/// Whether what the rule at the places skips holds for a rule of a ruleset.
fn skips_rule_at(config: &Config, place: RulePlace, set: &Ruleset, rule: &Rule) -> bool
    ensures { result ≡ is_one (skips_one set.now rule.now) (skips_in (rule_at config.now place)) }
{
    match skips_at(config, place) {
        Some(skips) => has_rule(skips, set, rule),
        None => false,
    }
}

/// Whether the skips that rules added hold for a rule of a ruleset.
fn added_skip_rule(config: &Config, places: &[RulePlace], set: &Ruleset, rule: &Rule) -> bool
    ensures { result ≡ any_added (skips_one set.now rule.now) config.now places.now }
{
    places
        .iter()
        .any(|place| skips_rule_at(config, *place, set, rule))
}

/// Whether the skips of the request, where a reply is judged, hold for a rule of a ruleset.
fn earlier_skip_rule(state: &State, set: &Ruleset, rule: &Rule) -> bool
    ensures { result ≡ is_one (skips_one set.now rule.now) state.now.earlier }
{
    match &state.earlier {
        Some(skips) => has_rule(skips, set, rule),
        None => false,
    }
}

/// Whether a rule that is reached is skipped.
#[tactic(auto, using(crate::proofs::SkipLemmas::any_skips))]
pub(crate) fn skips_rule(config: &Config, state: &State, set: &Ruleset, rule: &Rule) -> bool
    ensures { result ≡ skips_rule (skips_of config.now state.now) set.now rule.now }
{
    earlier_skip_rule(state, set, rule)
        || added_skip_rule(config, state.skipping.as_slice(), set, rule)
}
