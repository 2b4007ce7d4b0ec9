//! The rules at their places.

ghost use Rattle.std.specs.Prelude.{◌≡◌, None, IfSome, slice_get};
ghost use Rattle.std.specs.Option.{option_copied};
ghost use Rattle.ruleset_model.specs.Valid.{IsValid};
ghost use Rattle.judge_core.specs.Places.{rule_at, Reaches};

use crate::carried::RulePlace;
use ruleset_model::{Config, Rule, Ruleset};

/// A rule, and the ruleset in which it stands.
#[derive(Clone, Copy)]
pub(crate) struct Found<'a> {
    pub set: &'a Ruleset,
    pub rule: &'a Rule,
}

/// The ruleset at a place.
pub(crate) fn set_at(config: &Config, holder: u32) -> Option<&Ruleset>
    ensures found { option_copied result ≡ slice_get config.now.rulesets holder }
    ensures valid { IsValid config.now.lists config.now.rulesets }
{
    config.rulesets().get(holder as usize)
}

/// The rule of a ruleset at a place.
fn rule_of(set: &Ruleset, number: u32) -> Option<&Rule>
    ensures { option_copied result ≡ slice_get set.now.rules number }
{
    set.rules.as_slice().get(number as usize)
}

/// The rule at the places.
pub(crate) fn find(config: &Config, place: RulePlace) -> Option<Found<'_>>
    ensures some { IfSome result (λ found. Reaches config.now place found.set.now found.rule.now) }
    ensures none { result ≡ None → rule_at config.now place ≡ None }
{
    let set = set_at(config, place.set)?;
    let rule = rule_of(set, place.rule)?;
    Some(Found { set, rule })
}
