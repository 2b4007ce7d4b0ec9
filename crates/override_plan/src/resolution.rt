ghost use Rattle.std.specs.Prelude.{◌≡◌, ◌↔◌, bytes_eq};
ghost use Rattle.std.specs.List.{list_any};
ghost use Rattle.std.specs.Option.{option_or};
ghost use Rattle.override_plan.specs.declared.plain.Plain.TheVariants as plain;
ghost use Rattle.override_plan.specs.Speakers.{enabled_by, action_by, has_tag, speakers_of, first_given, action_after, effective_of};

use crate::overrides::{Override, Overrides};
use crate::plain::{Effective, Plain};
use edge_base::{Text, Texts};

/// Each part as `later` gives it, or else as `earlier` does.
fn heard(earlier: Override, later: Override) -> Override
    ensures enabled { result.enabled ≡ option_or later.enabled earlier.enabled }
    ensures action { result.action ≡ option_or later.action earlier.action }
{
    Override {
        enabled: later.enabled.or(earlier.enabled),
        action: later.action.or(earlier.action),
    }
}

/// Whether one of these texts is this one.
fn has_tag(tags: &[Text], tag: &Text) -> bool
    ensures { result ≡ has_tag tags.now tag.now }
{
    tags.iter().any(|one| tag == one)
}

/// What the entries of a rule say of it, on top of what was said before.
fn heard_of_rule(before: Override, entries: &[(Text, Override)], rule: &Text) -> Override
    ensures enabled { result.enabled ≡ enabled_by (bytes_eq rule.now) entries.now before }
    ensures action { result.action ≡ action_by (bytes_eq rule.now) entries.now before }
{
    let mut said = before;
    for (name, entry) in entries {
        if rule == name {
            said = heard(said, *entry);
        }
    }
    said
}

/// What the entries of its tags say of a rule, on top of what was said before.
fn heard_of_tags(before: Override, entries: &[(Text, Override)], tags: &[Text]) -> Override
    ensures enabled { result.enabled ≡ enabled_by (has_tag tags.now) entries.now before }
    ensures action { result.action ≡ action_by (has_tag tags.now) entries.now before }
{
    let mut said = before;
    for (name, entry) in entries {
        if has_tag(tags, name) {
            said = heard(said, *entry);
        }
    }
    said
}

/// What is said of a rule: each part by the first speaker that gives it.
#[tactic(auto, using(crate::proofs::SpeakerLemmas::given_in_turn))]
fn said_of_rule(overrides: &Overrides, rule: &Text, tags: &[Text]) -> Override
    ensures enabled { result.enabled ≡ first_given (λ s. s.enabled) (speakers_of overrides.now rule.now tags.now) }
    ensures action { result.action ≡ first_given (λ s. s.action) (speakers_of overrides.now rule.now tags.now) }
{
    let of_tags = heard_of_tags(overrides.whole, overrides.tags.as_slice(), tags);
    heard_of_rule(of_tags, overrides.rules.as_slice(), rule)
}

/// What a rule does where this was said of it.
fn action_after(said: Override, own: Plain) -> Plain
    ensures ok { result ≡ action_after said.action own }
    ensures other { (result ≡ plain.Other) ↔ (own ≡ plain.Other) }
{
    match own {
        Plain::Other => Plain::Other,
        Plain::Block | Plain::Log => said.action.unwrap_or(own),
        Plain::ManagedChallenge | Plain::JsChallenge | Plain::Challenge => {
            said.action.unwrap_or(own)
        }
    }
}

/// Whether a rule of the executed ruleset is enabled and what it does, each by the first that speaks of it: the last
/// entry of its id, the last entry of one of its tags, the whole, the rule itself. Takes no memory.
pub fn effective(
    overrides: &Overrides,
    rule: &Text,
    tags: &Texts,
    enabled: bool,
    action: Plain,
) -> Effective
    ensures ok { result ≡ effective_of overrides.now rule.now tags.now enabled action }
    ensures other { (result.action ≡ plain.Other) ↔ (action ≡ plain.Other) }
{
    let said = said_of_rule(overrides, rule, tags.as_slice());
    Effective {
        enabled: said.enabled.unwrap_or(enabled),
        action: action_after(said, action),
    }
}
