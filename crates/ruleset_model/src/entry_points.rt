ghost use Rattle.std.specs.Prelude.{◌≡◌, ◌<◌, ◌^◌, length, map};
ghost use Rattle.ruleset_model.specs.Phases.{all_phases};
ghost use Rattle.ruleset_model.specs.Entries.{is_zone, is_entry, entry_of};

use crate::phase::Phase;
use crate::ruleset::{Ruleset, RulesetKind};

/// For each phase by its number, the place of its entry point.
pub type EntryPoints = [Option<u32>; 7];

/// Whether rulesets of the kind are entry points.
fn is_zone(kind: RulesetKind) -> bool
    ensures { result ≡ is_zone kind }
{
    matches!(kind, RulesetKind::Zone)
}

/// Whether the ruleset is the entry point of the phase.
fn is_entry(set: &Ruleset, phase: Phase) -> bool
    ensures { result ≡ is_entry phase set.now }
{
    is_zone(set.kind) && set.phase.number() == phase.number()
}

/// The place of the phase's entry point.
fn entry_of(sets: &[Ruleset], phase: Phase) -> Option<usize>
    ensures { result ≡ entry_of sets.now phase }
{
    sets.iter().position(|set| is_entry(set, phase))
}

/// The same as a number of a place.
fn entry_place(sets: &[Ruleset], phase: Phase) -> Option<u32>
    requires { length sets.now < 2 ^ 32 }
    ensures { result ≡ entry_of sets.now phase }
{
    match entry_of(sets, phase) {
        Some(place) => Some(place as u32),
        None => None,
    }
}

/// The entry points of all phases.
pub fn entry_points(sets: &[Ruleset]) -> EntryPoints
    requires { length sets.now < 2 ^ 32 }
    ensures { result ≡ map (entry_of sets.now) all_phases }
{
    [
        entry_place(sets, Phase::DynamicRedirect),
        entry_place(sets, Phase::Transform),
        entry_place(sets, Phase::FirewallCustom),
        entry_place(sets, Phase::RateLimit),
        entry_place(sets, Phase::FirewallManaged),
        entry_place(sets, Phase::LateTransform),
        entry_place(sets, Phase::ResponseTransform),
    ]
}
