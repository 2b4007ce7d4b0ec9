ghost use Rattle.std.specs.Prelude.{◌≡◌, IfOk};

use crate::phase::{Phase, Phases};
use edge_base::{Memory, Text, Texts, copy_texts};
use sqlite_items::Items;
use std::alloc::Global;

/// The ids of rulesets, each with the ids of the rules of it that are skipped.
pub type SkippedRules = Items<(Text, Texts)>;

/// What is passed over from here on: the rest of the ruleset, phases, rulesets, and single rules.
#[derive(Debug, Drop)]
pub struct Skips {
    /// The rest of the ruleset in which the rule stands.
    pub current: bool,
    pub phases: Phases,
    /// Ids of rulesets.
    pub rulesets: Texts,
    /// In byte order of the rulesets' ids, each once.
    pub rules: SkippedRules,
}

/// A copy of each phase, in order.
pub fn copy_phases(alloc: Global, phases: &[Phase]) -> Result<Phases, Memory>
    ensures { IfOk result (λ copy. copy ≡ phases.now) }
{
    let mut copy = Items::new(alloc);
    for phase in phases {
        copy.push(*phase)?;
    }
    Ok(copy)
}

/// A copy of each ruleset's id with its rules, in order.
pub fn copy_skipped_rules(alloc: Global, rules: &[(Text, Texts)]) -> Result<SkippedRules, Memory>
    ensures { IfOk result (λ copy. copy ≡ rules.now) }
{
    let mut copy = Items::new(alloc);
    for (set_id, ids) in rules {
        copy.push((set_id.copy(alloc)?, copy_texts(alloc, ids.as_slice())?))?;
    }
    Ok(copy)
}

impl Skips {
    pub fn copy(&self, alloc: Global) -> Result<Skips, Memory>
        ensures { IfOk result (λ skips. skips ≡ self.now) }
    {
        Ok(Skips {
            current: self.current,
            phases: copy_phases(alloc, self.phases.as_slice())?,
            rulesets: copy_texts(alloc, self.rulesets.as_slice())?,
            rules: copy_skipped_rules(alloc, self.rules.as_slice())?,
        })
    }
}
