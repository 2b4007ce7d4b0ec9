ghost use Rattle.std.specs.Prelude.{◌≡◌, IfOk};

use crate::refusal::Memory;
use crate::text::Text;
use sqlite_items::Items;
use std::alloc::Global;

/// The name of a rule: the id of the ruleset in which it stands, and its own id there.
#[derive(Debug, PartialEq, Eq, Hash, Drop)]
pub struct RuleName {
    pub set_id: Text,
    pub rule: Text,
}

/// A list of rule names.
pub type RuleNames = Items<RuleName>;

impl RuleName {
    pub fn copy(&self, alloc: Global) -> Result<RuleName, Memory>
        ensures { IfOk result (λ name. name ≡ self.now) }
    {
        Ok(RuleName {
            set_id: self.set_id.copy(alloc)?,
            rule: self.rule.copy(alloc)?,
        })
    }
}

/// A copy of each name, in order.
pub fn copy_rule_names(alloc: Global, names: &[RuleName]) -> Result<RuleNames, Memory>
    ensures { IfOk result (λ copy. copy ≡ names.now) }
{
    let mut copy = Items::new(alloc);
    for name in names {
        copy.push(name.copy(alloc)?)?;
    }
    Ok(copy)
}
