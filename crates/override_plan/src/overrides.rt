ghost use Rattle.std.specs.Prelude.{◌≡◌, IfOk};
ghost use Rattle.override_plan.specs.Given.{IsGiven};

use crate::plain::Plain;
use edge_base::{Memory, Text};
use sqlite_items::Items;
use std::alloc::Global;

/// What one entry says of the rules that it is for: either part, both or none.
#[derive(Clone, Copy, Debug, PartialEq, Eq)]
pub struct Override {
    pub enabled: Option<bool>,
    pub action: Option<Plain>,
    ghost given: { IsGiven action },
}

/// Entries, each with the tag or the id of the rules that it is for. A name may come again.
pub type NamedOverrides = Items<(Text, Override)>;

/// What an `execute` says of the rules that it executes: of all of them, of those with a tag, and of single ones.
#[derive(Debug, Drop)]
pub struct Overrides {
    pub whole: Override,
    pub tags: NamedOverrides,
    pub rules: NamedOverrides,
}

impl Override {
    pub fn copy(&self) -> Result<Override, Memory>
        ensures { IfOk result (λ said. said ≡ self.now) }
    {
        Ok(*self)
    }
}

/// A copy of each entry, in order.
pub fn copy_named_overrides(
    alloc: Global,
    entries: &[(Text, Override)],
) -> Result<NamedOverrides, Memory>
    ensures { IfOk result (λ copy. copy ≡ entries.now) }
{
    let mut copy = Items::new(alloc);
    for (name, said) in entries {
        copy.push((name.copy(alloc)?, *said))?;
    }
    Ok(copy)
}

impl Overrides {
    pub fn copy(&self, alloc: Global) -> Result<Overrides, Memory>
        ensures { IfOk result (λ overrides. overrides ≡ self.now) }
    {
        Ok(Overrides {
            whole: self.whole,
            tags: copy_named_overrides(alloc, self.tags.as_slice())?,
            rules: copy_named_overrides(alloc, self.rules.as_slice())?,
        })
    }
}
