ghost use Rattle.std.specs.Prelude.{◌≡◌, ◌<◌, ◌^◌, ◌↔◌, length, IsTrue, IfOk, MatchOption};
ghost use Rattle.edge_fields.specs.Schemes.{AreLists, IsListed, IsUnlisted};

use crate::kind::Basic;
use edge_base::{Memory, Text};
use sqlite_items::Items;
use std::alloc::Global;
use std::marker::Model;

/// The names of lists, and what each list holds: texts or addresses.
pub type ListKinds = Items<(Text, Basic)>;

/// What an expression may name besides fields and functions: the named lists. Contracts see the list of these.
#[derive(Drop)]
pub struct Scheme {
    lists: ListKinds,
}

impl Model for Scheme {
    ghost use Rattle.std.specs.Prelude.{List, ℕ, ◌<◌, ◌^◌, length};
    ghost use Rattle.edge_fields.specs.declared.kind.Basic.{Basic};
    ghost use Rattle.edge_fields.specs.Schemes.{AreLists};

    ghost Value = { List (List ℕ × Basic) };

    ghost view = { λ scheme. scheme.lists };

    ghost invariant = { λ scheme. AreLists scheme.lists × (length scheme.lists < 2 ^ 32) };
}

/// A copy of each name with its kind, in order.
pub fn copy_lists(alloc: Global, lists: &[(Text, Basic)]) -> Result<ListKinds, Memory>
    ensures { IfOk result (λ copy. copy ≡ lists.now) }
{
    let mut copy = Items::new(alloc);
    for (name, kind) in lists {
        copy.push((name.copy(alloc)?, *kind))?;
    }
    Ok(copy)
}

/// Whether a list has a name.
fn has_name(list: &(Text, Basic), name: &[u8]) -> bool
    ensures { IsTrue result ↔ (list.now.0 ≡ name.now) }
{
    list.0.bytes() == name
}

/// The place and the kind of the list of a name.
fn list_named(lists: &[(Text, Basic)], name: &[u8]) -> Option<(u32, Basic)>
    requires { length lists.now < 2 ^ 32 }
    ensures { MatchOption result (IsUnlisted lists.now name.now) (λ found. IsListed lists.now name.now found) }
{
    let mut at = 0;
    for list in lists {
        if has_name(list, name) {
            return Some((at, list.1));
        }
        at += 1;
    }
    None
}

impl Scheme {
    /// A scheme with these lists.
    pub fn new(alloc: Global, lists: &ListKinds) -> Result<Scheme, Memory>
        requires { AreLists lists.now }
        ensures { IfOk result (λ scheme. scheme ≡ lists.now) }
    {
        // More lists than a place can number would not fit in memory.
        if u32::try_from(lists.len()).is_err() {
            return Err(Memory);
        }
        let lists = copy_lists(alloc, lists.as_slice())?;
        Ok(Scheme { lists })
    }

    /// The names and the kinds of the lists, in order; no two have one name. Takes no memory.
    pub fn lists(&self) -> &ListKinds
        ensures lists { result.now ≡ self.now }
        ensures distinct { AreLists self.now }
    {
        &self.lists
    }

    /// The place and the kind of the list of a name. Takes no memory.
    pub fn list(&self, name: &[u8]) -> Option<(u32, Basic)>
        ensures { MatchOption result (IsUnlisted self.now name.now) (λ found. IsListed self.now name.now found) }
    {
        list_named(self.lists.as_slice(), name)
    }
}
