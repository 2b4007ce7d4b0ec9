ghost use Rattle.std.specs.Prelude.{◌≡◌, ◌↔◌, ℕ, ◌<◌, ◌^◌, IsTrue, length, IfOk, Err};
ghost use Rattle.std.specs.List.{All, AllZip, HoldsAt, IsDistinct};
ghost use Rattle.std.specs.Str.{bytes_eq};
ghost use Rattle.list_store.specs.Parts.{IsListKind, IsListOf, IsRepeated, HasTooMany, NamesFirstList, NamesFirstItem, AreFineBefore, has_text, HasAddr, ListFaultsAreUnique};
ghost use Rattle.list_store.specs.Listed.{names_of, CanBeTold};
ghost use Rattle.list_store.specs.Members.{AreMembersOf};

use crate::members::Members;
use crate::part::{ListFault, ListPart, ListParts};
use edge_base::Addr;
use std::alloc::Global;
use std::marker::Model;

/// Named lists of addresses and of texts, each known by its place. Contracts see them as they were handed in.
#[derive(Drop)]
pub struct Lists {
    parts: ListParts,
    members: Vec<Members>,
}

impl Model for Lists {
    ghost use Rattle.std.specs.Prelude.{List};
    ghost use Rattle.std.specs.List.{AllZip};
    ghost use Rattle.list_store.specs.declared.part.ListPart.{ListPart};
    ghost use Rattle.list_store.specs.Members.{AreMembersOf};

    ghost Value = { List ListPart };

    ghost view = { λ lists. lists.parts };

    ghost invariant = { λ lists. AllZip AreMembersOf lists.parts lists.members.items };
}

/// The members of each list.
fn members_of(alloc: Global, parts: &[ListPart]) -> Result<Vec<Members>, ListFault>
    requires few { length parts.now < 2 ^ 32 }
    requires kinds { All (λ part. IsListKind part.kind) parts.now }
    ensures ok { IfOk result (λ made. AllZip AreMembersOf parts.now made.items) }
    ensures fine { IfOk result (λ _. AreFineBefore parts.now (length parts.now)) }
    ensures duplicate_list { NamesFirstList ListFault.DuplicateList IsRepeated parts.now result }
    ensures too_many_items { NamesFirstList ListFault.TooManyItems HasTooMany parts.now result }
    ensures bad_list_item { NamesFirstItem ListFault.BadListItem parts.now result }
{
    let mut members = Vec::new(alloc);
    for part in parts {
        let list = members.len();
        members.push(Members::of(alloc, &parts[..list], part, list as u32)?)?;
    }
    Ok(members)
}

impl Lists {
    ghost use Rattle.edge_fields.specs.declared.kind.Basic.TheVariants as basic;

    /// The lists, or the first fault: in a list a repeated name, then too many items, then the first bad item.
    pub fn build(alloc: Global, parts: ListParts) -> Result<Lists, ListFault>
        requires few { length parts < 2 ^ 32 }
        requires kinds { All (λ part. IsListKind part.kind) parts }
        ensures ok { IfOk result (λ lists. lists ≡ parts) }
        ensures fine { IfOk result (λ _. AreFineBefore parts (length parts)) }
        ensures duplicate_list { NamesFirstList ListFault.DuplicateList IsRepeated parts result }
        ensures too_many_items { NamesFirstList ListFault.TooManyItems HasTooMany parts result }
        ensures bad_list_item { NamesFirstItem ListFault.BadListItem parts result }
    {
        let members = members_of(alloc, parts.as_slice())?;
        Ok(Lists { parts, members })
    }

    /// The lists as they were handed in. Takes no memory.
    pub fn parts(&self) -> &[ListPart]
        ensures { result.now ≡ self.now }
    {
        self.parts.as_slice()
    }

    /// Whether an address list has an address. Takes no memory, and logarithmic time.
    pub fn has_addr(&self, list: u32, addr: Addr) -> bool
        requires { IsListOf self.now list basic.Addr }
        ensures { HoldsAt (λ part. IsTrue result ↔ HasAddr part.items addr) self.now list }
    {
        match &self.members[list as usize] {
            Members::Addrs(set) => set.has(addr),
            Members::Texts(_) => unreachable!(),
        }
    }

    /// Whether a text list has a text. Takes no memory, and no scan.
    pub fn has_text(&self, list: u32, text: &[u8]) -> bool
        requires { IsListOf self.now list basic.Text }
        ensures { HoldsAt (λ part. result ≡ has_text part.items text.now) self.now list }
    {
        match &self.members[list as usize] {
            Members::Texts(set) => set.contains(text),
            Members::Addrs(_) => unreachable!(),
        }
    }

    /// A law: where no two lists have one name, something tells which values each of them has.
    pub fn are_told(&self)
        ensures { IsDistinct bytes_eq (names_of self.now) → CanBeTold self.now }
    {
        // The members that were kept tell it.
        let _members = &self.members;
    }
}

/// A law: the causes of a refusal exclude one another, and so do refusal and success.
pub fn list_faults_are_unique()
    ensures { ListFaultsAreUnique }
{}
