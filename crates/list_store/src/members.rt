ghost use Rattle.std.specs.Prelude.{◌≡◌, ◌<◌, ◌^◌, length, IfOk};
ghost use Rattle.list_store.specs.Parts.{is_named, IsListKind};
ghost use Rattle.list_store.specs.Members.{AreKeysOf, ReadsAddrs, Makes};

use crate::part::{ListFault, ListPart};
use addr_set::{AddrSet, ItemFault, parse_items};
use edge_base::{Memory, Text, Texts};
use edge_fields::Basic;
use std::alloc::Global;
use std::collections::HashSet;

/// The most items that a list may have.
const MAX_ITEMS: usize = 50_000;

/// The members of one list.
#[derive(Drop)]
pub enum Members {
    Addrs(AddrSet),
    Texts(HashSet<Vec<u8>>),
}

/// Whether one of the lists has this name.
fn is_named(parts: &[ListPart], name: &[u8]) -> bool
    ensures { result ≡ is_named parts.now name.now }
{
    parts.iter().any(|part| name == part.name.bytes())
}

/// The texts, each once.
fn texts_of(alloc: Global, items: &[Text]) -> Result<HashSet<Vec<u8>>, Memory>
    ensures { IfOk result (λ set. AreKeysOf set.keys items.now) }
{
    let mut set = HashSet::new(alloc);
    for item in items {
        set.insert(Vec::from_slice(alloc, item.bytes())?)?;
    }
    Ok(set)
}

/// The addresses of the list at this place.
fn addrs_of(alloc: Global, items: &Texts, list: u32) -> Result<AddrSet, ListFault>
    requires { length items.now < 2 ^ 32 }
    ensures { ReadsAddrs items.now list result }
{
    match parse_items(alloc, items) {
        Ok(read) => Ok(AddrSet::build(alloc, &read)?),
        Err(ItemFault::BadAddr { at }) => Err(ListFault::BadListItem { list, at }),
        Err(ItemFault::BadPrefix { at }) => Err(ListFault::BadListItem { list, at }),
        Err(ItemFault::BackwardRange { at }) => Err(ListFault::BadListItem { list, at }),
        Err(ItemFault::Memory) => Err(ListFault::Memory),
    }
}

impl Members {
    /// The members of the list at this place, which stands after others.
    pub fn of(
        alloc: Global,
        earlier: &[ListPart],
        part: &ListPart,
        list: u32,
    ) -> Result<Members, ListFault>
        requires { IsListKind part.now.kind }
        ensures { Makes earlier.now part.now list result }
    {
        if is_named(earlier, part.name.bytes()) {
            return Err(ListFault::DuplicateList { list });
        }
        if part.items.len() > MAX_ITEMS {
            return Err(ListFault::TooManyItems { list });
        }
        match part.kind {
            Basic::Addr => Ok(Members::Addrs(addrs_of(alloc, &part.items, list)?)),
            Basic::Text => Ok(Members::Texts(texts_of(alloc, part.items.as_slice())?)),
            Basic::Num | Basic::Bool => unreachable!(),
        }
    }
}
