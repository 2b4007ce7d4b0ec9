//! Sets of addresses.
ghost use Rattle.std.specs.Prelude.{IfOk};
ghost use Rattle.std.specs.List.{All};
ghost use Rattle.addr_set.specs.Sets.{IsAddrItem};

use crate::faults::Fault;
use crate::spread::{Places, number_at};
use addr_set::AddrSet;
use edge_base::{Addr, Item, ListedItems, Lit};
use sqlite_items::Items;
use std::alloc::{AllocError, Global};

/// The most items of a set: as many as a list may have.
const MOST_SIZE: u32 = 50_000;

/// The address of a place: V4 and V6 by turns.
fn address_at(place: u32) -> Addr {
    let number = number_at(place);
    if place % 2 == 0 {
        Addr::V4((number >> 96) as u32)
    } else {
        Addr::V6(number)
    }
}

/// The 256 addresses from this one on, or what there is of them.
fn range_from(first: Addr) -> Item
    ensures { IsAddrItem result }
{
    let last = match first {
        Addr::V4(number) => Addr::V4(number.saturating_add(255)),
        Addr::V6(number) => Addr::V6(number.saturating_add(255)),
    };
    Item::Addrs(first, last)
}

/// The item of a place, which holds the address of the place: an address, a block or a range by turns.
fn item_at(place: u32) -> Item
    ensures { IsAddrItem result }
{
    let address = address_at(place);
    match (place / 2 % 3, address) {
        (0, _) => Item::One(Lit::Addr(address)),
        (1, Addr::V4(_)) => Item::Block(address, 24),
        (1, Addr::V6(_)) => Item::Block(address, 64),
        _ => range_from(address),
    }
}

/// The items of the places before an end.
fn items_before(alloc: Global, end: u32) -> Result<ListedItems, AllocError>
    ensures { IfOk result (All IsAddrItem) }
{
    let mut items = Items::new(alloc);
    for place in 0..end {
        items.push(item_at(place))?;
    }
    Ok(items)
}

/// How many of the addresses that were asked for are in the set. About half of them are of its items.
pub fn addresses_found(alloc: Global, size: u32, rounds: u32) -> Result<u64, Fault> {
    if size == 0 || size > MOST_SIZE {
        return Err(Fault::Usage);
    }
    let items = items_before(alloc, size)?;
    let set = AddrSet::build(alloc, &items)?;
    let mut places = Places::new();
    let mut found = 0u64;
    for _ in 0..rounds {
        let place = places.next(2 * size);
        found = found.wrapping_add(u64::from(set.has(address_at(place))));
    }
    Ok(found)
}
