ghost use Rattle.std.specs.Prelude.{◌≡◌, ◌^◌, ◌<◌, length, IfOk};
ghost use Rattle.std.specs.Bool.{MatchBool};
ghost use Rattle.std.specs.List.{All, AllZip};
ghost use Rattle.edge_base.specs.declared.expression.Item.{Item};
ghost use Rattle.edge_base.specs.Token.{bits_of};
ghost use Rattle.addr_set.specs.Sets.{IsAddrItem};
ghost use Rattle.addr_set.specs.ItemTexts.{IsGoodText, IsNoItemText, IsLongPrefix, IsBackward, IsRefused, NamesFirst, ItemIsUnique, ReadingsAreUnique};
ghost use Rattle.addr_set.specs.Readings.{Reads, ReadsJoined, ReadsRange, ReadsBlock};

use edge_base::{Addr, Item, ListedItems, Lit, Texts, parse_addr};
use memchr::{memchr, memmem};
use sqlite_items::Items;
use std::alloc::{AllocError, Global};
use thiserror::Error;

/// Why the items of an address list can't be read, and at which text.
#[derive(Debug, Drop, PartialEq, Eq, Error)]
pub enum ItemFault {
    #[error("text {at} is no address, block or range")]
    BadAddr { at: u32 },
    #[error("the block of text {at} has more bits than its address")]
    BadPrefix { at: u32 },
    #[error("the range of text {at} runs backward")]
    BackwardRange { at: u32 },
    #[error("out of memory")]
    Memory,
}

impl From<AllocError> for ItemFault {
    ghost use Rattle.addr_set.specs.declared.reading.ItemFault.TheVariants.{Memory};

    ghost from_gives = { λ _ e. e ≡ Memory };

    fn from(_refused: AllocError) -> ItemFault {
        ItemFault::Memory
    }
}

/// What is wrong with a text.
#[derive(Clone, Copy, Debug)]
enum Flaw {
    Address,
    Prefix,
    Backward,
}

/// The number that one to three digits write, without a leading zero.
fn prefix_of(digits: &[u8]) -> Option<u16>
    ensures { result ≡ bits_of digits.now }
{
    if digits.is_empty() || digits.len() > 3 || (digits.len() > 1 && digits[0] == b'0') {
        return None;
    }
    let mut bits = 0;
    for &digit in digits {
        if !digit.is_ascii_digit() {
            return None;
        }
        bits = bits * 10 + u16::from(digit - b'0');
    }
    Some(bits)
}

/// The item of a block's address and prefix.
fn block_of(left: &[u8], digits: &[u8]) -> Result<Item, Flaw>
    ensures { ReadsBlock left.now digits.now result }
{
    let Some(one) = parse_addr(left) else {
        return Err(Flaw::Address);
    };
    let Some(bits) = prefix_of(digits) else {
        return Err(Flaw::Address);
    };
    let width = match one {
        Addr::V4(_) => 32,
        Addr::V6(_) => 128,
    };
    if bits > width {
        return Err(Flaw::Prefix);
    }
    Ok(Item::Block(one, bits))
}

/// The item of two addresses.
fn range(first: Addr, last: Addr) -> Result<Item, Flaw>
    ensures { ReadsJoined first last result }
{
    let forward = match (first, last) {
        (Addr::V4(first), Addr::V4(last)) => first <= last,
        (Addr::V6(first), Addr::V6(last)) => first <= last,
        _ => return Err(Flaw::Address),
    };
    if forward {
        Ok(Item::Addrs(first, last))
    } else {
        Err(Flaw::Backward)
    }
}

/// The item of a range's two sides.
fn range_of(left: &[u8], right: &[u8]) -> Result<Item, Flaw>
    ensures { ReadsRange left.now right.now result }
{
    match (parse_addr(left), parse_addr(right)) {
        (Some(first), Some(last)) => range(first, last),
        _ => Err(Flaw::Address),
    }
}

/// The item of a text.
fn item_of(text: &[u8]) -> Result<Item, Flaw>
    ensures { Reads text.now result }
{
    if let Some(at) = memmem::find(text, b"..") {
        return range_of(&text[..at], &text[at + 2..]);
    }
    if let Some(at) = memchr(b'/', text) {
        return block_of(&text[..at], &text[at + 1..]);
    }
    match parse_addr(text) {
        Some(one) => Ok(Item::One(Lit::Addr(one))),
        None => Err(Flaw::Address),
    }
}

/// Whether a text stands for an item of an address list. Takes no memory.
#[tactic(auto, using(crate::proofs::ReadingLemmas::reading_is_ok))]
pub fn is_item(text: &[u8]) -> bool
    ensures { MatchBool result ((one : Item) × IsGoodText text.now one) (IsRefused text.now) }
{
    item_of(text).is_ok()
}

/// A law: a text stands for at most one item.
pub fn item_is_unique()
    ensures { ItemIsUnique }
{}

/// A law: texts are read as one list of items or refused for one cause at one place, and never both.
pub fn readings_are_unique()
    ensures { ReadingsAreUnique }
{}

/// The items of these texts: addresses, blocks, and ranges.
pub fn parse_items(alloc: Global, texts: &Texts) -> Result<ListedItems, ItemFault>
    requires { length texts.now < 2 ^ 32 }
    ensures ok { IfOk result (λ items. AllZip IsGoodText texts.now items) }
    ensures items { IfOk result (All IsAddrItem) }
    ensures bad_addr { NamesFirst ItemFault.BadAddr IsNoItemText texts.now result }
    ensures bad_prefix { NamesFirst ItemFault.BadPrefix IsLongPrefix texts.now result }
    ensures backward_range { NamesFirst ItemFault.BackwardRange IsBackward texts.now result }
{
    let mut items = Items::new(alloc);
    for text in texts.as_slice() {
        let at = items.len() as u32;
        match item_of(text.bytes()) {
            Ok(item) => items.push(item)?,
            Err(Flaw::Address) => return Err(ItemFault::BadAddr { at }),
            Err(Flaw::Prefix) => return Err(ItemFault::BadPrefix { at }),
            Err(Flaw::Backward) => return Err(ItemFault::BackwardRange { at }),
        }
    }
    Ok(items)
}
