//! What tests take, and the faults of their own.
ghost use Rattle.std.specs.Prelude.{◌≡◌, true, is_some, IfOk};
ghost use Rattle.std.specs.List.{list_any, list_all};
ghost use Rattle.std.specs.Option.{option_map_or};
ghost use Rattle.type_check.specs.TestKinds.{is_kind, order_takes, item_basic, is_bad_block, is_bad_range, list_kind, takes_test, test_sort, list_causes, where_so, head_of, items_causes, text_causes};
ghost use Rattle.text_match.specs.Wildcards.{fault_of};

use crate::fault::TypeCause;
use crate::sort::{Sort, basic_of};
use edge_base::{Addr, Item, Memory, Order, Test, Text};
use edge_fields::{Basic, Kind, Scheme};
use std::alloc::Global;
use text_match::{Wild, WildFault};

fn order_takes(order: Order, basic: Basic) -> bool
    ensures { result ≡ order_takes order basic }
{
    match (order, basic) {
        (_, Basic::Text | Basic::Num) | (Order::Eq | Order::Ne, Basic::Addr) => true,
        _ => false,
    }
}

/// The kind of values that an item holds.
fn item_basic(item: &Item) -> Basic
    ensures { result ≡ item_basic item.now }
{
    match item {
        Item::One(lit) => basic_of(lit),
        Item::Nums(_, _) => Basic::Num,
        Item::Addrs(_, _) | Item::Block(_, _) => Basic::Addr,
    }
}

fn are_all_of(items: &[Item], basic: Basic) -> bool
    ensures { result ≡ list_all (λ i. is_kind (item_basic i) basic) items.now }
{
    items.iter().all(|item| item_basic(item) == basic)
}

/// Whether a block counts more bits than its address has.
fn is_bad_block(item: &Item) -> bool
    ensures { result ≡ is_bad_block item.now }
{
    match item {
        Item::Block(Addr::V4(_), bits) => 32 < *bits,
        Item::Block(Addr::V6(_), bits) => 128 < *bits,
        _ => false,
    }
}

/// Whether a range has its first above its last, or is of two families.
fn is_bad_range(item: &Item) -> bool
    ensures { result ≡ is_bad_range item.now }
{
    match item {
        Item::Nums(first, last) => last < first,
        Item::Addrs(Addr::V4(first), Addr::V4(last)) => last < first,
        Item::Addrs(Addr::V6(first), Addr::V6(last)) => last < first,
        Item::Addrs(_, _) => true,
        _ => false,
    }
}

fn has_bad_block(items: &[Item]) -> bool
    ensures { result ≡ list_any is_bad_block items.now }
{
    items.iter().any(is_bad_block)
}

fn has_bad_range(items: &[Item]) -> bool
    ensures { result ≡ list_any is_bad_range items.now }
{
    items.iter().any(is_bad_range)
}

/// The kind of the list of a name.
fn list_kind(lists: &[(Text, Basic)], name: &[u8]) -> Option<Basic>
    ensures { result ≡ list_kind lists.now name.now }
{
    for (other, kind) in lists {
        if name == other.bytes() {
            return Some(*kind);
        }
    }
    None
}

/// Whether a test speaks of a list that there isn't.
pub fn has_unknown_list(scheme: &Scheme, test: &Test) -> bool
    ensures { list_causes scheme.now test.now ≡ where_so result TypeCause.UnknownList }
{
    match test {
        Test::Listed(name) => list_kind(scheme.lists().as_slice(), name.bytes()).is_none(),
        _ => false,
    }
}

fn lists_take(scheme: &Scheme, name: &[u8], basic: Basic) -> bool
    ensures { result ≡ option_map_or (λ k. is_kind k basic) (list_kind scheme.now name.now) true }
{
    match list_kind(scheme.lists().as_slice(), name) {
        Some(kind) => kind == basic,
        None => true,
    }
}

fn takes_test(scheme: &Scheme, test: &Test, basic: Basic) -> bool
    ensures { result ≡ takes_test scheme.now test.now basic }
{
    match test {
        Test::Order(order, lit) => order_takes(*order, basic) && basic_of(lit) == basic,
        Test::Contains(_) | Test::Matches(_) | Test::Wild(_) | Test::StrictWild(_) => basic
            == Basic::Text,
        Test::Among(items) => order_takes(Order::Eq, basic) && are_all_of(items.as_slice(), basic),
        Test::Listed(name) => order_takes(Order::Eq, basic)
            && lists_take(scheme, name.bytes(), basic),
    }
}

/// What a test gives, by its operand.
pub fn test_sort(scheme: &Scheme, test: &Test, of: Option<Sort>) -> Option<Sort>
    ensures { result ≡ test_sort scheme.now test.now of }
{
    match of {
        Some(Sort::Plain(Kind::One(basic))) if takes_test(scheme, test, basic) => {
            Some(Sort::Plain(Kind::One(Basic::Bool)))
        }
        Some(Sort::Each(basic)) if takes_test(scheme, test, basic) => {
            Some(Sort::Plain(Kind::Array(Basic::Bool)))
        }
        _ => None,
    }
}

/// Whether a text can't be read as a wildcard.
pub fn is_bad_wildcard(alloc: Global, text: &[u8]) -> Result<bool, Memory>
    ensures { IfOk result (λ bad. bad ≡ is_some (fault_of text.now)) }
{
    match Wild::build(alloc, text) {
        Ok(_) => Ok(false),
        Err(WildFault::Memory) => Err(Memory),
        Err(WildFault::DoubleStar | WildFault::BadEscape) => Ok(true),
    }
}

/// The first fault of items.
fn items_cause(items: &[Item]) -> Option<TypeCause>
    ensures { result ≡ head_of (items_causes items.now) }
{
    if has_bad_block(items) {
        Some(TypeCause::BadPrefix)
    } else if has_bad_range(items) {
        Some(TypeCause::BadRange)
    } else {
        None
    }
}

/// The first fault of a test that is of its text alone.
pub fn text_cause(alloc: Global, test: &Test) -> Result<Option<TypeCause>, Memory>
    ensures { IfOk result (λ found. found ≡ head_of (text_causes test.now)) }
{
    match test {
        Test::Among(items) => Ok(items_cause(items.as_slice())),
        Test::Wild(text) | Test::StrictWild(text) => {
            if is_bad_wildcard(alloc, text.bytes())? {
                Ok(Some(TypeCause::BadWildcard))
            } else {
                Ok(None)
            }
        }
        _ => Ok(None),
    }
}
