//! Tests of values.
ghost use Rattle.std.specs.Prelude.{◌≡◌, ◌<◌, ◌↔◌, ◌/◌, ◌^◌, ◌==◌, true, length, IsTrue, IfOk};
ghost use Rattle.std.specs.List.{list_any, HoldsAt};
ghost use Rattle.std.specs.Option.{option_copied};
ghost use Rattle.list_store.specs.Listed.{HasValue, list_kinds_of};
ghost use Rattle.text_match.specs.Matching.{has_part};
ghost use Rattle.type_check.specs.Tests.{is_so, is_so_same, is_ordered, is_of_item};
ghost use Rattle.edge_base.specs.Ranges.{is_from_to, shares_bits};
ghost use Rattle.type_check.specs.Trees.{is_placed};
ghost use Rattle.edge_fields.specs.Values.{text_in, number_in, addr_in};
ghost use Rattle.tree_eval.specs.Passed.{IsPassed};

use edge_base::{Addr, Item, Lit, Memory, Order};
use edge_fields::{Basic, Value};
use list_store::Lists;
use memchr::memmem;
use std::alloc::Global;
use std::cmp::Ordering;
use type_check::BuiltTest;

/// The text that a value is. Takes no memory.
fn text_in(value: &Value) -> Option<&[u8]>
    ensures { option_copied result ≡ text_in value.now }
{
    match value {
        Value::Text(text) => Some(text.bytes()),
        _ => None,
    }
}

/// The number that a value is. Takes no memory.
fn number_in(value: &Value) -> Option<i64>
    ensures { result ≡ number_in value.now }
{
    match value {
        Value::Num(number) => Some(*number),
        _ => None,
    }
}

/// The address that a value is. Takes no memory.
fn addr_in(value: &Value) -> Option<Addr>
    ensures { result ≡ addr_in value.now }
{
    match value {
        Value::Addr(addr) => Some(*addr),
        _ => None,
    }
}

/// Whether what is compared stands in this order.
fn is_so(order: Order, found: Ordering) -> bool
    ensures { result ≡ is_so order found }
{
    match order {
        Order::Eq => found.is_eq(),
        Order::Ne => found.is_ne(),
        Order::Lt => found.is_lt(),
        Order::Le => found.is_le(),
        Order::Gt => found.is_gt(),
        Order::Ge => found.is_ge(),
    }
}

/// What `eq` and `ne` say; there are no other orders of addresses.
fn is_so_same(order: Order, same: bool) -> bool
    ensures { result ≡ is_so_same order same }
{
    match order {
        Order::Eq => same,
        Order::Ne => !same,
        _ => false,
    }
}

/// Whether a value stands in this order to a literal. Takes no memory.
fn is_ordered(order: Order, lit: &Lit, value: &Value) -> bool
    ensures { result ≡ is_ordered order lit.now value.now }
{
    match lit {
        Lit::Text(text) => text_in(value).is_some_and(|own| is_so(order, own.cmp(text.bytes()))),
        Lit::Num(number) => number_in(value).is_some_and(|own| is_so(order, own.cmp(number))),
        Lit::Addr(one) => addr_in(value).is_some_and(|own| is_so_same(order, own == *one)),
        Lit::Bool(_) => false,
    }
}

/// Whether an address is of the family of two others, and from the first to the last. Takes no memory.
fn is_from_to(first: Addr, last: Addr, addr: Addr) -> bool
    ensures { result ≡ is_from_to first last addr }
{
    match (first, last, addr) {
        (Addr::V4(first), Addr::V4(last), Addr::V4(number)) => first <= number && number <= last,
        (Addr::V6(first), Addr::V6(last), Addr::V6(number)) => first <= number && number <= last,
        _ => false,
    }
}

/// Whether two numbers of one width have the same first bits.
fn share_first_bits(one: u128, other: u128, last_bits: u32) -> bool
    ensures { result ≡ (other / 2 ^ last_bits == one / 2 ^ last_bits) }
{
    if last_bits < 128 {
        other >> last_bits == one >> last_bits
    } else {
        true
    }
}

/// Whether an address is of the family of another, and has the same first bits. Takes no memory.
fn shares_bits(one: Addr, bits: u16, addr: Addr) -> bool
    ensures { result ≡ shares_bits one bits addr }
{
    match (one, addr) {
        (Addr::V4(one), Addr::V4(number)) => {
            share_first_bits(
                u128::from(one),
                u128::from(number),
                32u32.saturating_sub(u32::from(bits)),
            )
        }
        (Addr::V6(one), Addr::V6(number)) => {
            share_first_bits(one, number, 128u32.saturating_sub(u32::from(bits)))
        }
        _ => false,
    }
}

/// Whether a value is one of an item. Takes no memory.
fn is_of_item(value: &Value, item: &Item) -> bool
    ensures { result ≡ is_of_item value.now item.now }
{
    match item {
        Item::One(lit) => is_ordered(Order::Eq, lit, value),
        Item::Nums(first, last) => number_in(value).is_some_and(|own| *first <= own
            && own <= *last),
        Item::Addrs(first, last) => addr_in(value).is_some_and(|own| is_from_to(
            *first, *last, own,
        )),
        Item::Block(one, bits) => addr_in(value).is_some_and(|own| shares_bits(*one, *bits, own)),
    }
}

/// Whether a value is one of some items. Takes no memory.
fn is_among(value: &Value, items: &[Item]) -> bool
    ensures { result ≡ list_any (is_of_item value.now) items.now }
{
    items.iter().any(|item| is_of_item(value, item))
}

/// Whether a text holds another in a row. Takes no memory.
fn has_part(text: &[u8], part: &[u8]) -> bool
    ensures { result ≡ has_part text.now part.now }
{
    memmem::find(text, part).is_some()
}

/// Whether the list at this place has a value. Takes no memory.
fn has_value(lists: &Lists, list: u32, value: &Value) -> bool
    requires { list < length lists.now }
    ensures { HoldsAt (λ part. IsTrue result ↔ HasValue part value.now) lists.now list }
{
    match (lists.parts()[list as usize].kind, value) {
        (Basic::Text, Value::Text(text)) => lists.has_text(list, text.bytes()),
        (Basic::Addr, Value::Addr(addr)) => lists.has_addr(list, *addr),
        _ => false,
    }
}

/// Whether a value passes a test.
pub(crate) fn is_passed(
    alloc: Global,
    lists: &Lists,
    test: &BuiltTest,
    value: &Value,
) -> Result<bool, Memory>
    requires { is_placed (list_kinds_of lists.now) test.now ≡ true }
    ensures { IfOk result (IsPassed lists.now test.now value.now) }
{
    match test {
        BuiltTest::Order(order, lit) => Ok(is_ordered(*order, lit, value)),
        BuiltTest::Contains(part) => Ok(text_in(value).is_some_and(|own| has_part(
            own,
            part.bytes(),
        ))),
        BuiltTest::Matches(pattern) => match text_in(value) {
            Some(own) => pattern.is_match(alloc, own),
            None => Ok(false),
        },
        BuiltTest::Wild(wildcard) => Ok(text_in(value).is_some_and(|own| wildcard.matches(
            own, false,
        ))),
        BuiltTest::StrictWild(wildcard) => {
            Ok(text_in(value).is_some_and(|own| wildcard.matches(own, true)))
        }
        BuiltTest::Among(items) => Ok(is_among(value, items.as_slice())),
        BuiltTest::Listed(list, _) => Ok(has_value(lists, *list, value)),
    }
}
