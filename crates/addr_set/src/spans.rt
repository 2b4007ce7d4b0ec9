ghost use Rattle.std.specs.Prelude.{◌≡◌, ◌≤◌};
ghost use Rattle.edge_base.specs.declared.address.Addr.{Addr};
ghost use Rattle.addr_set.specs.Sets.{width_of, IsRange, IsAddrItem, holds};
ghost use Rattle.edge_base.specs.Ranges.{is_from_to, shares_bits};
ghost use Rattle.addr_set.specs.Spans.{is_in_span};

use crate::intervals::Interval;
use edge_base::{Addr, Item, Lit};

/// An interval of a family.
#[derive(Clone, Copy, Debug)]
pub enum Span {
    V4(Interval),
    V6(Interval),
}

fn range(first: Addr, last: Addr) -> Span
    requires { IsRange first last }
    ensures { (address : Addr) → is_in_span result address ≡ is_from_to first last address }
{
    match (first, last) {
        (Addr::V4(first), Addr::V4(last)) => Span::V4(Interval {
            first: u128::from(first),
            last: u128::from(last),
        }),
        (Addr::V6(first), Addr::V6(last)) => Span::V6(Interval { first, last }),
        _ => unreachable!(),
    }
}

fn block(one: Addr, bits: u16) -> Span
    requires { bits ≤ width_of one }
    ensures { (address : Addr) → is_in_span result address ≡ shares_bits one bits address }
{
    match one {
        Addr::V4(number) => Span::V4(Interval::block(u128::from(number), 32 - u32::from(bits))),
        Addr::V6(number) => Span::V6(Interval::block(number, 128 - u32::from(bits))),
    }
}

/// The addresses of an item.
pub fn span_of(item: &Item) -> Span
    requires { IsAddrItem item.now }
    ensures { (address : Addr) → is_in_span result address ≡ holds item.now address }
{
    match item {
        Item::One(Lit::Addr(one)) => range(*one, *one),
        Item::Addrs(first, last) => range(*first, *last),
        Item::Block(one, bits) => block(*one, *bits),
        _ => unreachable!(),
    }
}
