ghost use Rattle.std.specs.Prelude.{◌≡◌, [], ◌∷◌, ◌++◌, IfOk};
ghost use Rattle.expr_parser.specs.Testing.{text_test, at_order, at_text, at_strict, at_in, item_at, at_items, at_number, at_address, at_number_to, at_address_to, test_step};

use edge_base::{Addr, Item, ListedItems, Lit, Memory, Order, Terminal, Test, Text};
use sqlite_items::Items;
use std::alloc::Global;

/// The four tests of a text.
#[derive(Clone, Copy, Debug, PartialEq, Eq)]
pub enum TextTest {
    Contains,
    Matches,
    Wild,
    StrictWild,
}

/// A test that is under way: what is wanted next, with the items so far.
#[derive(Drop)]
pub enum Testing {
    /// A literal.
    Order(Order),
    /// A text.
    Text(TextTest),
    /// `wildcard`.
    Strict,
    /// A list's name, or `{`.
    In,
    /// The first item.
    FirstItem,
    /// An item, or `}`.
    Items(ListedItems),
    /// As `Items`, or `..` behind this number.
    Number(ListedItems, i64),
    /// As `Items`, or `..` behind this address.
    Address(ListedItems, Addr),
    /// The range's last number.
    NumberTo(ListedItems, i64),
    /// The range's last address.
    AddressTo(ListedItems, Addr),
}

/// A test that goes on, or one that is whole.
#[derive(Drop)]
pub enum Tested {
    Part(Testing),
    Whole(Test),
}

fn text_test(kind: TextTest, text: Text) -> Test
    ensures { result ≡ text_test kind text }
{
    match kind {
        TextTest::Contains => Test::Contains(text),
        TextTest::Matches => Test::Matches(text),
        TextTest::Wild => Test::Wild(text),
        TextTest::StrictWild => Test::StrictWild(text),
    }
}

fn at_order(terminal: Terminal, order: Order) -> Option<Tested>
    ensures { result ≡ at_order terminal order }
{
    match terminal {
        Terminal::Text(text) => Some(Tested::Whole(Test::Order(order, Lit::Text(text)))),
        Terminal::Number(number) => Some(Tested::Whole(Test::Order(order, Lit::Num(number)))),
        Terminal::Address(addr) => Some(Tested::Whole(Test::Order(order, Lit::Addr(addr)))),
        _ => None,
    }
}

fn at_text(terminal: Terminal, kind: TextTest) -> Option<Tested>
    ensures { result ≡ at_text terminal kind }
{
    match terminal {
        Terminal::Text(text) => Some(Tested::Whole(text_test(kind, text))),
        _ => None,
    }
}

fn at_strict(terminal: Terminal) -> Option<Tested>
    ensures { result ≡ at_strict terminal }
{
    match terminal {
        Terminal::Wildcard => Some(Tested::Part(Testing::Text(TextTest::StrictWild))),
        _ => None,
    }
}

fn at_in(terminal: Terminal) -> Option<Tested>
    ensures { result ≡ at_in terminal }
{
    match terminal {
        Terminal::ListName(name) => Some(Tested::Whole(Test::Listed(name))),
        Terminal::OpenItems => Some(Tested::Part(Testing::FirstItem)),
        _ => None,
    }
}

/// An item begins.
fn item_at(terminal: Terminal, items: ListedItems) -> Result<Option<Tested>, Memory>
    ensures { IfOk result (λ next. next ≡ item_at terminal items) }
{
    let mut items = items;
    match terminal {
        Terminal::Text(text) => {
            items.push(Item::One(Lit::Text(text)))?;
            Ok(Some(Tested::Part(Testing::Items(items))))
        }
        Terminal::Block(addr, bits) => {
            items.push(Item::Block(addr, bits))?;
            Ok(Some(Tested::Part(Testing::Items(items))))
        }
        Terminal::Number(number) => Ok(Some(Tested::Part(Testing::Number(items, number)))),
        Terminal::Address(addr) => Ok(Some(Tested::Part(Testing::Address(items, addr)))),
        _ => Ok(None),
    }
}

/// Behind an item that is whole.
fn at_items(terminal: Terminal, items: ListedItems) -> Result<Option<Tested>, Memory>
    ensures { IfOk result (λ next. next ≡ at_items terminal items) }
{
    match terminal {
        Terminal::CloseItems => Ok(Some(Tested::Whole(Test::Among(items)))),
        other => item_at(other, items),
    }
}

fn at_number(terminal: Terminal, items: ListedItems, number: i64) -> Result<Option<Tested>, Memory>
    ensures { IfOk result (λ next. next ≡ at_number terminal items number) }
{
    match terminal {
        Terminal::To => Ok(Some(Tested::Part(Testing::NumberTo(items, number)))),
        other => {
            let mut items = items;
            items.push(Item::One(Lit::Num(number)))?;
            at_items(other, items)
        }
    }
}

fn at_address(terminal: Terminal, items: ListedItems, addr: Addr) -> Result<Option<Tested>, Memory>
    ensures { IfOk result (λ next. next ≡ at_address terminal items addr) }
{
    match terminal {
        Terminal::To => Ok(Some(Tested::Part(Testing::AddressTo(items, addr)))),
        other => {
            let mut items = items;
            items.push(Item::One(Lit::Addr(addr)))?;
            at_items(other, items)
        }
    }
}

fn at_number_to(
    terminal: Terminal,
    items: ListedItems,
    first: i64,
) -> Result<Option<Tested>, Memory>
    ensures { IfOk result (λ next. next ≡ at_number_to terminal items first) }
{
    match terminal {
        Terminal::Number(last) => {
            let mut items = items;
            items.push(Item::Nums(first, last))?;
            Ok(Some(Tested::Part(Testing::Items(items))))
        }
        _ => Ok(None),
    }
}

fn at_address_to(
    terminal: Terminal,
    items: ListedItems,
    first: Addr,
) -> Result<Option<Tested>, Memory>
    ensures { IfOk result (λ next. next ≡ at_address_to terminal items first) }
{
    match terminal {
        Terminal::Address(last) => {
            let mut items = items;
            items.push(Item::Addrs(first, last))?;
            Ok(Some(Tested::Part(Testing::Items(items))))
        }
        _ => Ok(None),
    }
}

/// What a test under way becomes by the next terminal, or None where it can't go on so.
pub fn test_step(
    alloc: Global,
    testing: Testing,
    terminal: Terminal,
) -> Result<Option<Tested>, Memory>
    ensures { IfOk result (λ next. next ≡ test_step testing terminal) }
{
    match testing {
        Testing::Order(order) => Ok(at_order(terminal, order)),
        Testing::Text(kind) => Ok(at_text(terminal, kind)),
        Testing::Strict => Ok(at_strict(terminal)),
        Testing::In => Ok(at_in(terminal)),
        Testing::FirstItem => item_at(terminal, Items::new(alloc)),
        Testing::Items(items) => at_items(terminal, items),
        Testing::Number(items, number) => at_number(terminal, items, number),
        Testing::Address(items, addr) => at_address(terminal, items, addr),
        Testing::NumberTo(items, first) => at_number_to(terminal, items, first),
        Testing::AddressTo(items, first) => at_address_to(terminal, items, first),
    }
}
