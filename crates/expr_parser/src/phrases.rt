ghost use Rattle.std.specs.Prelude.{◌≡◌, ◌==◌, ◌||◌, cond, [], ◌∷◌, ◌++◌, OnOk};
ghost use Rattle.edge_base.specs.Address.{addr_text};
ghost use Rattle.expr_parser.specs.Spelling.{escaped_text, quoted, lit_spelling, order_word, item_spelling, items_spelling, test_spelling};

use edge_base::{Addr, Item, Lit, Memory, Order, Test, TextBuilder, print_addr};
use std::alloc::Global;

/// One byte of a text in quotes.
fn push_escaped(out: &mut TextBuilder, byte: u8) -> Result<(), Memory>
    ensures { OnOk result (out.new ≡ out.old ++ cond (byte == 34 || byte == 92) (92 ∷ byte ∷ []) (byte ∷ [])) }
{
    if byte == b'"' || byte == b'\\' {
        return out.push(&[b'\\', byte]);
    }
    out.push(&[byte])
}

fn push_escaped_text(out: &mut TextBuilder, text: &[u8]) -> Result<(), Memory>
    ensures { OnOk result (out.new ≡ out.old ++ escaped_text text.now) }
{
    for &byte in text {
        push_escaped(out, byte)?;
    }
    Ok(())
}

/// A text in quotes.
pub fn push_quoted(out: &mut TextBuilder, text: &[u8]) -> Result<(), Memory>
    ensures { OnOk result (out.new ≡ out.old ++ quoted text.now) }
{
    out.push(b"\"")?;
    push_escaped_text(out, text)?;
    out.push(b"\"")
}

fn push_addr(alloc: Global, out: &mut TextBuilder, addr: Addr) -> Result<(), Memory>
    ensures { OnOk result (out.new ≡ out.old ++ addr_text addr) }
{
    let text = print_addr(alloc, addr)?;
    out.push(text.bytes())
}

pub fn push_lit(alloc: Global, out: &mut TextBuilder, lit: &Lit) -> Result<(), Memory>
    ensures { OnOk result (out.new ≡ out.old ++ lit_spelling lit.now) }
{
    match lit {
        Lit::Text(text) => push_quoted(out, text.bytes()),
        Lit::Num(number) => out.push_signed(*number),
        Lit::Addr(addr) => push_addr(alloc, out, *addr),
        Lit::Bool(true) => out.push(b"true"),
        Lit::Bool(false) => out.push(b"false"),
    }
}

fn push_order(out: &mut TextBuilder, order: Order) -> Result<(), Memory>
    ensures { OnOk result (out.new ≡ out.old ++ order_word order) }
{
    match order {
        Order::Eq => out.push(b"eq"),
        Order::Ne => out.push(b"ne"),
        Order::Lt => out.push(b"lt"),
        Order::Le => out.push(b"le"),
        Order::Gt => out.push(b"gt"),
        Order::Ge => out.push(b"ge"),
    }
}

fn push_item(alloc: Global, out: &mut TextBuilder, item: &Item) -> Result<(), Memory>
    ensures { OnOk result (out.new ≡ out.old ++ item_spelling item.now) }
{
    match item {
        Item::One(lit) => push_lit(alloc, out, lit),
        Item::Nums(first, last) => {
            out.push_signed(*first)?;
            out.push(b"..")?;
            out.push_signed(*last)
        }
        Item::Addrs(first, last) => {
            push_addr(alloc, out, *first)?;
            out.push(b"..")?;
            push_addr(alloc, out, *last)
        }
        Item::Block(addr, bits) => {
            push_addr(alloc, out, *addr)?;
            out.push(b"/")?;
            out.push_number(u64::from(*bits))
        }
    }
}

fn push_items(alloc: Global, out: &mut TextBuilder, items: &[Item]) -> Result<(), Memory>
    ensures { OnOk result (out.new ≡ out.old ++ items_spelling items.now) }
{
    for item in items {
        push_item(alloc, out, item)?;
        out.push(b" ")?;
    }
    Ok(())
}

/// A word and a text in quotes.
fn push_text_test(out: &mut TextBuilder, word: &[u8], text: &[u8]) -> Result<(), Memory>
    ensures { OnOk result (out.new ≡ out.old ++ (word.now ++ quoted text.now)) }
{
    out.push(word)?;
    push_quoted(out, text)
}

pub fn push_test(alloc: Global, out: &mut TextBuilder, test: &Test) -> Result<(), Memory>
    ensures { OnOk result (out.new ≡ out.old ++ test_spelling test.now) }
{
    match test {
        Test::Order(order, lit) => {
            push_order(out, *order)?;
            out.push(b" ")?;
            push_lit(alloc, out, lit)
        }
        Test::Contains(text) => push_text_test(out, b"contains ", text.bytes()),
        Test::Matches(text) => push_text_test(out, b"matches ", text.bytes()),
        Test::Wild(text) => push_text_test(out, b"wildcard ", text.bytes()),
        Test::StrictWild(text) => push_text_test(out, b"strict wildcard ", text.bytes()),
        Test::Among(items) => {
            out.push(b"in { ")?;
            push_items(alloc, out, items.as_slice())?;
            out.push(b"}")
        }
        Test::Listed(name) => {
            out.push(b"in $")?;
            out.push(name.bytes())
        }
    }
}
