ghost use Rattle.std.specs.Prelude.{◌≡◌, ℕ, ◌<◌, length, IfOk};
ghost use Rattle.std.specs.List.{All};
ghost use Rattle.list_store.specs.Parts.{IsListKind};

use edge_base::{Addr, Text, Texts, parse_addr};
use edge_fields::Basic;
use list_store::{ListFault, ListPart, ListParts, Lists};
use sqlite_items::Items;
use std::alloc::Global;
use std::test::Fail;

/// A list of addresses or of texts, its items divided by blanks.
fn part_of(alloc: Global, name: &str, of_addrs: bool, words: &str) -> Result<ListPart, Fail>
    ensures { IfOk result (λ part. IsListKind part.kind) }
{
    let name = Text::of(alloc, name.as_bytes())?;
    let mut items = Items::new(alloc);
    for word in words.split_whitespace() {
        items.push(Text::of(alloc, word.as_bytes())?)?;
    }
    if of_addrs {
        Ok(ListPart {
            name,
            kind: Basic::Addr,
            items,
        })
    } else {
        Ok(ListPart {
            name,
            kind: Basic::Text,
            items,
        })
    }
}

/// Two lists.
fn two(alloc: Global, one: ListPart, other: ListPart) -> Result<ListParts, Fail>
    requires one { IsListKind one.kind }
    requires other { IsListKind other.kind }
    ensures few { IfOk result (λ parts. length parts ≡ 2) }
    ensures kinds { IfOk result (All (λ part. IsListKind part.kind)) }
{
    let mut parts = Items::new(alloc);
    parts.push(one)?;
    parts.push(other)?;
    Ok(parts)
}

#[test]
fn the_first_fault_is_named(rt: HostRuntime) -> Result<(), Fail> {
    let alloc = rt.alloc();
    let cases = [
        (
            "office",
            true,
            "10.0.0.0/8 x",
            "names",
            false,
            "a",
            Some(ListFault::BadListItem { list: 0, at: 1 }),
        ),
        ("office", true, "10.0.0.0/8", "names", false, "x a", None),
        (
            "office",
            true,
            "10.0.0.0/8",
            "office",
            true,
            "x",
            Some(ListFault::DuplicateList { list: 1 }),
        ),
        (
            "office",
            true,
            "x",
            "office",
            true,
            "y",
            Some(ListFault::BadListItem { list: 0, at: 0 }),
        ),
        (
            "a",
            true,
            "10.0.0.0/8",
            "b",
            true,
            "::1 ::2..::1",
            Some(ListFault::BadListItem { list: 1, at: 1 }),
        ),
        (
            "a",
            true,
            "10.0.0.0/33",
            "b",
            true,
            "::1",
            Some(ListFault::BadListItem { list: 0, at: 0 }),
        ),
        ("a", true, "", "b", false, "", None),
    ];
    for (one, one_addrs, one_words, other, other_addrs, other_words, want) in cases {
        let one = part_of(alloc, one, one_addrs, one_words)?;
        let other = part_of(alloc, other, other_addrs, other_words)?;
        assert_eq!(rt;
            Lists::build(alloc, two(alloc, one, other)?).err(),
            want,
            "{one_words} {other_words}"
        );
    }
    Ok(())
}

/// This many copies of a text.
fn copies(alloc: Global, word: &str, count: u32) -> Result<Texts, Fail> {
    let mut items = Items::new(alloc);
    for _ in 0..count {
        items.push(Text::of(alloc, word.as_bytes())?)?;
    }
    Ok(items)
}

#[test]
fn too_many_items_come_before_a_bad_item(rt: HostRuntime) -> Result<(), Fail> {
    let alloc = rt.alloc();
    let many = ListPart {
        name: Text::of(alloc, b"many")?,
        kind: Basic::Addr,
        items: copies(alloc, "x", 50_001)?,
    };
    let few = ListPart {
        name: Text::of(alloc, b"few")?,
        kind: Basic::Text,
        items: copies(alloc, "x", 50_000)?,
    };
    assert_eq!(rt;
        Lists::build(alloc, two(alloc, few, many)?).err(),
        Some(ListFault::TooManyItems { list: 1 })
    );
    Ok(())
}

#[test]
fn a_list_has_what_its_items_say(rt: HostRuntime) -> Result<(), Fail> {
    let alloc = rt.alloc();
    let office = part_of(
        alloc,
        "office",
        true,
        "10.0.0.0/8 2001:db8::1..2001:db8::ff",
    )?;
    let names = part_of(alloc, "names", false, "a b a")?;
    let lists = Lists::build(alloc, two(alloc, office, names)?)?;
    assert_eq!(rt; lists.parts().len(), 2);
    let office_is_there = lists.parts()[0].kind == Basic::Addr;
    assert!(rt; office_is_there);
    for (word, want) in [
        ("10.1.2.3", true),
        ("2001:db8::80", true),
        ("2001:db8::100", false),
        ("11.0.0.0", false),
    ] {
        let addr = parse_addr(word.as_bytes()).ok_or("no address")?;
        assert_eq!(rt; lists.has_addr(0, addr), want, "{word}");
    }
    let names_is_there = lists.parts()[1].kind == Basic::Text;
    assert!(rt; names_is_there);
    for (word, want) in [
        ("a", true),
        ("A", false),
        ("b", true),
        ("", false),
        ("ab", false),
    ] {
        assert_eq!(rt; lists.has_text(1, word.as_bytes()), want, "{word}");
    }
    Ok(())
}

fn is_shared<T: Send + Sync>(_value: &T) {}

#[test]
fn threads_share_lists(rt: HostRuntime) -> Result<(), Fail> {
    let alloc = rt.alloc();
    let parts = two(
        alloc,
        part_of(alloc, "a", true, "")?,
        part_of(alloc, "b", false, "")?,
    )?;
    is_shared(&Lists::build(alloc, parts)?);
    Ok(())
}
