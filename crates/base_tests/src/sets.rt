use addr_set::{AddrSet, ItemFault, parse_items};
use edge_base::{Addr, Item, Text, Texts, parse_addr};
use sqlite_items::Items;
use std::test::Fail;

/// A list of these texts, divided by blanks.
fn texts(rt: &HostRuntime, words: &str) -> Result<Texts, Fail> {
    let mut texts = Items::new(rt.alloc());
    for word in words.split_whitespace() {
        texts.push(Text::of(rt.alloc(), word.as_bytes())?)?;
    }
    Ok(texts)
}

#[test]
fn the_first_bad_text_is_named(rt: HostRuntime) -> Result<(), Fail> {
    let cases = [
        (
            "10.0.0.9..10.0.0.1",
            Some(ItemFault::BackwardRange { at: 0 }),
        ),
        ("::2..::1", Some(ItemFault::BackwardRange { at: 0 })),
        ("::1..::1 10.0.0.1..10.0.0.1", None),
        ("10.0.0.0/33", Some(ItemFault::BadPrefix { at: 0 })),
        ("::/129", Some(ItemFault::BadPrefix { at: 0 })),
        ("10.0.0.0/32 ::/128 10.0.0.0/0 ::/0", None),
        ("10.0.0.1..::1", Some(ItemFault::BadAddr { at: 0 })),
        ("10.0.0.0/8 x", Some(ItemFault::BadAddr { at: 1 })),
        ("10.0.0.0/8 ::/129 x", Some(ItemFault::BadPrefix { at: 1 })),
        ("10.0.0.0/08", Some(ItemFault::BadAddr { at: 0 })),
        ("10.0.0.0/1000", Some(ItemFault::BadAddr { at: 0 })),
        ("10.0.0.0/", Some(ItemFault::BadAddr { at: 0 })),
        ("10.0.0.0/-1", Some(ItemFault::BadAddr { at: 0 })),
        ("10.0.0.0/8/8", Some(ItemFault::BadAddr { at: 0 })),
        ("1.2.3.4...1.2.3.5", Some(ItemFault::BadAddr { at: 0 })),
        ("..1.2.3.4", Some(ItemFault::BadAddr { at: 0 })),
        ("10.0.0.0/8..10.0.0.9", Some(ItemFault::BadAddr { at: 0 })),
    ];
    for (words, want) in cases {
        let texts = texts(&rt, words)?;
        assert!(rt; texts.len() < 10);
        assert_eq!(rt; parse_items(rt.alloc(), &texts).err(), want, "at {words}");
    }
    Ok(())
}

#[test]
fn a_set_has_the_addresses_of_its_items(rt: HostRuntime) -> Result<(), Fail> {
    let cases = [
        (
            "10.0.0.0/8",
            "10.0.0.0 10.1.2.3 10.255.255.255",
            "9.255.255.255 11.0.0.0 ::a00:1 ::ffff:10.0.0.1",
        ),
        (
            "10.9.8.7/8",
            "10.0.0.0 10.255.255.255",
            "9.255.255.255 11.0.0.0",
        ),
        ("0.0.0.0/0", "0.0.0.0 255.255.255.255", ":: ::ffff:1.2.3.4"),
        (
            "::/0",
            ":: ffff:ffff:ffff:ffff:ffff:ffff:ffff:ffff",
            "0.0.0.0",
        ),
        ("1.2.3.4/32", "1.2.3.4", "1.2.3.3 1.2.3.5"),
        (
            "10.0.0.0/8 2001:db8::1..2001:db8::ff",
            "10.1.2.3 2001:db8::1 2001:db8::80 2001:db8::ff",
            "2001:db8:: 2001:db8::100",
        ),
        (
            "1.0.0.5 1.0.0.1..1.0.0.2 1.0.0.3",
            "1.0.0.1 1.0.0.2 1.0.0.3 1.0.0.5",
            "1.0.0.0 1.0.0.4 1.0.0.6",
        ),
        (
            "1.0.0.1..1.0.0.9 1.0.0.2..1.0.0.3 1.0.0.7",
            "1.0.0.8 1.0.0.9",
            "1.0.0.10",
        ),
        ("::ffff:1.2.3.4", "::ffff:1.2.3.4", "1.2.3.4"),
    ];
    for (words, inside, outside) in cases {
        let texts = texts(&rt, words)?;
        assert!(rt; texts.len() < 10);
        let set = AddrSet::build(rt.alloc(), &parse_items(rt.alloc(), &texts)?)?;
        for word in inside.split_whitespace() {
            let addr = parse_addr(word.as_bytes()).ok_or("no address")?;
            assert!(rt; set.has(addr), "{word} in {words}");
        }
        for word in outside.split_whitespace() {
            let addr = parse_addr(word.as_bytes()).ok_or("no address")?;
            assert!(rt; !set.has(addr), "{word} not in {words}");
        }
    }
    Ok(())
}

fn is_shared<T: Send + Sync>(_value: &T) {}

#[test]
fn threads_share_a_set(rt: HostRuntime) -> Result<(), Fail> {
    is_shared(&AddrSet::build(rt.alloc(), &Items::new(rt.alloc()))?);
    Ok(())
}
