use edge_base::{Memory, Text, Texts};
use override_plan::{Effective, NamedOverrides, Override, Overrides, Plain, effective};
use sqlite_items::Items;
use std::alloc::Global;
use std::process::Abort;
use std::test::Fail;

/// Says nothing.
const NOTHING: Override = Override {
    enabled: None,
    action: None,
};

const DISABLED: Override = Override {
    enabled: Some(false),
    action: None,
};

const ENABLED: Override = Override {
    enabled: Some(true),
    action: None,
};

const LOG: Override = Override {
    enabled: None,
    action: Some(Plain::Log),
};

const BLOCK: Override = Override {
    enabled: None,
    action: Some(Plain::Block),
};

const DISABLED_LOG: Override = Override {
    enabled: Some(false),
    action: Some(Plain::Log),
};

/// What is said of the rules with a tag, or of the rule with an id.
type Entry = (&'static [u8], Override);

fn entries_of(alloc: Global, entries: &[Entry]) -> Result<NamedOverrides, Memory> {
    let mut named = Items::new(alloc);
    for (name, said) in entries {
        named.push((Text::of(alloc, name)?, *said))?;
    }
    Ok(named)
}

fn overrides_of(
    alloc: Global,
    whole: Override,
    tags: &[Entry],
    rules: &[Entry],
) -> Result<Overrides, Memory> {
    Ok(Overrides {
        whole,
        tags: entries_of(alloc, tags)?,
        rules: entries_of(alloc, rules)?,
    })
}

fn tags_of(alloc: Global, tags: &[&[u8]]) -> Result<Texts, Memory> {
    let mut texts = Items::new(alloc);
    for tag in tags {
        texts.push(Text::of(alloc, tag)?)?;
    }
    Ok(texts)
}

/// A rule's id and tags, whether it is enabled and what it does, and the same under the overrides.
type Row = (
    &'static [u8],
    &'static [&'static [u8]],
    bool,
    Plain,
    bool,
    Plain,
);

/// Each rule is as its row says, under the overrides and under a copy of them.
fn decides(
    rt: &impl Abort,
    alloc: Global,
    overrides: &Overrides,
    rows: &[Row],
) -> Result<(), Memory> {
    let copy = overrides.copy(alloc)?;
    for &(id, tags, enabled, action, then_enabled, then_action) in rows {
        let id = Text::of(alloc, id)?;
        let tags = tags_of(alloc, tags)?;
        let expected = Effective {
            enabled: then_enabled,
            action: then_action,
        };
        assert_eq!(rt; effective(overrides, &id, &tags, enabled, action), expected);
        assert_eq!(rt; effective(&copy, &id, &tags, enabled, action), expected);
    }
    Ok(())
}

const MANAGED: [Row; 3] = [
    (b"r2", &[], true, Plain::ManagedChallenge, false, Plain::Log),
    (b"r3", &[], true, Plain::ManagedChallenge, true, Plain::Log),
    (
        b"r1",
        &[b"sql"],
        true,
        Plain::ManagedChallenge,
        true,
        Plain::Block,
    ),
];

#[test]
fn a_tag_comes_before_the_whole(rt: HostRuntime) -> Result<(), Fail> {
    let alloc = rt.alloc();
    let managed = overrides_of(alloc, LOG, &[(b"sql", BLOCK)], &[(b"r2", DISABLED)])?;
    decides(&rt, alloc, &managed, &MANAGED)?;
    Ok(())
}

const UNTOUCHED: [Row; 3] = [
    (b"r1", &[], true, Plain::Other, false, Plain::Other),
    (b"r2", &[b"sql"], false, Plain::Other, true, Plain::Other),
    (b"r3", &[b"SQL", b"sq"], true, Plain::Log, false, Plain::Log),
];

#[test]
fn an_action_that_is_not_plain_stays(rt: HostRuntime) -> Result<(), Fail> {
    let alloc = rt.alloc();
    let overrides = overrides_of(alloc, DISABLED_LOG, &[(b"sql", ENABLED)], &[(b"r1", BLOCK)])?;
    decides(&rt, alloc, &overrides, &UNTOUCHED)?;
    Ok(())
}

const APART: [Row; 3] = [
    (b"r1", &[], false, Plain::Block, true, Plain::Log),
    (
        b"r2",
        &[b"a", b"b"],
        true,
        Plain::JsChallenge,
        false,
        Plain::Block,
    ),
    (b"r4", &[], false, Plain::Challenge, false, Plain::Challenge),
];

#[test]
fn each_part_is_given_by_the_last_entry_that_has_it(rt: HostRuntime) -> Result<(), Fail> {
    let alloc = rt.alloc();
    let tags: [Entry; 3] = [(b"b", DISABLED_LOG), (b"a", BLOCK), (b"b", NOTHING)];
    let rules: [Entry; 3] = [(b"r1", BLOCK), (b"r1", LOG), (b"r1", ENABLED)];
    let overrides = overrides_of(alloc, NOTHING, &tags, &rules)?;
    decides(&rt, alloc, &overrides, &APART)?;
    Ok(())
}
