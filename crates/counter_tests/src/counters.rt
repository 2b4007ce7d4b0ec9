ghost use Rattle.std.specs.Prelude.{◌≡◌, ◌≤◌, ◌<◌, All, length, IfOk, OnOk};
ghost use Rattle.rate_shared.specs.Callers.{shape_of, IsOf};

use edge_base::{Memory, Moment, RuleName, Text};
use rate_plain::{Answer, Ask, Counted, Key, PlainCounter, StepFault, Tally, lane_of};
use rate_shared::{Counters, Seen, Seens, callers_are_sent, counters_are_shared};
use sqlite_items::Items;
use std::alloc::Global;
use std::hash::RandomState;
use std::process::Abort;
use std::sync::Wait;
use std::sync::atomic::AtomicBool;
use std::sync::atomic::Ordering::SeqCst;
use std::test::Fail;
use std::thread;
use std::thread::Threads;

/// A key of the rule `rl/r1`, 1 in 10 s with a timeout of 10 s, of an address that ends so.
fn key(alloc: Global, last: u8) -> Result<Key, Memory> {
    let rule = RuleName {
        set_id: Text::of(alloc, b"rl")?,
        rule: Text::of(alloc, b"r1")?,
    };
    let values = Text::of(alloc, &[3, 0, 0, 0, 4, 10, 0, 0, last])?;
    Ok(Key {
        rule,
        period: 10_000,
        threshold: 1,
        timeout: 10_000,
        values,
    })
}

fn keys(alloc: Global, count: u8) -> Result<Items<Key>, Memory> {
    let mut keys = Items::new(alloc);
    for last in 0..count {
        keys.push(key(alloc, last)?)?;
    }
    Ok(keys)
}

fn ask(alloc: Global, key: &Key, asked: u64, adds: bool) -> Result<Ask, Memory> {
    let Some(asked) = Moment::of(asked) else {
        return Err(Memory);
    };
    let key = key.copy(alloc)?;
    Ok(Ask { key, asked, adds })
}

/// Counters of so many lanes, with room for 8 live keys each, and so many callers.
fn counters_of(
    alloc: Global,
    hasher: RandomState,
    lanes: u32,
    callers: u32,
) -> Result<(Counters, Seens), Memory>
    requires lanes { (1 ≤ lanes) × (lanes ≤ 1024) }
    requires callers { (1 ≤ callers) × (callers ≤ 1024) }
    ensures of { IfOk result (λ made. All (IsOf made.0) made.1.items) }
    ensures lanes { IfOk result (λ made. (shape_of made.0).lanes ≡ lanes) }
{
    let hashers = Vec::from_elem(alloc, hasher, lanes as usize)?;
    let made = Counters::new(alloc, 8, callers, hashers)?;
    Ok(made)
}

/// The last of the callers.
fn last(counters: &Counters, seens: &mut Seens) -> Result<Seen, Memory>
    requires { All (IsOf counters.now) seens.old.items }
    ensures of { IfOk result (IsOf counters.now) }
    ensures others { All (IsOf counters.now) seens.new.items }
{
    let Some(seen) = seens.pop() else {
        return Err(Memory);
    };
    Ok(seen)
}

#[test]
fn a_late_step_counts_at_the_moment_of_its_lane(rt: HostRuntime) -> Result<(), Fail> {
    let alloc = rt.alloc();
    let (counters, mut seens) = counters_of(alloc, RandomState::new(&rt)?, 64, 1)?;
    let mut seen = last(&counters, &mut seens)?;
    let key = key(alloc, 1)?;
    let first = counters.step(&rt, alloc, &mut seen, &ask(alloc, &key, 5_000, true)?)?;
    assert!(rt;
        first
            == Counted {
                position: 0,
                answer: Answer::Pass
            }
    );
    let late = counters.step(&rt, alloc, &mut seen, &ask(alloc, &key, 3_000, true)?)?;
    let over = Answer::Over { until: 15_000 };
    assert!(rt;
        late == Counted {
            position: 1,
            answer: over
        }
    );
    assert_eq!(rt; seen.taken(), 2);
    Ok(())
}

/// A step of a walk: its caller, the place of its key, what it asked, and what it was told.
#[derive(Clone, Copy)]
struct Stepped {
    caller: u32,
    key: usize,
    asked: u64,
    adds: bool,
    counted: Counted,
}

type Walked = Items<Stepped>;

/// The next of a row of numbers that show no order.
fn next(number: u64) -> u64 {
    number
        .wrapping_mul(6_364_136_223_846_793_005)
        .wrapping_add(1_442_695_040_888_963_407)
}

/// One step of the caller: adding in three of four, and late in many.
fn step<R: Wait>(
    rt: &R,
    alloc: Global,
    counters: &Counters,
    keys: &[Key],
    seen: &mut Seen,
    place: u32,
    number: u64,
) -> Result<Stepped, StepFault>
    requires keys { 0 < length keys.now }
    requires of { IsOf counters.now seen.old }
    ensures of { IsOf counters.now seen.new }
{
    let key = (number >> 45) as usize % keys.len();
    let asked = place as u64 * 40 + (number >> 34) % 8 * 250;
    let adds = (number >> 40) % 4 > 0;
    let ask = ask(alloc, &keys[key], asked, adds)?;
    let counted = counters.step(rt, alloc, seen, &ask)?;
    Ok(Stepped {
        caller: seen.caller(),
        key,
        asked,
        adds,
        counted,
    })
}

/// Takes so many steps of one caller.
fn walk<R: Wait>(
    rt: &R,
    alloc: Global,
    counters: &Counters,
    keys: &[Key],
    mut seen: Seen,
    steps: u32,
) -> Result<Walked, StepFault>
    requires keys { 0 < length keys.now }
    requires of { IsOf counters.now seen }
{
    let mut walked = Items::new(alloc);
    let mut number = seen.caller() as u64;
    for place in 0..steps {
        number = next(number);
        let stepped = step(rt, alloc, counters, keys, &mut seen, place, number)?;
        walked.push(stepped)?;
    }
    Ok(walked)
}

/// Puts the steps of a walk in a row, each at its position, where no other stands.
fn put(rt: &impl Abort, row: &mut Vec<Option<Stepped>>, walked: &[Stepped]) {
    for stepped in walked {
        let position = stepped.counted.position as usize;
        assert!(rt; position < row.len());
        assert!(rt; row[position].is_none());
        row[position] = Some(*stepped);
    }
}

/// Takes the steps of a row in turn on the plain counter, each as it was told.
fn replay(
    rt: &impl Abort,
    alloc: Global,
    plain: &mut PlainCounter,
    keys: &[Key],
    row: &[Option<Stepped>],
) -> Result<(), StepFault> {
    for stepped in row {
        let Some(stepped) = stepped else {
            return Err(StepFault::Memory);
        };
        assert!(rt; stepped.key < keys.len());
        let ask = ask(alloc, &keys[stepped.key], stepped.asked, stepped.adds)?;
        let told = plain.step(alloc, stepped.caller, &ask)?;
        assert_eq!(rt; stepped.counted.answer, told);
    }
    Ok(())
}

/// Takes so many steps of each caller, in a thread of its own, and tells all in the order of their positions.
fn walk_all<R: Wait + Threads + Sync + Abort>(
    rt: &R,
    alloc: Global,
    counters: &Counters,
    seens: Seens,
    keys: &[Key],
    steps: u32,
) -> Result<Vec<Option<Stepped>>, StepFault>
    requires { All (IsOf counters.now) seens.items }
{
    assert!(rt; !keys.is_empty());
    let count = seens.len().saturating_mul(steps as usize);
    let walks = thread::map_vec(
        rt,
        seens,
        &|seen| walk(rt, alloc, counters, keys, seen, steps),
    )?;
    let mut row = Vec::from_elem(alloc, None, count)?;
    for walked in walks {
        put(rt, &mut row, walked?.as_slice());
    }
    Ok(row)
}

#[test]
fn two_callers_share_one_key(rt: HostRuntime) -> Result<(), Fail> {
    let alloc = rt.alloc();
    let keys = keys(alloc, 1)?;
    let (counters, seens) = counters_of(alloc, RandomState::new(&rt)?, 64, 2)?;
    let row = walk_all(&rt, alloc, &counters, seens, keys.as_slice(), 500)?;
    let mut plain = PlainCounter::new(alloc, 64, 8);
    replay(&rt, alloc, &mut plain, keys.as_slice(), row.as_slice())?;
    Ok(())
}

#[test]
fn ten_thousand_steps_of_four_callers_share_eight_keys(rt: HostRuntime) -> Result<(), Fail> {
    let alloc = rt.alloc();
    let keys = keys(alloc, 8)?;
    let (counters, seens) = counters_of(alloc, RandomState::new(&rt)?, 4, 4)?;
    counters_are_shared(&counters);
    let row = walk_all(&rt, alloc, &counters, seens, keys.as_slice(), 2_500)?;
    let mut plain = PlainCounter::new(alloc, 4, 8);
    replay(&rt, alloc, &mut plain, keys.as_slice(), row.as_slice())?;
    Ok(())
}

/// Waits until it is raised, for at most 1,000,000,000 turns.
fn waits(raised: &AtomicBool) -> bool {
    for _ in 0..1_000_000_000u32 {
        if raised.load(SeqCst) {
            return true;
        }
        thread::yield_now();
    }
    false
}

/// One step of the caller, which it then tells of.
fn step_and_tell<R: Wait>(
    rt: &R,
    alloc: Global,
    counters: &Counters,
    mut seen: Seen,
    ask: &Ask,
    raised: &AtomicBool,
) -> Result<Counted, StepFault>
    requires { IsOf counters.now seen }
{
    let counted = counters.step(rt, alloc, &mut seen, ask)?;
    raised.store(true, SeqCst);
    Ok(counted)
}

/// A key of this lane of two.
fn key_of(alloc: Global, lane: u32) -> Result<Key, Memory> {
    for last in 0..=255u8 {
        let key = key(alloc, last)?;
        if lane_of(&key, 2) == lane {
            return Ok(key);
        }
    }
    Err(Memory)
}

#[test]
fn a_held_lane_holds_no_other(rt: HostRuntime) -> Result<(), Fail> {
    let alloc = rt.alloc();
    let (counters, mut seens) = counters_of(alloc, RandomState::new(&rt)?, 2, 2)?;
    let (holder, other) = (last(&counters, &mut seens)?, last(&counters, &mut seens)?);
    let ask = ask(alloc, &key_of(alloc, 1)?, 0, true)?;
    let raised = AtomicBool::new(false);
    let held = counters.hold(&rt, holder, 0);
    let (told, counted) = thread::join(
        &rt,
        || waits(&raised),
        || step_and_tell(&rt, alloc, &counters, other, &ask, &raised),
    );
    assert!(rt; told);
    assert!(rt;
        counted?
            == Counted {
                position: 0,
                answer: Answer::Pass
            }
    );
    let mut holder = counters.release(held);
    assert_eq!(rt; counters.catch_up(&mut holder), 1);
    Ok(())
}

/// One more caller among these.
fn add(counters: &Counters, seens: &mut Seens, seen: Seen) -> Result<(), Memory>
    requires others { All (IsOf counters.now) seens.old.items }
    requires of { IsOf counters.now seen }
    ensures { OnOk result (All (IsOf counters.now) seens.new.items) }
{
    seens.push(seen)?;
    Ok(())
}

/// The second caller holds lane 1 for a moment, and meets a note of the first.
fn hold_and_meet<R: Wait + Abort>(
    rt: &R,
    counters: &Counters,
    first: &mut Seen,
    second: Seen,
) -> Seen
    requires lanes { 1 < (shape_of counters.now).lanes }
    requires first { IsOf counters.now first.old }
    requires second { IsOf counters.now second }
    ensures first { IsOf counters.now first.new }
    ensures second { IsOf counters.now result }
{
    let note = counters.note(first);
    let held = counters.hold(rt, second, 1);
    callers_are_sent(first, &note, &held);
    let mut second = counters.release(held);
    assert_eq!(rt; counters.meet(&mut second, note), 1);
    second
}

/// Ends the counters: first without this caller, and then with it.
fn end(rt: &impl Abort, counters: Counters, seens: Seens, missing: Seen) -> Result<(), Memory>
    requires of { All (IsOf counters) seens.items }
    requires missing { IsOf counters missing }
{
    let Err((counters, mut seens)) = counters.close(seens) else {
        return Err(Memory);
    };
    add(&counters, &mut seens, missing)?;
    let Ok(totals) = counters.close(seens) else {
        return Err(Memory);
    };
    assert_eq!(rt; totals.history, 3);
    assert_eq!(rt; totals.own.as_slice(), [2u64, 1].as_slice());
    Ok(())
}

#[test]
fn all_callers_come_back(rt: HostRuntime) -> Result<(), Fail> {
    let alloc = rt.alloc();
    let (counters, mut seens) = counters_of(alloc, RandomState::new(&rt)?, 2, 2)?;
    let (mut first, second) = (last(&counters, &mut seens)?, last(&counters, &mut seens)?);
    let ask = ask(alloc, &key_of(alloc, 0)?, 0, true)?;
    counters.step(&rt, alloc, &mut first, &ask)?;
    let mut second = hold_and_meet(&rt, &counters, &mut first, second);
    counters.step(&rt, alloc, &mut second, &ask)?;
    counters.step(&rt, alloc, &mut second, &ask)?;
    add(&counters, &mut seens, second)?;
    end(&rt, counters, seens, first)?;
    Ok(())
}
