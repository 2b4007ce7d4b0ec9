ghost use Rattle.std.specs.Prelude.{◌≡◌, ◌≤◌};
ghost use Rattle.rate_plain.specs.KeyParts.{HasRanges};
ghost use Rattle.rate_plain.specs.Keys.{key_bytes};
ghost use Rattle.rate_plain.specs.Worked.{worked_key, worked_bytes};

use edge_base::{Memory, Moment, RuleName, Text};
use rate_plain::{Answer, Ask, Key, PlainCounter, StepFault, Tally, fnv1a64, lane_of};
use sqlite_items::Items;
use std::alloc::Global;
use std::process::Abort;
use std::test::Fail;

/// `ip.src` 10.0.0.1 and 10.0.0.2 as values of a key.
const A: [u8; 9] = [3, 0, 0, 0, 4, 10, 0, 0, 1];

const B: [u8; 9] = [3, 0, 0, 0, 4, 10, 0, 0, 2];

/// The last moment: 2^53.
const LAST: u64 = 1 << 53;

/// A step: the place of its key, what it asks, whether it adds, and what it is told.
type Step = (usize, u64, bool, Answer);

/// A key of the rule `rl/r1`.
fn key(
    alloc: Global,
    values: &[u8],
    period: u64,
    threshold: u64,
    timeout: u64,
) -> Result<Key, Memory>
    requires { HasRanges period threshold timeout }
{
    let rule = RuleName {
        set_id: Text::of(alloc, b"rl")?,
        rule: Text::of(alloc, b"r1")?,
    };
    let values = Text::of(alloc, values)?;
    Ok(Key {
        rule,
        period,
        threshold,
        timeout,
        values,
    })
}

/// Takes the steps in turn, and compares what each is told.
fn takes<T: Tally>(
    rt: &impl Abort,
    alloc: Global,
    counter: &mut T,
    keys: &[Key],
    steps: &[Step],
) -> Result<(), StepFault> {
    for (place, &(key, asked, adds, told)) in steps.iter().enumerate() {
        if key < keys.len()
            && let Some(asked) = Moment::of(asked)
        {
            let ask = Ask {
                key: keys[key].copy(alloc)?,
                asked,
                adds,
            };
            may_cross_threads(&ask);
            let answer = counter.step(alloc, 0, &ask)?;
            assert_eq!(rt; answer, told, "step {place}");
        }
    }
    assert_eq!(rt; counter.length(), steps.len() as u64);
    Ok(())
}

#[test]
fn hashes_are_those_of_the_vectors(rt: HostRuntime) {
    assert_eq!(rt; fnv1a64(b""), 14_695_981_039_346_656_037);
    assert_eq!(rt; fnv1a64(b"") % 64, 37);
    assert_eq!(rt; fnv1a64(b"a"), 0xaf63_dc4c_8601_ec8c);
    assert_eq!(rt; fnv1a64(b"a") % 64, 12);
}

/// The bytes of a key of the rule `rl/r1`, 2 in 10 s with a timeout of 60 s, as they were worked out by hand.
fn bytes_are_as_worked_out()
    ensures { key_bytes worked_key ≡ worked_bytes }
{}

/// What is counted may be handed to other threads.
fn may_cross_threads<T: Send + Sync>(_value: &T) {}

#[test]
fn a_key_is_hashed_by_its_bytes(rt: HostRuntime) -> Result<(), Fail> {
    bytes_are_as_worked_out();
    let bytes =
        b"rl\0r1\0\0\0\0\0\0\0\x27\x10\0\0\0\0\0\0\0\x02\0\0\0\0\0\0\xea\x60\x03\0\0\0\x04\x0a\0\0\x01";
    assert_eq!(rt; fnv1a64(bytes) % 64, 61);
    let key = key(rt.alloc(), &A, 10_000, 2, 60_000)?;
    assert_eq!(rt; lane_of(&key, 64), 61);
    assert_eq!(rt; lane_of(&key, 1), 0);
    Ok(())
}

/// Runs the steps on a counter of so many lanes and so much room, through what every counter has.
fn run(
    rt: &impl Abort,
    alloc: Global,
    lanes: u32,
    cap: u32,
    keys: &[Key],
    steps: &[Step],
) -> Result<(), StepFault>
    requires { 1 ≤ lanes }
{
    let mut counter = PlainCounter::new(alloc, lanes, cap);
    may_cross_threads(&counter);
    takes(rt, alloc, &mut counter, keys, steps)
}

/// Keys of 2 in 10 s with a timeout of 60 s, of 1 in 10 s with none, and of the greatest numbers.
fn keys_of_limits(alloc: Global) -> Result<Items<Key>, Memory> {
    let mut keys = Items::new(alloc);
    keys.push(key(alloc, &A, 10_000, 2, 60_000)?)?;
    keys.push(key(alloc, &A, 10_000, 1, 0)?)?;
    keys.push(key(alloc, &A, 86_400_000, 1, 86_400_000)?)?;
    keys.push(key(alloc, &A, 86_400_000, 1_000_000, 86_400_000)?)?;
    Ok(keys)
}

const TWO_IN_TEN_SECONDS: [Step; 9] = [
    (0, 0, true, Answer::Pass),
    (0, 1000, true, Answer::Pass),
    (0, 2000, true, Answer::Over { until: 62_000 }),
    (0, 61_999, false, Answer::Over { until: 62_000 }),
    (0, 61_999, true, Answer::Over { until: 62_000 }),
    (0, 62_000, true, Answer::Pass),
    (0, 62_000, false, Answer::Pass),
    (0, 62_000, true, Answer::Pass),
    (0, 62_000, true, Answer::Over { until: 122_000 }),
];

const ONE_WITHOUT_TIMEOUT: [Step; 4] = [
    (1, 0, true, Answer::Pass),
    (1, 9999, true, Answer::Over { until: 9999 }),
    (1, 10_000, true, Answer::Pass),
    (1, 10_001, true, Answer::Over { until: 10_001 }),
];

const AT_THE_LAST_MOMENT: [Step; 4] = [
    (2, LAST, true, Answer::Pass),
    (
        2,
        LAST,
        true,
        Answer::Over {
            until: 9_007_199_341_140_992,
        },
    ),
    (3, LAST, true, Answer::Pass),
    (3, LAST, true, Answer::Pass),
];

#[test]
fn limits_count_in_their_windows(rt: HostRuntime) -> Result<(), Fail> {
    let alloc = rt.alloc();
    let keys = keys_of_limits(alloc)?;
    run(&rt, alloc, 64, 4096, keys.as_slice(), &TWO_IN_TEN_SECONDS)?;
    run(&rt, alloc, 64, 4096, keys.as_slice(), &ONE_WITHOUT_TIMEOUT)?;
    run(&rt, alloc, 64, 4096, keys.as_slice(), &AT_THE_LAST_MOMENT)?;
    Ok(())
}

/// Keys of 1 in 10 s for two addresses, with a timeout of 10 s and with none.
fn keys_of_addresses(alloc: Global) -> Result<Items<Key>, Memory> {
    let mut keys = Items::new(alloc);
    keys.push(key(alloc, &A, 10_000, 1, 10_000)?)?;
    keys.push(key(alloc, &B, 10_000, 1, 10_000)?)?;
    keys.push(key(alloc, &A, 10_000, 1, 0)?)?;
    keys.push(key(alloc, &B, 10_000, 1, 0)?)?;
    Ok(keys)
}

const LATE: [Step; 2] = [
    (0, 5000, true, Answer::Pass),
    (0, 3000, true, Answer::Over { until: 15_000 }),
];

const IN_ONE_LANE: [Step; 3] = [
    (0, 5000, false, Answer::Pass),
    (1, 3000, true, Answer::Pass),
    (1, 3000, true, Answer::Over { until: 15_000 }),
];

const IN_TWO_LANES: [Step; 3] = [
    (0, 5000, false, Answer::Pass),
    (1, 3000, true, Answer::Pass),
    (1, 3000, true, Answer::Over { until: 13_000 }),
];

const WITH_ROOM_FOR_ONE: [Step; 5] = [
    (2, 0, true, Answer::Pass),
    (3, 1, true, Answer::Full),
    (3, 1, false, Answer::Pass),
    (2, 2, true, Answer::Over { until: 2 }),
    (3, 10_000, true, Answer::Pass),
];

#[test]
fn a_lane_has_its_own_moment_and_room(rt: HostRuntime) -> Result<(), Fail> {
    let alloc = rt.alloc();
    let keys = keys_of_addresses(alloc)?;
    run(&rt, alloc, 64, 4096, keys.as_slice(), &LATE)?;
    run(&rt, alloc, 1, 4096, keys.as_slice(), &IN_ONE_LANE)?;
    run(&rt, alloc, 64, 4096, keys.as_slice(), &IN_TWO_LANES)?;
    run(&rt, alloc, 1, 1, keys.as_slice(), &WITH_ROOM_FOR_ONE)?;
    Ok(())
}
