ghost use Rattle.std.specs.Prelude.{◌≡◌, ◌≤◌};
ghost use Rattle.rate_plain.specs.KeyParts.{HasRanges};

use edge_base::{Memory, Moment, RuleName, Text};
use rate_lane::{Lane, Lanes, a_lane_is_sent, lanes_are_sent};
use rate_plain::{Answer, Ask, Key, PlainCounter, StepFault, Tally};
use sqlite_items::Items;
use std::alloc::Global;
use std::hash::RandomState;
use std::process::Abort;
use std::test::Fail;

/// The last moment: 2^53.
const LAST: u64 = 1 << 53;

/// A step: the place of its key, what it asks, whether it adds, and what it is told.
type Step = (usize, u64, bool, Answer);

/// A key of the rule `rl/r1` for an address that ends in this number.
fn key(alloc: Global, address: u8, period: u64, threshold: u64, timeout: u64) -> Result<Key, Memory>
    requires { HasRanges period threshold timeout }
{
    let rule = RuleName {
        set_id: Text::of(alloc, b"rl")?,
        rule: Text::of(alloc, b"r1")?,
    };
    let values = Text::of(alloc, &[3, 0, 0, 0, 4, 10, 0, 0, address])?;
    Ok(Key {
        rule,
        period,
        threshold,
        timeout,
        values,
    })
}

/// Several lanes with room for so many live keys each.
fn lanes_of(alloc: Global, lanes: u32, cap: u32, hasher: RandomState) -> Result<Lanes, Memory>
    requires lanes { (1 ≤ lanes) × (lanes ≤ 1024) }
    requires cap { (1 ≤ cap) × (cap ≤ 65536) }
{
    let hashers = Vec::from_elem(alloc, hasher, lanes as usize)?;
    Lanes::new(alloc, cap, hashers)
}

/// A lane, lanes of which there is one, and a counter that keeps the whole list.
#[derive(Drop)]
struct Three {
    lane: Lane,
    lanes: Lanes,
    plain: PlainCounter,
}

impl Three {
    fn new(alloc: Global, cap: u32, hasher: RandomState) -> Result<Three, Memory>
        requires { (1 ≤ cap) × (cap ≤ 65536) }
    {
        let lane = Lane::new(alloc, cap, hasher)?;
        let lanes = lanes_of(alloc, 1, cap, hasher)?;
        a_lane_is_sent(&lane);
        lanes_are_sent(&lanes);
        Ok(Three {
            lane,
            lanes,
            plain: PlainCounter::new(alloc, 1, cap),
        })
    }

    /// Takes a step on each, and compares what they are told.
    fn step(&mut self, rt: &impl Abort, alloc: Global, ask: &Ask) -> Result<Answer, StepFault> {
        let told = self.plain.step(alloc, 0, ask)?;
        let by_lane = self.lane.step(alloc, ask)?;
        let by_lanes = self.lanes.step(alloc, 0, ask)?;
        assert_eq!(rt; by_lane, told);
        assert_eq!(rt; by_lanes, told);
        Ok(told)
    }
}

/// Takes the steps in turn with room for so many live keys, and compares what each is told.
fn takes(
    rt: &impl Abort,
    alloc: Global,
    hasher: RandomState,
    cap: u32,
    keys: &[Key],
    steps: &[Step],
) -> Result<(), StepFault>
    requires { (1 ≤ cap) × (cap ≤ 65536) }
{
    let mut three = Three::new(alloc, cap, hasher)?;
    for (place, &(key, asked, adds, told)) in steps.iter().enumerate() {
        if key < keys.len()
            && let Some(asked) = Moment::of(asked)
        {
            let ask = Ask {
                key: keys[key].copy(alloc)?,
                asked,
                adds,
            };
            let answer = three.step(rt, alloc, &ask)?;
            assert_eq!(rt; answer, told, "step {place}");
        }
    }
    assert_eq!(rt; three.lanes.length(), steps.len() as u64);
    Ok(())
}

/// Keys of 1 in 10 s without a timeout for three addresses, with one of 60 s for two and with one of 10 s, of 2 in 10 s,
/// of the greatest numbers, and of 3 in 10 s.
fn keys_of_rows(alloc: Global) -> Result<Items<Key>, Memory> {
    let mut keys = Items::new(alloc);
    keys.push(key(alloc, 1, 10_000, 1, 0)?)?;
    keys.push(key(alloc, 2, 10_000, 1, 0)?)?;
    keys.push(key(alloc, 3, 10_000, 1, 0)?)?;
    keys.push(key(alloc, 1, 10_000, 1, 60_000)?)?;
    keys.push(key(alloc, 2, 10_000, 1, 60_000)?)?;
    keys.push(key(alloc, 1, 10_000, 1, 10_000)?)?;
    keys.push(key(alloc, 1, 10_000, 2, 60_000)?)?;
    keys.push(key(alloc, 1, 86_400_000, 1, 86_400_000)?)?;
    keys.push(key(alloc, 1, 10_000, 3, 0)?)?;
    Ok(keys)
}

const LATE: [Step; 2] = [
    (5, 5_000, true, Answer::Pass),
    (5, 3_000, true, Answer::Over { until: 15_000 }),
];

const WITH_ROOM_FOR_ONE: [Step; 5] = [
    (0, 0, true, Answer::Pass),
    (1, 1, true, Answer::Full),
    (1, 1, false, Answer::Pass),
    (0, 2, true, Answer::Over { until: 2 }),
    (1, 10_000, true, Answer::Pass),
];

const THREE_KEYS_AND_TWO_PLACES: [Step; 5] = [
    (0, 0, true, Answer::Pass),
    (1, 1, true, Answer::Pass),
    (2, 2, true, Answer::Full),
    (0, 9_999, true, Answer::Over { until: 9_999 }),
    (2, 10_000, true, Answer::Pass),
];

const MITIGATION_OUTLIVES_ITS_STEPS: [Step; 4] = [
    (3, 0, true, Answer::Pass),
    (3, 1_000, true, Answer::Over { until: 61_000 }),
    (4, 30_000, true, Answer::Pass),
    (3, 50_000, true, Answer::Over { until: 61_000 }),
];

const TWO_IN_TEN_SECONDS: [Step; 7] = [
    (6, 0, true, Answer::Pass),
    (6, 1_000, true, Answer::Pass),
    (6, 2_000, true, Answer::Over { until: 62_000 }),
    (6, 61_999, false, Answer::Over { until: 62_000 }),
    (6, 62_000, true, Answer::Pass),
    (6, 62_000, true, Answer::Pass),
    (6, 62_000, true, Answer::Over { until: 122_000 }),
];

const AT_THE_LAST_MOMENT: [Step; 4] = [
    (3, LAST, true, Answer::Pass),
    (
        3,
        LAST,
        true,
        Answer::Over {
            until: 9_007_199_254_800_992,
        },
    ),
    (7, LAST, true, Answer::Pass),
    (
        7,
        LAST,
        true,
        Answer::Over {
            until: 9_007_199_341_140_992,
        },
    ),
];

#[test]
fn lanes_answer_as_worked_out(rt: HostRuntime) -> Result<(), Fail> {
    let alloc = rt.alloc();
    let hasher = RandomState::new(&rt)?;
    let keys = keys_of_rows(alloc)?;
    let keys = keys.as_slice();
    takes(&rt, alloc, hasher, 4_096, keys, &LATE)?;
    takes(&rt, alloc, hasher, 1, keys, &WITH_ROOM_FOR_ONE)?;
    takes(&rt, alloc, hasher, 2, keys, &THREE_KEYS_AND_TWO_PLACES)?;
    takes(&rt, alloc, hasher, 2, keys, &MITIGATION_OUTLIVES_ITS_STEPS)?;
    takes(&rt, alloc, hasher, 65_536, keys, &TWO_IN_TEN_SECONDS)?;
    takes(&rt, alloc, hasher, 4_096, keys, &AT_THE_LAST_MOMENT)?;
    Ok(())
}

/// An adding step of a key, how many keys are live after it, and whether its ring then has room.
type Kept = (usize, u64, u32, bool);

/// The ring of a key of 3 in 10 s grows to 1, 2 and 3 places; two of its moments are over at 11.5 s, and the key at 21.5 s.
const KEPT: [Kept; 7] = [
    (8, 0, 1, false),
    (8, 1_000, 1, false),
    (8, 2_000, 1, false),
    (0, 2_000, 2, false),
    (8, 11_500, 2, true),
    (0, 12_000, 2, false),
    (8, 21_999, 2, false),
];

/// Takes an adding step, and compares how many keys are live, and whether the key has room.
fn keeps(
    rt: &impl Abort,
    alloc: Global,
    lane: &mut Lane,
    key: &Key,
    asked: Moment,
    kept: (u32, bool),
) -> Result<(), Memory> {
    let ask = Ask {
        key: key.copy(alloc)?,
        asked,
        adds: true,
    };
    lane.step(alloc, &ask)?;
    let found = (lane.live_keys(asked), lane.room(key));
    assert_eq!(rt; found, kept);
    Ok(())
}

#[test]
fn a_lane_tells_what_it_keeps(rt: HostRuntime) -> Result<(), Fail> {
    let alloc = rt.alloc();
    let keys = keys_of_rows(alloc)?;
    let mut lane = Lane::new(alloc, 2, RandomState::new(&rt)?)?;
    for (key, asked, live, room) in KEPT {
        if let Some(key) = keys.get(key)
            && let Some(asked) = Moment::of(asked)
        {
            keeps(&rt, alloc, &mut lane, key, asked, (live, room))?;
        }
    }
    let last = Moment::of(LAST).unwrap();
    assert_eq!(rt; lane.live_keys(last), 0);
    Ok(())
}

/// The next of a row of numbers that show no order.
fn next(number: u64) -> u64 {
    number
        .wrapping_mul(6_364_136_223_846_793_005)
        .wrapping_add(1_442_695_040_888_963_407)
}

/// Keys whose ends meet at multiples of 250 ms.
fn keys_of_walks(alloc: Global) -> Result<Items<Key>, Memory> {
    let mut keys = Items::new(alloc);
    keys.push(key(alloc, 1, 1_000, 1, 0)?)?;
    keys.push(key(alloc, 2, 1_000, 2, 500)?)?;
    keys.push(key(alloc, 3, 1_500, 3, 1_000)?)?;
    keys.push(key(alloc, 4, 500, 1, 750)?)?;
    keys.push(key(alloc, 5, 2_000, 5, 500)?)?;
    keys.push(key(alloc, 6, 1_500, 1, 1_500)?)?;
    Ok(keys)
}

/// One step on both: adding in three of four, and late in many.
fn step_both(
    rt: &impl Abort,
    alloc: Global,
    lanes: &mut Lanes,
    plain: &mut PlainCounter,
    key: &Key,
    asked: Moment,
    adds: bool,
) -> Result<(), StepFault> {
    let ask = Ask {
        key: key.copy(alloc)?,
        asked,
        adds,
    };
    let told = plain.step(alloc, 0, &ask)?;
    let answer = lanes.step(alloc, 0, &ask)?;
    assert_eq!(rt; answer, told);
    Ok(())
}

/// Takes 100 steps on both, from this number on.
fn walk(
    rt: &impl Abort,
    alloc: Global,
    lanes: &mut Lanes,
    plain: &mut PlainCounter,
    keys: &[Key],
    seed: u64,
) -> Result<u64, StepFault> {
    let mut number = seed;
    for place in 0u64..100 {
        number = next(number);
        if let Some(key) = keys.get((number >> 45) as usize % 6)
            && let Some(asked) = Moment::of((place / 4 + (number >> 34) % 8) * 250)
        {
            let adds = (number >> 40) % 4 > 0;
            step_both(rt, alloc, lanes, plain, key, asked, adds)?;
        }
    }
    Ok(number)
}

/// Takes 250 walks, each with so many new lanes with so much room.
fn walks(
    rt: &impl Abort,
    alloc: Global,
    hasher: RandomState,
    lanes: u32,
    cap: u32,
    keys: &[Key],
    seed: u64,
) -> Result<u64, StepFault>
    requires lanes { (1 ≤ lanes) × (lanes ≤ 1024) }
    requires cap { (1 ≤ cap) × (cap ≤ 65536) }
{
    let mut number = seed;
    for _ in 0..250 {
        let mut new = lanes_of(alloc, lanes, cap, hasher)?;
        let mut plain = PlainCounter::new(alloc, lanes, cap);
        number = walk(rt, alloc, &mut new, &mut plain, keys, number)?;
    }
    Ok(number)
}

#[test]
fn lanes_answer_as_the_whole_list(rt: HostRuntime) -> Result<(), Fail> {
    let alloc = rt.alloc();
    let hasher = RandomState::new(&rt)?;
    let keys = keys_of_walks(alloc)?;
    let mut number = 7;
    for place in 0..8 {
        let (lanes, cap) = (1 + place / 4, 1 + place % 4);
        number = walks(&rt, alloc, hasher, lanes, cap, keys.as_slice(), number)?;
    }
    Ok(())
}
