//! Steps on the lanes of a counter. They go on through the periods of their keys, so that moments end and come.
ghost use Rattle.std.specs.Prelude.{◌≤◌};

use crate::faults::Fault;
use crate::spread::{Places, number_at};
use edge_base::{Moment, RuleName, Text};
use rate_lane::Lanes;
use rate_plain::{Answer, Ask, Key, Tally};
use std::alloc::Global;
use std::hash::RandomState;

/// The most keys. No lane has more than it has room for.
const MOST_SIZE: u32 = 250_000;

pub const LANES: usize = 64;

/// How many live keys each lane has room for.
pub const CAP: u32 = 4_096;

/// In milliseconds.
const PERIOD: u64 = 60_000;

/// In milliseconds.
const TIMEOUT: u64 = 10_000;

/// How many steps of a key may pass in a period.
#[derive(Clone, Copy, Debug, PartialEq, Eq)]
pub enum Threshold {
    Five,
    Thousand,
}

/// How many steps a counter has taken before those that are measured.
#[derive(Clone, Copy, Debug, PartialEq, Eq)]
pub enum Age {
    New,
    /// A million.
    Worn,
}

impl Threshold {
    fn number(self) -> u64
        ensures { (1 ≤ result) × (result ≤ 1000) }
    {
        match self {
            Threshold::Five => 5,
            Threshold::Thousand => 1_000,
        }
    }
}

impl Age {
    fn steps(self) -> u64
        ensures { result ≤ 1000000 }
    {
        match self {
            Age::New => 0,
            Age::Worn => 1_000_000,
        }
    }
}

/// An adding ask of the key of a place. Different places have different keys.
pub fn ask_of(alloc: Global, place: u32, threshold: Threshold) -> Result<Ask, Fault> {
    let Some(asked) = Moment::of(0) else {
        return Err(Fault::Refused);
    };
    let rule = RuleName {
        set_id: Text::of(alloc, b"limits")?,
        rule: Text::of(alloc, b"by_address")?,
    };
    let values = Text::of(alloc, &number_at(place).to_be_bytes())?;
    let key = Key {
        rule,
        period: PERIOD,
        threshold: threshold.number(),
        timeout: TIMEOUT,
        values,
    };
    Ok(Ask {
        key,
        asked,
        adds: true,
    })
}

/// The asks of the places before an end.
fn asks_before(alloc: Global, end: u32, threshold: Threshold) -> Result<Vec<Ask>, Fault> {
    let mut asks = Vec::new(alloc);
    for place in 0..end {
        asks.push(ask_of(alloc, place, threshold)?)?;
    }
    Ok(asks)
}

/// Lanes without steps.
pub fn new_lanes(alloc: Global, hasher: RandomState) -> Result<Lanes, Fault> {
    let hashers = Vec::from_elem(alloc, hasher, LANES)?;
    Ok(Lanes::new(alloc, CAP, hashers)?)
}

/// Takes a step at a moment, and says whether it passed.
pub fn passes(
    alloc: Global,
    lanes: &mut Lanes,
    asks: &mut [Ask],
    place: u32,
    at: u64,
) -> Result<bool, Fault> {
    let Some(ask) = asks.get_mut(place as usize) else {
        return Err(Fault::Refused);
    };
    let Some(asked) = Moment::of(at) else {
        return Err(Fault::Refused);
    };
    ask.asked = asked;
    let answer = lanes.step(alloc, 0, ask)?;
    Ok(answer == Answer::Pass)
}

/// How many of the steps passed that were taken after those that made the counter as old as it is.
/// In a period each key is asked as often as its threshold, in the mean.
pub fn steps_passed(
    alloc: Global,
    hasher: RandomState,
    threshold: Threshold,
    age: Age,
    size: u32,
    rounds: u32,
) -> Result<u64, Fault> {
    if size == 0 || size > MOST_SIZE {
        return Err(Fault::Usage);
    }
    let mut asks = asks_before(alloc, size, threshold)?;
    let mut lanes = new_lanes(alloc, hasher)?;
    let mut places = Places::new();
    let mut passed = 0u64;
    let before = age.steps();
    for step in 0..before + u64::from(rounds) {
        let place = places.next(size);
        let at = step * PERIOD / u64::from(size) / threshold.number();
        let has_passed = passes(alloc, &mut lanes, asks.as_mut_slice(), place, at)?;
        if before <= step && has_passed {
            passed = passed.wrapping_add(1);
        }
    }
    Ok(passed)
}
