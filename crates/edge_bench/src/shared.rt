//! Steps on counters that several threads share.
ghost use Rattle.std.specs.Prelude.{◌≡◌, ◌≤◌, All, IfOk, OnOk};
ghost use Rattle.rate_shared.specs.Callers.{IsOf};

use crate::faults::Fault;
use crate::lanes::{CAP, LANES, Threshold, ask_of, new_lanes, passes};
use crate::spread::Places;
use edge_base::Moment;
use rate_plain::{Ask, lane_of};
use rate_shared::{Counters, Seen, Seens};
use std::alloc::Global;
use std::hash::RandomState;
use std::sync::Wait;
use std::thread::{Threads, map_vec};

/// The most threads: a lane for each.
const MOST_THREADS: u32 = 64;

/// How many keys the steps of a thread have.
const KEYS: u32 = 16;

/// How far the places of a thread's keys lie from those of the next.
const PLACES: u32 = 1 << 20;

/// How much later each step of a thread is asked than its last, in milliseconds. In a period each key is asked twice as
/// often as its threshold.
const PAUSE: u64 = 375;

/// On which lanes several threads take their steps.
#[derive(Clone, Copy, Debug, PartialEq, Eq)]
pub enum Meeting {
    /// Each on one of its own.
    Apart,
    /// All on one.
    Together,
}

impl Meeting {
    fn lane(self, thread: u32) -> u32 {
        match self {
            Meeting::Apart => thread,
            Meeting::Together => 0,
        }
    }
}

/// The asks of a thread, all on its lane. No other thread has one of their keys.
fn asks_of(alloc: Global, meeting: Meeting, thread: u32) -> Result<Vec<Ask>, Fault> {
    let lane = meeting.lane(thread);
    let first = thread % MOST_THREADS * PLACES;
    let mut asks = Vec::new(alloc);
    for place in first..first + PLACES {
        if asks.len() == KEYS as usize {
            break;
        }
        let ask = ask_of(alloc, place, Threshold::Five)?;
        if lane_of(&ask.key, LANES as u32) == lane {
            asks.push(ask)?;
        }
    }
    Ok(asks)
}

/// Takes a step at a moment.
fn count<R: Wait>(
    rt: &R,
    alloc: Global,
    counters: &Counters,
    seen: &mut Seen,
    asks: &mut [Ask],
    place: u32,
    at: u64,
) -> Result<(), Fault>
    requires { IsOf counters.now seen.old }
    ensures { IsOf counters.now seen.new }
{
    let Some(ask) = asks.get_mut(place as usize) else {
        return Err(Fault::Refused);
    };
    let Some(asked) = Moment::of(at) else {
        return Err(Fault::Refused);
    };
    ask.asked = asked;
    counters.step(rt, alloc, seen, ask)?;
    Ok(())
}

/// How many steps of a caller were answered.
fn steps_of<R: Wait>(
    rt: &R,
    alloc: Global,
    counters: &Counters,
    mut seen: Seen,
    meeting: Meeting,
    rounds: u32,
) -> Result<u64, Fault>
    requires { IsOf counters.now seen }
{
    let mut asks = asks_of(alloc, meeting, seen.caller())?;
    let mut places = Places::new();
    let mut answered = 0u64;
    for step in 0..rounds {
        let place = places.next(KEYS);
        let at = u64::from(step) * PAUSE;
        count(
            rt,
            alloc,
            counters,
            &mut seen,
            asks.as_mut_slice(),
            place,
            at,
        )?;
        answered = answered.wrapping_add(1);
    }
    Ok(answered)
}

/// Counters for so many callers.
fn counters_for(
    alloc: Global,
    hasher: RandomState,
    callers: u32,
) -> Result<(Counters, Seens), Fault>
    requires { (1 ≤ callers) × (callers ≤ 64) }
    ensures { IfOk result (λ made. All (IsOf made.0) made.1.items) }
{
    let hashers = Vec::from_elem(alloc, hasher, LANES)?;
    let made = Counters::new(alloc, CAP, callers, hashers)?;
    Ok(made)
}

/// How many steps were answered of so many threads, each of which takes as many.
pub fn steps_shared<R: Wait + Threads + Sync>(
    rt: &R,
    alloc: Global,
    hasher: RandomState,
    meeting: Meeting,
    threads: u32,
    rounds: u32,
) -> Result<u64, Fault> {
    if threads == 0 || threads > MOST_THREADS {
        return Err(Fault::Usage);
    }
    let (counters, seens) = counters_for(alloc, hasher, threads)?;
    let answers = map_vec(
        rt,
        seens,
        &|seen| steps_of(rt, alloc, &counters, seen, meeting, rounds),
    )?;
    let mut answered = 0u64;
    for of_one in answers {
        answered = answered.wrapping_add(of_one?);
    }
    Ok(answered)
}

/// How many steps were answered of one thread on a counter that it doesn't share: the steps of so many threads, one
/// thread's after another's.
pub fn steps_alone(
    alloc: Global,
    hasher: RandomState,
    threads: u32,
    rounds: u32,
) -> Result<u64, Fault> {
    if threads == 0 || threads > MOST_THREADS {
        return Err(Fault::Usage);
    }
    let mut lanes = new_lanes(alloc, hasher)?;
    let mut answered = 0u64;
    for thread in 0..threads {
        let mut asks = asks_of(alloc, Meeting::Apart, thread)?;
        let mut places = Places::new();
        for step in 0..rounds {
            let place = places.next(KEYS);
            let at = u64::from(step) * PAUSE;
            passes(alloc, &mut lanes, asks.as_mut_slice(), place, at)?;
            answered = answered.wrapping_add(1);
        }
    }
    Ok(answered)
}
