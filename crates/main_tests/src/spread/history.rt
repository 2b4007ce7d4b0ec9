//! The steps of all lines, each at its place, and taken once more in the order of their places.

use super::trace::{Asked, threshold_in};
use edge_base::{Memory, Moment, RuleName, Text};
use rate_plain::{Answer, Ask, Counted, Key, PlainCounter, StepFault, Tally};
use std::alloc::Global;
use std::process::Abort;

/// A step that a line shows.
#[derive(Clone, Copy, Debug)]
pub(super) struct Taken {
    pub asked: Asked,
    /// Whether it is a step of the second limit.
    pub second: bool,
    pub answer: Answer,
}

fn name(alloc: Global, rule: &[u8]) -> Result<RuleName, Memory> {
    Ok(RuleName {
        set_id: Text::of(alloc, b"rl")?,
        rule: Text::of(alloc, rule)?,
    })
}

/// The key of the first limit: an address has tag 3 and four bytes.
fn first_key(alloc: Global, asked: &Asked) -> Result<Key, Memory> {
    Ok(Key {
        rule: name(alloc, b"r1")?,
        period: 10_000,
        threshold: threshold_in(asked.version),
        timeout: 5_000,
        values: Text::of(alloc, &[3, 0, 0, 0, 4, 10, 0, 0, asked.address])?,
    })
}

/// The key of the second limit, whose characteristic is the number 0 for all: it has tag 2 and eight bytes.
fn second_key(alloc: Global) -> Result<Key, Memory> {
    Ok(Key {
        rule: name(alloc, b"r2")?,
        period: 10_000,
        threshold: 9,
        timeout: 0,
        values: Text::of(alloc, &[2, 0, 0, 0, 8, 0, 0, 0, 0, 0, 0, 0, 0])?,
    })
}

fn ask_of(alloc: Global, taken: &Taken) -> Result<Ask, StepFault> {
    let key = if taken.second {
        second_key(alloc)?
    } else {
        first_key(alloc, &taken.asked)?
    };
    match Moment::of(taken.asked.at) {
        Some(asked) => Ok(Ask {
            key,
            asked,
            adds: true,
        }),
        None => Err(StepFault::Spent),
    }
}

/// Takes the steps in turn on the plain counter, each as it was told.
pub(super) fn replay(
    rt: &impl Abort,
    alloc: Global,
    row: &[Option<Taken>],
) -> Result<(), StepFault> {
    let mut plain = PlainCounter::new(alloc, 64, 4_096);
    for taken in row {
        let Some(taken) = taken else {
            return Err(StepFault::Spent);
        };
        let ask = ask_of(alloc, taken)?;
        assert_eq!(rt; plain.step(alloc, 0, &ask)?, taken.answer);
    }
    Ok(())
}

/// Puts a step at its place, where no other stands.
pub(super) fn put(rt: &impl Abort, row: &mut Vec<Option<Taken>>, step: &Counted, taken: Taken) {
    let place = step.position as usize;
    assert!(rt; place < row.len());
    assert!(rt; row[place].is_none());
    row[place] = Some(taken);
}
