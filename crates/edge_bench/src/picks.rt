//! Picks of the version in force, by several readers at once.

use crate::faults::Fault;
use ruleset_model::Config;
use std::alloc::Global;
use std::sync::Wait;
use std::thread::{Threads, map_vec};
use version_store::{VersionReader, Versions};

/// The most readers beside the one that is measured.
const MOST_OTHERS: u32 = 63;

/// How many picks of a reader answered.
fn picks_answered(mut reader: VersionReader, rounds: u32) -> u64 {
    let mut answered = 0u64;
    for _ in 0..rounds {
        if reader.pick().is_ok() {
            answered = answered.wrapping_add(1);
        }
    }
    answered
}

/// How many picks answered of one reader and so many others, each of which picks as often in a thread of its own.
pub fn picks_beside<R: Wait + Threads + Sync>(
    rt: &R,
    alloc: Global,
    others: u32,
    rounds: u32,
) -> Result<u64, Fault> {
    if others > MOST_OTHERS {
        return Err(Fault::Usage);
    }
    let (deployer, readers) = Versions::new(rt, alloc, Config::empty(alloc)?, others + 1)?;
    let answers = map_vec(rt, readers, &|reader| picks_answered(reader, rounds))?;
    deployer.end(rt);
    let mut answered = 0u64;
    for of_one in answers {
        answered = answered.wrapping_add(of_one);
    }
    Ok(answered)
}
