//! Wildcards that match nothing, on runs of one letter.
use crate::faults::Fault;
use std::alloc::{AllocError, Global};
use text_match::Wild;

/// The most bytes of a text.
const MOST_SIZE: u32 = 1_048_576;

/// How many places of the run the rounds begin at, by turns, so that no round stands for another.
const TURNS: u32 = 8;

/// What a wildcard looks like.
#[derive(Clone, Copy, Debug, PartialEq, Eq)]
pub enum Shape {
    /// Four short pieces behind stars: `*a*a*a*b`.
    Stars,
    /// One long piece at the end: `*aa..ab`, half as long as the text.
    LongEnd,
    /// The same piece between stars, which may stand anywhere: `*aa..ab*`.
    LongMiddle,
}

/// The wildcard of a shape, for texts of this size.
fn pattern_of(alloc: Global, shape: Shape, size: usize) -> Result<Vec<u8>, AllocError> {
    match shape {
        Shape::Stars => Vec::from_slice(alloc, b"*a*a*a*b"),
        Shape::LongEnd => long_pattern(alloc, size / 2, b"b"),
        Shape::LongMiddle => long_pattern(alloc, size / 2, b"b*"),
    }
}

/// A star, this many `a`, and an end.
fn long_pattern(alloc: Global, count: usize, end: &[u8]) -> Result<Vec<u8>, AllocError> {
    let mut pattern = Vec::from_slice(alloc, b"*")?;
    for _ in 0..count {
        pattern.push(b'a')?;
    }
    pattern.extend_from_slice(end)?;
    Ok(pattern)
}

/// How many rounds matched.
pub fn matches_found(alloc: Global, shape: Shape, size: u32, rounds: u32) -> Result<u64, Fault> {
    if size > MOST_SIZE {
        return Err(Fault::Usage);
    }
    let size = size as usize;
    let pattern = pattern_of(alloc, shape, size)?;
    let wild = Wild::build(alloc, &pattern)?;
    let run = vec![in alloc; b'a'; size + TURNS as usize]?;
    let mut found = 0u64;
    for round in 0..rounds {
        let start = (round % TURNS) as usize;
        let matched = wild.matches(&run[start..start + size], false);
        found = found.wrapping_add(u64::from(matched));
    }
    Ok(found)
}
