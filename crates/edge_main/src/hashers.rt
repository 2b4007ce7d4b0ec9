ghost use Rattle.std.specs.Prelude.{◌≡◌, IfOk, vec_len};

use std::alloc::Global;
use std::hash::RandomState;
use std::io;
use std::random::RandomSource;

/// One hasher for each lane of the counters.
const LANES: usize = 64;

/// A hasher for each lane, each with keys of its own.
pub fn lane_hashers<R: RandomSource>(rt: &R, alloc: Global) -> io::Result<Vec<RandomState>>
    ensures { IfOk result (λ hashers. vec_len hashers ≡ 64) }
{
    let mut hashers = Vec::new(alloc);
    for lane in 0..LANES {
        hashers.push(RandomState::new(rt)?)?;
    }
    Ok(hashers)
}
