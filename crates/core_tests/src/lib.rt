//! Tests of worlds of callers: worked lists of events, and random ones beside a walk that knows nothing of the judge. In
//! the crate itself its tests would prove it once more.
#![tactic(auto)]

#[cfg(test)]
mod plain;
#[cfg(test)]
mod random;
#[cfg(test)]
mod rows;
#[cfg(test)]
mod worlds;
