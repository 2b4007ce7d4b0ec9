//! Tests of the public calls of `rate_plain`, `rate_lane`, `rate_shared` and `version_store`: counters and versions, also by several
//! threads. In the crate itself its tests would prove it once more.
#![tactic(auto)]

#[cfg(test)]
mod counters;
#[cfg(test)]
mod lanes;
#[cfg(test)]
mod plain;
#[cfg(test)]
mod versions;
