//! Tests of the top calls: worked rows, limits, made traces, and faults of the input and of the output. In the crate itself
//! its tests would prove it once more.
#![tactic(auto)]

#[cfg(test)]
mod quiet;
#[cfg(test)]
mod spread;
#[cfg(test)]
mod waiting;
