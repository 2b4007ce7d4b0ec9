//! Tests of the gate, by its public calls. In the crate itself its tests would prove it once more.
#![tactic(auto)]

#[cfg(test)]
mod gate;
