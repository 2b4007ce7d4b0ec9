//! Tests of the public calls of crates that are dear to prove: in the crate itself its tests would prove it once more.
#![tactic(auto)]

#[cfg(test)]
mod calling;
#[cfg(test)]
mod checking;
#[cfg(test)]
mod matching;
#[cfg(test)]
mod parsing;
