//! Tests of the public calls of the lowest crates: addresses, copies, fields, rewrites, sets and lists, tokens, overrides. In the
//! crate itself its tests would prove it once more.
#![tactic(auto)]

#[cfg(test)]
mod addresses;
#[cfg(test)]
mod copies;
#[cfg(test)]
mod fields;
#[cfg(test)]
mod lists;
#[cfg(test)]
mod overrides;
#[cfg(test)]
mod rewrites;
#[cfg(test)]
mod sets;
#[cfg(test)]
mod tokens;
