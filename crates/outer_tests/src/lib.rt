//! Tests of the public calls of `config_read` and `trace_form`: documents and trace lines. In the crate itself its tests would
//! prove it once more.
#![tactic(auto)]

#[cfg(test)]
mod documents;
#[cfg(test)]
mod lines;
