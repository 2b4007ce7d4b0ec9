//! Tests of the public calls of `edge_outside` and `http_front`: sources, sinks and links, heads as they come from a connection, and
//! replies. In the crate itself its tests would prove it once more.
#![tactic(auto)]

#[cfg(test)]
mod heads;
#[cfg(test)]
mod streams;
