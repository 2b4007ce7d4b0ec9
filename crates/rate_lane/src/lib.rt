//! Counting with memory that doesn't grow with the history: a lane keeps its live keys alone, each with the moments
//! that still count, and answers as the window rule does over the list of all its steps.
#![tactic(auto)]

mod index;
mod key_state;
mod lane;
mod lanes;
mod laws;
mod order;
mod sharing;
mod stepping;

pub use lane::Lane;
pub use lanes::Lanes;
pub use laws::{a_lane_stays_small, dead_keys_can_be_dropped};
pub use sharing::{a_lane_is_sent, lanes_are_sent};
