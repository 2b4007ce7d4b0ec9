//! Shows that lanes may be sent to other threads: a missing proof shows here, and not at a thread of a crate far above.

use crate::lane::Lane;
use crate::lanes::Lanes;

fn is_sent<T: Send>(_value: &T) {}

pub fn a_lane_is_sent(lane: &Lane) {
    is_sent(lane);
}

pub fn lanes_are_sent(lanes: &Lanes) {
    is_sent(lanes);
}
