//! What holds of a lane between its calls. Each law is a clause; the bodies are empty.

ghost use Rattle.rate_lane.specs.Laws.{DroppingKeeps, KeepsFewKeys, KeepsFewMoments};

/// A key that isn't live at the lane's moment can be dropped: the lane stands for the same list, and so each later
/// answer is the same.
pub fn dead_keys_can_be_dropped()
    ensures { DroppingKeeps }
{}

/// How much a lane keeps doesn't grow with its list.
pub fn a_lane_stays_small()
    ensures keys { KeepsFewKeys }
    ensures moments { KeepsFewMoments }
{}
