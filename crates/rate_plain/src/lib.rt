//! How a limit counts: what a step is asked for, what it is told, and the window rule over the list of all steps.
//! Every counter of `edge` is measured against the definitions that stand here, in `specs/`.
#![tactic(auto)]

mod entry;
mod fault;
mod hash;
mod key;
mod laws;
mod plain;
mod tally;
mod window;

pub use entry::{Answer, Ask, Counted, Counts, Entry};
pub use fault::StepFault;
pub use hash::fnv1a64;
pub use key::{Key, lane_of};
pub use laws::{
    callers_decide_nothing, counted_stays_within, dead_keys_decide_nothing,
    history_is_legal_step_by_step, keys_are_apart, lane_decides, lane_stands_alone,
    live_stays_within, one_lane_is_any,
};
pub use plain::PlainCounter;
pub use tally::{MOST_STEPS, Tally};
