//! Counting by many threads at once: each caller sees a beginning of one legal history, its own entries whole, and
//! steps on different lanes don't wait for each other.
#![tactic(auto)]

mod closing;
mod counters;
mod gathering;
mod making;
mod plays;
mod rule;
mod seen;
mod sharing;
mod stepping;
mod turns;

pub use closing::{Numbers, Totals};
pub use counters::{Counters, MOST_OWN};
pub use seen::{Held, Note, Seen, Seens};
pub use sharing::{callers_are_sent, counters_are_shared};
