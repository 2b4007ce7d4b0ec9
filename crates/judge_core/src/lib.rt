//! The judging of a request, and of its reply, by a configuration and the answers of a counter. What is judged
//! stands in `specs/Judging.antt`, as a talk with the counter.
#![tactic(auto)]

mod acting;
mod answering;
mod backing;
mod carried;
mod changing;
mod counting;
mod ends;
mod judging;
mod kept;
mod laws;
mod limits;
mod merging;
mod outcome;
mod places;
mod reaching;
mod running;
mod skips;
mod stepping;
mod values;

pub use backing::{Back, BackTurn, Backed, Backing, Stage};
pub use carried::{RulePlace, RulePlaces, State};
pub use counting::KeptAsk;
pub use ends::{kept_rules_count, replies_stay};
pub use judging::{Judge, Judged, Running, Turn};
pub use kept::{KeptCount, KeptCounts};
pub use laws::{answers_are_taken, judging_ends};
