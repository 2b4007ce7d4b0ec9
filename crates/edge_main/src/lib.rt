//! The top calls of `edge`: what its commands do with the input, the output and the operator that are handed in.
#![tactic(auto)]

mod asking;
mod batch;
mod checking;
mod commands;
mod crew;
mod document;
mod hashers;
mod kept;
mod laws;
mod making;
mod quiet;
mod replay;
mod run;
mod spreading;
mod statuses;
mod stepping;
mod summary;
mod trial;
mod waiting;
mod waiting_words;
mod working;

pub use hashers::lane_hashers;
pub use laws::{
    every_input_has_an_output, history_is_legal, outputs_are_spreads, outputs_are_unique,
    runs_are_unique, shown_is_judged, waiting_is_told_by_a_word,
};
pub use quiet::edge_quiet;
pub use statuses::Status;
pub use waiting::edge_wait;
pub use waiting_words::{needs_wait, waiting_of};
