//! The parser of the Rules language: from a text to its one tree, by a machine that reads one terminal after the other
//! and keeps what is open on a stack of its own.
#![tactic(auto)]

mod chains;
mod depth;
mod grammar;
mod levels;
mod machine;
mod numbers;
mod phrases;
mod printer;
mod reading;
mod spellings;
mod stack;
mod state;
mod terminals;
mod testing;
mod texts;

pub use depth::nesting_is_depth;
pub use grammar::{ParseFault, answers_are_unique, each_text_has_an_answer, parse};
pub use printer::{pairs_are_needed, print, prints_are_parsed_again};
pub use reading::{derivations_are_unique, faults_are_unique, underived_have_faults};
