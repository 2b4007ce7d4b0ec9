//! The evaluator: the value that a checked expression has on a request, by a direct recursion over its tree.
#![tactic(auto)]

mod calls;
mod evaluator;
mod indexes;
mod sense;
mod testing;

pub use calls::value_of_call;
pub use evaluator::{eval, is_met, tested, value_of_lit};
pub use indexes::{array_at, element_at, items_in};
pub use sense::{Given, Sense};
