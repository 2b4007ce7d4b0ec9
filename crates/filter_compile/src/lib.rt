//! Flat filters: a checked expression as one list of steps over a row of slots. What the steps do stands in
//! `specs/Steps.antt`; a filter gives the value that its expression has, for every request, reply and lists.
#![tactic(auto)]

mod compiler;
mod plain;
mod program;
mod running;
mod shared;

pub use compiler::compile;
pub use program::Filter;
pub use shared::filter_may_be_shared;
