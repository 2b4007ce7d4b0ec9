//! The functions of the Rules language, on values. What each gives stands in `specs/`, a line a function.
#![tactic(auto)]

mod arguments;
mod array;
mod base64_text;
mod functions;
mod json;
mod replacing;
mod text;
mod url;

pub use functions::{call, functions_keep_kinds};
pub use replacing::takes_are_first;
