//! How configurations are printed: a value for each part, and the text of the whole.

mod document;
mod dynamics;
mod executions;
mod limits;
mod lists;
mod rewrites;
mod rules;
mod skips;
mod values;

pub use document::print_config;
