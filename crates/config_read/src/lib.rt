//! Configurations from their JSON: what a document stands for, or the first place and cause for which it is refused, in
//! the reading order of the table of configurations.
#![tactic(auto)]

mod action;
mod acts;
mod blocks;
mod conditions;
mod config;
mod document;
mod executions;
mod fault;
mod headers;
mod heads;
mod ids;
mod judging;
mod laws;
mod limits;
mod lists;
mod members;
mod names;
mod ordered;
mod places;
mod printing;
mod reading;
mod refusals;
mod rewrites;
mod rules;
mod rulesets;
mod sets;
mod skipping;
mod values;

pub use action::Action;
pub use config::{config_of, read_config};
pub use document::{Document, document_of};
pub use fault::{Cause, ConfigFault};
pub use laws::{
    built_configurations_are_their_data, configurations_are_their_data, documents_are_read,
    first_refusal_is_one,
};
pub use lists::{front_is_settled, lists_of};
pub use printing::print_config;
pub use reading::read_document;
