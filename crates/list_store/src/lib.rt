//! Named lists of addresses and of texts, as a configuration gives them: built once, with the first fault named, and
//! then asked without a scan.
#![tactic(auto)]

mod lists;
mod members;
mod part;

pub use lists::{Lists, list_faults_are_unique};
pub use part::{ListFault, ListPart, ListParts};
