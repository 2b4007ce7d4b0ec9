//! What a ruleset that executes another one may change of the other's rules: whether each is enabled, and what it does.
//! Who speaks of a rule, and whose word counts, is said in `specs/Speakers.antt`.
#![tactic(auto)]

mod overrides;
mod plain;
mod resolution;

pub use overrides::{NamedOverrides, Override, Overrides, copy_named_overrides};
pub use plain::{Effective, Plain};
pub use resolution::effective;
