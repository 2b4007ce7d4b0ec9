//! A configuration as it is judged by: its lists, and its rulesets with their rules, actions and limits. Each expression
//! is kept as its text and as a filter that was built from it. What a valid configuration is stands in
//! `specs/Valid.antt`, and what it is as data, without filters, in `specs/Data.antt`.
#![tactic(auto)]

mod act;
mod config;
mod dynamic;
mod entry_points;
mod filter;
mod limit;
mod phase;
mod picked;
mod rewrite;
mod ruleset;
mod shared;
mod skips;
mod spoken;
mod verdict;

pub use act::{Act, Redirect};
pub use config::Config;
pub use dynamic::Dynamic;
pub use filter::Filter;
pub use limit::{Characteristic, Characteristics, Counting, Limit};
pub use phase::{Phase, Phases, REQUEST_PHASES};
pub use picked::Picked;
pub use rewrite::{HeaderRewrite, HeaderRewrites, Operation, Rewrite, UriRewrite};
pub use ruleset::{Rule, Rules, Ruleset, RulesetKind, Rulesets};
pub use shared::config_may_be_shared;
pub use skips::{SkippedRules, Skips, copy_phases, copy_skipped_rules};
pub use spoken::speaks_of_reply;
pub use verdict::{Response, Verdict, VerdictKind};

#[cfg(test)]
mod tests;
