//! Whether a text matches a wildcard or a pattern of `regex`, and what the stars and groups stand for.
#![tactic(auto)]

mod expression;
mod needle;
mod pattern;
mod reading;
mod replacement;
mod sharing;
mod splitting;
mod wildcard;

pub use pattern::{Pattern, PatternFault};
pub use reading::WildFault;
pub use replacement::fill;
pub use sharing::{patterns_are_shared, wildcards_are_shared};
pub use wildcard::{Wild, first_takes_are_unique};
