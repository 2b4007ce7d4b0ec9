//! What rules that rewrite make of a request's target and headers, and the place that a redirect leads to.
//! The definitions stand in `specs/Rewrites.antt`.
#![tactic(auto)]

mod changes;
mod escapes;
mod header_list;
mod redirection;
mod uri;

pub use changes::{Change, Changes, HeaderChange, HeaderChanges};
pub use header_list::apply_headers;
pub use redirection::target;
pub use uri::apply;
