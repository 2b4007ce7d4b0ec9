use crate::dynamic::Dynamic;
use crate::rewrite::Rewrite;
use crate::skips::Skips;
use crate::verdict::Response;
use override_plan::{Overrides, Plain};

/// Where a request is sent.
#[derive(Drop)]
pub struct Redirect {
    pub status_code: u16,
    pub target_url: Dynamic,
    /// Whether the request's query goes with it.
    pub preserve_query_string: bool,
}

/// What a rule does where its condition is true.
#[derive(Drop)]
pub enum Act {
    /// Blocks, with the rule's own response or the phase's.
    Block(Option<Response>),
    /// One of the challenges.
    Challenge(Plain),
    Log,
    Skip(Skips),
    /// Judges by the ruleset at this place.
    Execute(u32, Overrides),
    Rewrite(Rewrite),
    Redirect(Redirect),
}
