use crate::kept::KeptCounts;
use edge_base::{Reply, Request, RuleNames};
use rewrite_apply::Changes;
use ruleset_model::Skips;
use sqlite_items::Items;

/// The places of a rule: that of its ruleset, and its own there.
#[derive(Clone, Copy)]
pub struct RulePlace {
    pub set: u32,
    pub rule: u32,
}

/// Places of rules.
pub type RulePlaces = Items<RulePlace>;

/// What is carried from rule to rule. The skips are kept by the places of their rules: nothing of them is copied.
#[derive(Drop)]
pub struct State {
    /// The request as it stood when the phase began.
    pub request: Request,
    /// The reply, where one is judged.
    pub reply: Option<Reply>,
    /// The skips of the request, where a reply is judged.
    pub earlier: Option<Skips>,
    /// The rules that skipped since, in order.
    pub skipping: RulePlaces,
    pub changes: Changes,
    pub noted: RuleNames,
    pub kept: KeptCounts,
}
