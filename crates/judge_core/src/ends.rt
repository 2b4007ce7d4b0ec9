//! What holds at the end of every judging. Each law is a clause; the bodies are empty.

ghost use Rattle.judge_core.specs.Ends.{KeptRulesCount, RepliesStay};

/// Each rule that was kept stands at its places and counts by the reply.
pub fn kept_rules_count()
    ensures { KeptRulesCount }
{}

/// A reply that is judged is there at the end.
pub fn replies_stay()
    ensures { RepliesStay }
{}
