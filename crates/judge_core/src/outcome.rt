//! What comes of a rule, and the places of the judging.

ghost use Rattle.std.specs.Prelude.{◌≡◌};
ghost use Rattle.judge_core.specs.Walks.{place_of, inner_place_of};

use crate::carried::RulePlace;
use edge_base::RuleName;
use override_plan::Plain;
use rate_plain::Ask;
use ruleset_model::VerdictKind;

/// What a rule did to the judging.
#[derive(Drop)]
pub enum Outcome {
    /// It goes on.
    Goes,
    /// The ruleset in which the rule stands ends.
    Leaves,
    /// The judging ends by the rule.
    Closes(VerdictKind, RuleName),
    /// The ruleset that its action names is to be executed.
    Executes,
}

/// What came of a rule that was reached: what it did, or the step that it asks, with the value of its condition.
#[derive(Drop)]
pub enum Reached {
    Came(Outcome),
    Asks(Ask, bool),
}

/// A place in an entry point: its ruleset, and its next rule.
#[derive(Clone, Copy)]
pub struct Walk {
    pub set: u32,
    pub next: u32,
}

/// A place in an executed ruleset: the ruleset, and its next rule.
#[derive(Clone, Copy)]
pub struct Inner {
    pub set: u32,
    pub next: u32,
}

/// Between two phases; in an entry point; or in a ruleset that the rule there executes.
#[derive(Clone, Copy)]
pub enum Where {
    Between,
    Entry(Walk),
    Executed(Walk, Inner),
}

/// Where the judging stands. `phase` is the number of the phase that begins next.
#[derive(Clone, Copy)]
pub struct Place {
    pub phase: u8,
    pub at: Where,
}

/// A rule that asked a step: its place, what it does if the answer is over, and the value of its condition.
#[derive(Clone, Copy)]
pub struct Asked {
    pub place: Place,
    pub action: Plain,
    pub holds: bool,
}

/// How far one step of the judging came.
#[derive(Drop)]
pub enum Step {
    Moved(Place),
    Closed(VerdictKind, RuleName),
    Passed,
    Asks(Ask, Asked),
}

/// How the judging came to a stop: it passed all phases, a rule ended it, or a rule asks a step.
#[derive(Drop)]
pub enum Ran {
    Passed,
    Closed(VerdictKind, RuleName),
    Asks(Ask, Asked),
}

impl Walk {
    /// The place of its next rule.
    pub fn rule(self) -> RulePlace
        ensures { result ≡ place_of self }
    {
        RulePlace {
            set: self.set,
            rule: self.next,
        }
    }
}

impl Inner {
    /// The place of its next rule.
    pub fn rule(self) -> RulePlace
        ensures { result ≡ inner_place_of self }
    {
        RulePlace {
            set: self.set,
            rule: self.next,
        }
    }
}
