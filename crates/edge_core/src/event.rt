use config_read::Cause;
use edge_base::{Moment, Reply, Request, Text};
use rate_plain::Answer;
use ruleset_model::Verdict;
use serde_json::Value;

/// One action of one caller, or of who deploys. Callers are numbered from 0.
#[derive(Drop)]
pub enum Event {
    /// A request comes.
    Arrive(u32, Request),
    /// The version in force is picked for it.
    Pick(u32),
    /// The step that its judging asks is taken.
    Count(u32),
    /// Its judging, or that of its reply, is done.
    Done(u32),
    /// A reply comes, at a moment.
    Back(u32, Reply, Moment),
    /// A document is deployed.
    Deploy(Value),
}

/// Events in the order in which they happen.
pub type Events = Vec<Event>;

/// What an event shows.
#[derive(Drop)]
pub enum Shown {
    Nothing,
    /// The event doesn't fit the caller.
    Unfit,
    /// The number of the version.
    Picked(u64),
    /// The number of the steps before this one, and its answer.
    Counted(u64, Answer),
    Verdict(Verdict),
    Replied(Reply),
    /// The number of the new version.
    Deployed(u64),
    /// The place in the document, and the cause.
    Refused(Text, Cause),
}

/// What events show, in order.
pub type ShownList = Vec<Shown>;
