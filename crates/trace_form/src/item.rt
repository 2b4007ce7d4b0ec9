use edge_base::{Moment, Reply, Request};
use serde_json::Value;

/// A request of a trace, and the reply of its origin with its moment, where one was recorded.
#[derive(Debug, Drop)]
pub struct Recorded {
    pub request: Request,
    pub reply: Option<(Reply, Moment)>,
}

/// What one line of a trace is.
#[derive(Debug, Drop)]
pub enum LineItem {
    /// The value that is to be deployed.
    Deploy(Value),
    Ask(Recorded),
    Blank,
}
