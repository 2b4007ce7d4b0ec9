use crate::key::Key;
use edge_base::Moment;
use sqlite_items::Items;

/// One step that is asked for: it adds where the request is to be counted.
#[derive(Debug, Drop)]
pub struct Ask {
    pub key: Key,
    pub asked: Moment,
    pub adds: bool,
}

/// What a step is told.
#[derive(Clone, Copy, Debug, PartialEq, Eq)]
pub enum Answer {
    Pass,
    /// Over the limit until this moment, in milliseconds.
    Over { until: u64 },
    /// The lane has no room for a further key.
    Full,
}

/// A step with its answer, as the history keeps it. `at` is never before an earlier one of the lane.
#[derive(Debug, Drop)]
pub struct Entry {
    pub caller: u32,
    pub key: Key,
    pub asked: Moment,
    pub at: Moment,
    pub adds: bool,
    pub answer: Answer,
}

/// A step's place in the history, from 0, and its answer.
#[derive(Clone, Copy, Debug, PartialEq, Eq)]
pub struct Counted {
    pub position: u64,
    pub answer: Answer,
}

/// The steps of one request, in order.
pub type Counts = Items<Counted>;
