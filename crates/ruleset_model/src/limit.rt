ghost use Rattle.ruleset_model.specs.Ranges.{HasRanges};

use crate::filter::Filter;
use edge_base::Text;
use sqlite_items::Items;

/// A value by which requests are counted apart.
#[derive(Drop)]
pub struct Characteristic {
    pub filter: Filter,
    pub source: Text,
}

/// Characteristics, in the order in which they stand in a key.
pub type Characteristics = Items<Characteristic>;

/// What is counted in place of what the condition holds of.
#[derive(Drop)]
pub struct Counting {
    pub filter: Filter,
    pub source: Text,
    /// Whether it speaks of the reply.
    pub reply: bool,
}

/// How often a rule may hold of requests with the same characteristics. Period and timeout are in milliseconds.
#[derive(Drop)]
pub struct Limit {
    pub characteristics: Characteristics,
    pub period: u64,
    pub threshold: u64,
    pub timeout: u64,
    pub counting: Option<Counting>,
    ghost ranges: { HasRanges period threshold timeout },
}
