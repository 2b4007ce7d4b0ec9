use crate::act::Act;
use crate::filter::Filter;
use crate::limit::Limit;
use crate::phase::Phase;
use edge_base::{Text, Texts};
use sqlite_items::Items;

/// An entry point of its phase, or a ruleset that is executed by one.
#[derive(Clone, Copy, Debug, PartialEq, Eq)]
pub enum RulesetKind {
    Managed,
    Custom,
    Zone,
}

/// One rule.
#[derive(Drop)]
pub struct Rule {
    pub id: Text,
    pub label: Text,
    pub description: Text,
    /// The text of its condition.
    pub source: Text,
    pub tags: Texts,
    pub enabled: bool,
    /// Its condition.
    pub filter: Filter,
    pub act: Act,
    pub limit: Option<Limit>,
}

/// Rules, in the order in which they are judged.
pub type Rules = Items<Rule>;

/// Rules of one phase.
#[derive(Drop)]
pub struct Ruleset {
    pub id: Text,
    pub name: Text,
    pub kind: RulesetKind,
    pub phase: Phase,
    pub rules: Rules,
}

/// Rulesets, each known by its place.
pub type Rulesets = Items<Ruleset>;
