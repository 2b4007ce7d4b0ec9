ghost use Rattle.std.specs.Prelude.{◌≡◌, [], IfOk};

use crate::entry_points::{EntryPoints, entry_points};
use crate::phase::Phase;
use crate::ruleset::{Ruleset, Rulesets};
use edge_base::Memory;
use list_store::{ListFault, Lists};
use sqlite_items::Items;
use std::alloc::Global;
use std::marker::Model;

/// A valid configuration. Contracts see its lists and its rulesets.
#[derive(Drop)]
pub struct Config {
    lists: Lists,
    rulesets: Rulesets,
    entries: EntryPoints,
}

impl Model for Config {
    ghost use Rattle.std.specs.Coded.{codes};
    ghost use Rattle.std.specs.Prelude.{◌≡◌, map};
    ghost use Rattle.edge_base.specs.contracts.expression.Expr.{the_row as expr_row};
    ghost use Rattle.ruleset_model.specs.ConfigParts.{ConfigParts};
    ghost use Rattle.ruleset_model.specs.Entries.{entry_of};
    ghost use Rattle.ruleset_model.specs.Phases.{all_phases};
    ghost use Rattle.ruleset_model.specs.Valid.{IsValid};

    ghost Value = { ConfigParts };

    ghost coded = { Prim.hlevel (codes, expr_row.coded) };

    ghost view = { λ config. record { lists = config.lists; rulesets = config.rulesets } };

    ghost invariant = { λ config. IsValid config.lists config.rulesets × (config.entries ≡ map (entry_of config.rulesets) all_phases) };
}

/// No lists. Takes no memory in fact.
fn no_lists(alloc: Global) -> Result<Lists, Memory>
    ensures { IfOk result (λ lists. lists ≡ []) }
{
    match Lists::build(alloc, Items::new(alloc)) {
        Ok(lists) => Ok(lists),
        Err(_) => Err(Memory),
    }
}

impl Config {
    ghost use Rattle.std.specs.Prelude.{◌≡◌, [], IfOk};
    ghost use Rattle.ruleset_model.specs.Entries.{entry_of};
    ghost use Rattle.ruleset_model.specs.Valid.{IsValid};

    /// The configuration of these lists and rulesets, which are valid together. Takes no memory.
    pub fn of(lists: Lists, rulesets: Rulesets) -> Config
        requires { IsValid lists rulesets }
        ensures lists { result.lists ≡ lists }
        ensures rulesets { result.rulesets ≡ rulesets }
    {
        let entries = entry_points(rulesets.as_slice());
        Config {
            lists,
            rulesets,
            entries,
        }
    }

    /// The configuration without lists and rulesets.
    pub fn empty(alloc: Global) -> Result<Config, Memory>
        ensures lists { IfOk result (λ config. config.lists ≡ []) }
        ensures rulesets { IfOk result (λ config. config.rulesets ≡ []) }
    {
        Ok(Config::of(no_lists(alloc)?, Items::new(alloc)))
    }

    /// The rulesets, each known by its place. Takes no memory.
    pub fn rulesets(&self) -> &[Ruleset]
        ensures ok { result.now ≡ self.now.rulesets }
        ensures valid { IsValid self.now.lists self.now.rulesets }
    {
        self.rulesets.as_slice()
    }

    /// The lists. Takes no memory.
    pub fn lists(&self) -> &Lists
        ensures { result.now ≡ self.now.lists }
    {
        &self.lists
    }

    /// The place of the phase's entry point. Takes no memory.
    pub fn entry(&self, phase: Phase) -> Option<u32>
        ensures { result ≡ entry_of self.now.rulesets phase }
    {
        self.entries[phase.number()]
    }
}
