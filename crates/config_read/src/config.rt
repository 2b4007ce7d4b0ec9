ghost use Rattle.std.specs.Prelude.{◌≡◌, ◌≤◌, map, length, None, IfOk};
ghost use Rattle.std.specs.List.{All};
ghost use Rattle.serde_json.specs.View.{view};
ghost use Rattle.list_store.specs.Listed.{list_kinds_of};
ghost use Rattle.list_store.specs.Parts.{AreFineBefore};
ghost use Rattle.ruleset_model.specs.Data.{set_data, config_data};
ghost use Rattle.ruleset_model.specs.Valid.{IsListFormed};
ghost use Rattle.config_read.specs.Answered.{IsBuiltOfTexts};
ghost use Rattle.config_read.specs.Refusals.{IsAnswerOf};
ghost use Rattle.config_read.specs.Judged.{judged};
ghost use Rattle.config_read.specs.Filters.{AreRulesetsBuilt};
ghost use Rattle.config_read.specs.ListsOf.{lists_at};
ghost use Rattle.config_read.specs.RulesetsOf.{rulesets_at};
ghost use Rattle.config_read.specs.Reads.{document_table, stands, Reads, ReadsBytes, config_of};

use crate::document::{Document, document_in};
use crate::fault::ConfigFault;
use crate::reading::value_of;
use edge_base::Memory;
use list_store::{ListFault, ListParts, Lists, list_faults_are_unique};
use ruleset_model::{Config, Rulesets};
use serde_json::Value;
use std::alloc::Global;

/// Why lists that are fine weren't built: for want of memory.
fn want_of(fault: ListFault) -> Memory
    requires { fault ≡ ListFault.Memory }
{
    match fault {
        ListFault::Memory => Memory,
        ListFault::DuplicateList { .. }
        | ListFault::BadListItem { .. }
        | ListFault::TooManyItems { .. } => unreachable!(),
    }
}

/// The lists of a document of which nothing is refused.
fn built(alloc: Global, parts: ListParts) -> Result<Lists, Memory>
    requires few { length parts ≤ 64 }
    requires formed { All IsListFormed parts }
    requires fine { AreFineBefore parts (length parts) }
    ensures { IfOk result (λ lists. lists ≡ parts) }
{
    list_faults_are_unique();
    match Lists::build(alloc, parts) {
        Ok(lists) => Ok(lists),
        Err(fault) => Err(want_of(fault)),
    }
}

/// The configuration of what was read of a document.
#[tactic(auto, using(crate::proofs::ValidRules::same_config))]
fn configured(
    alloc: Global,
    value: &Value,
    lists: ListParts,
    rulesets: Rulesets,
) -> Result<Config, ConfigFault>
    requires passed { document_table judged (view value.now) None }
    requires lists { lists ≡ lists_at (view value.now) }
    requires rulesets { map set_data rulesets ≡ rulesets_at (view value.now) }
    requires built { AreRulesetsBuilt (list_kinds_of lists) rulesets }
    ensures table { IsAnswerOf result (document_table judged (view value.now)) }
    ensures value { IfOk result (λ config. config_data config ≡ stands (view value.now)) }
    ensures built { IfOk result IsBuiltOfTexts }
{
    match built(alloc, lists) {
        Ok(lists) => Ok(Config::of(lists, rulesets)),
        Err(Memory) => Err(ConfigFault::Memory),
    }
}

fn config_in(alloc: Global, value: &Value) -> Result<Config, ConfigFault>
    ensures table { IsAnswerOf result (document_table judged (view value.now)) }
    ensures value { IfOk result (λ config. config_data config ≡ stands (view value.now)) }
    ensures built { IfOk result IsBuiltOfTexts }
{
    match document_in(alloc, value) {
        Ok(Document { lists, rulesets }) => configured(alloc, value, lists, rulesets),
        Err(fault) => Err(fault),
    }
}

/// The configuration that a document stands for, or what of it is refused first.
pub fn config_of(alloc: Global, value: &Value) -> Result<Config, ConfigFault>
    ensures reads { Reads (view value.now) (config_of result) }
    ensures built { IfOk result IsBuiltOfTexts }
{
    match config_in(alloc, value) {
        Ok(config) => Ok(config),
        Err(fault) => Err(fault),
    }
}

/// The configuration that the bytes of a document stand for, or what of them is refused first.
pub fn read_config(alloc: Global, bytes: &[u8]) -> Result<Config, ConfigFault>
    ensures { ReadsBytes bytes.now (config_of result) }
{
    let value = match value_of(alloc, bytes) {
        Ok(value) => value,
        Err(fault) => return Err(fault),
    };
    config_of(alloc, &value)
}
