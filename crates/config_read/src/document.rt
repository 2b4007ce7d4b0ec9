ghost use Rattle.std.specs.Prelude.{◌≡◌, map, IfOk};
ghost use Rattle.edge_fields.specs.Schemes.{AreLists};
ghost use Rattle.list_store.specs.Listed.{list_kinds_of};
ghost use Rattle.serde_json.specs.View.{view};
ghost use Rattle.ruleset_model.specs.Data.{set_data};
ghost use Rattle.config_read.specs.Refusals.{IsAnswerOf};
ghost use Rattle.config_read.specs.Judged.{judged};
ghost use Rattle.config_read.specs.Filters.{AreRulesetsBuilt};
ghost use Rattle.config_read.specs.ListsOf.{lists_at};
ghost use Rattle.config_read.specs.RulesetsOf.{rulesets_at};
ghost use Rattle.config_read.specs.Reads.{document_table, Reads, given_of};

use crate::fault::ConfigFault;
use crate::lists::{form_of, lists_in};
use crate::members::an_object;
use crate::rulesets::rulesets_of;
use edge_base::Memory;
use edge_fields::{ListKinds, Scheme};
use list_store::{ListPart, ListParts};
use ruleset_model::Rulesets;
use serde_json::Value;
use sqlite_items::Items;
use std::alloc::Global;

/// The lists and the rulesets that a document stands for.
#[derive(Drop)]
pub struct Document {
    pub lists: ListParts,
    pub rulesets: Rulesets,
}

/// The names of lists with what each holds.
fn kinds_of(alloc: Global, lists: &[ListPart]) -> Result<ListKinds, Memory>
    ensures { IfOk result (λ kinds. kinds ≡ list_kinds_of lists.now) }
{
    let mut kinds = Items::new(alloc);
    for list in lists {
        kinds.push((list.name.copy(alloc)?, list.kind))?;
    }
    Ok(kinds)
}

/// What expressions may speak of beside these lists.
fn scheme_of(alloc: Global, lists: &[ListPart]) -> Result<Scheme, Memory>
    requires { AreLists (list_kinds_of lists.now) }
    ensures { IfOk result (λ scheme. scheme ≡ list_kinds_of lists.now) }
{
    let kinds = kinds_of(alloc, lists)?;
    Scheme::new(alloc, &kinds)
}

#[tactic(auto, unfolding(crate::specs::Reads::document_table))]
pub(crate) fn document_in(alloc: Global, value: &Value) -> Result<Document, ConfigFault>
    ensures table { IsAnswerOf result (document_table judged (view value.now)) }
    ensures lists { IfOk result (λ made. made.lists ≡ lists_at (view value.now)) }
    ensures rulesets { IfOk result (λ made. map set_data made.rulesets ≡ rulesets_at (view value.now)) }
    ensures built { IfOk result (λ made. AreRulesetsBuilt (list_kinds_of made.lists) made.rulesets) }
{
    an_object(alloc, b"/", value)?;
    form_of(alloc, value)?;
    let lists = lists_in(alloc, value)?;
    let scheme = scheme_of(alloc, lists.as_slice())?;
    let rulesets = rulesets_of(alloc, &scheme, value)?;
    Ok(Document { lists, rulesets })
}

/// What a document stands for, or what of it is refused first.
pub fn document_of(alloc: Global, value: &Value) -> Result<Document, ConfigFault>
    ensures reads { Reads (view value.now) (given_of result) }
{
    match document_in(alloc, value) {
        Ok(made) => Ok(made),
        Err(fault) => Err(fault),
    }
}
