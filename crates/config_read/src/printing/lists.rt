//! Named lists as they are printed.
ghost use Rattle.std.specs.Prelude.{◌≡◌, map, IfOk};
ghost use Rattle.serde_json.specs.Data.{array};
ghost use Rattle.serde_json.specs.View.{view, items_of};
ghost use Rattle.config_read.specs.Printed.{list_kind_name, printed_list};

use crate::printing::values::{text_value, texts_value};
use edge_base::Memory;
use edge_fields::Basic;
use list_store::ListPart;
use serde_json::{Map, Value, put};
use std::alloc::Global;

/// The name of a list's kind.
fn list_kind_name(kind: Basic) -> &'static [u8]
    ensures { result.now ≡ list_kind_name kind }
{
    match kind {
        Basic::Addr => b"ip",
        Basic::Text | Basic::Num | Basic::Bool => b"text",
    }
}

#[tactic(auto, using(crate::proofs::PrintLemmas::building), unfolding(crate::specs::Printed::printed_list))]
fn list_value(alloc: Global, list: &ListPart) -> Result<Value, Memory>
    ensures { IfOk result (λ v. view v ≡ printed_list list.now) }
{
    let name = text_value(alloc, list.name.bytes())?;
    let kind = text_value(alloc, list_kind_name(list.kind))?;
    let items = texts_value(alloc, list.items.as_slice())?;
    let mut map = Map::new(alloc);
    put(&mut map, alloc, "name", name)?;
    put(&mut map, alloc, "kind", kind)?;
    put(&mut map, alloc, "items", items)?;
    Ok(Value::Object(map))
}

/// The array of these lists.
#[tactic(auto, using(crate::proofs::PrintLemmas::building))]
pub(crate) fn lists_value(alloc: Global, lists: &[ListPart]) -> Result<Value, Memory>
    ensures { IfOk result (λ v. view v ≡ array (items_of (map printed_list lists.now))) }
{
    let mut values = Vec::new(alloc);
    for list in lists {
        values.push(list_value(alloc, list)?)?;
    }
    Ok(Value::Array(values))
}
