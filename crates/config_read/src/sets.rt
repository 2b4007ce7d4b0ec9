ghost use Rattle.std.specs.Prelude.{◌≡◌, ◌<◌, ◌≤◌, length, map, codes, option_map, option_and_then, IfOk, IfSome};
ghost use Rattle.std.specs.List.{position};
ghost use Rattle.serde_json.specs.View.{view};
ghost use Rattle.serde_json.specs.Find.{get, as_str};
ghost use Rattle.config_read.specs.Executions.{has_id};
ghost use Rattle.config_read.specs.Ids.{AreFirstPlaces};

use crate::ids::{Ids, keep, place_of};
use edge_base::Memory;
use serde_json::Value;
use std::alloc::Global;
use std::collections::BTreeMap;

/// The rulesets of a document, which are found by their ids.
#[derive(Drop)]
pub(crate) struct Sets<'v> {
    pub values: &'v [Value],
    first: Ids<'v>,
    ghost few: { length values.now ≤ 256 },
    ghost places: { AreFirstPlaces first (map view values.now) },
}

/// The text that a ruleset has as its id.
fn own_id(set: &Value) -> Option<&[u8]>
    ensures { option_map (λ id. id.now) result ≡ option_and_then as_str (get (codes "id") (view set.now)) }
{
    match set.get("id") {
        Some(member) => match member.as_str() {
            Some(text) => Some(text.as_bytes()),
            None => None,
        },
        None => None,
    }
}

/// The first place of each id.
#[tactic(auto, using(crate::proofs::IdLemmas::none_left, crate::proofs::IdLemmas::from_first))]
fn first_places<'v>(alloc: Global, values: &'v [Value]) -> Result<Ids<'v>, Memory>
    ensures { IfOk result (λ ids. AreFirstPlaces ids (map view values.now)) }
{
    let mut ids = BTreeMap::new(alloc);
    let mut at = values.len();
    while 0 < at {
        at -= 1;
        if let Some(id) = own_id(&values[at]) {
            keep(&mut ids, id, at)?;
        }
    }
    Ok(ids)
}

/// Makes the rulesets ready to be found.
pub(crate) fn sets_of<'v>(alloc: Global, values: &'v [Value]) -> Result<Sets<'v>, Memory>
    requires { length values.now ≤ 256 }
    ensures { IfOk result (λ sets. sets.values.now ≡ values.now) }
{
    let first = first_places(alloc, values)?;
    Ok(Sets { values, first })
}

/// The place of the first ruleset that has the id.
pub(crate) fn position_of(sets: &Sets, id: &[u8]) -> Option<usize>
    ensures value { result ≡ position (has_id id.now) (map view sets.now.values.now) }
    ensures within { IfSome result (λ at. at < length sets.now.values.now) }
{
    place_of(&sets.first, id)
}
