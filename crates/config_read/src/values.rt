ghost use Rattle.std.specs.Prelude.{◌≡◌, option_map, IfOk, IfSome};
ghost use Rattle.serde_json.specs.View.{view};
ghost use Rattle.ruleset_model.specs.Data.{dynamic_data};
ghost use Rattle.config_read.specs.Refusals.{IsAnswerOf};
ghost use Rattle.config_read.specs.Members.{member};
ghost use Rattle.config_read.specs.Judged.{judged};
ghost use Rattle.config_read.specs.Values.{has_one_form, dynamic_table, dynamic_at, typed_dynamic, needed_dynamic, dynamic_under};
ghost use Rattle.config_read.specs.Filters.{IsDynamicBuilt};

use crate::fault::{Cause, ConfigFault};
use crate::judging::filter_of;
use crate::members::{an_object, text_if_there, text_or};
use crate::places::child;
use crate::refusals::{member_refusal, refusal};
use edge_base::Text;
use edge_fields::Scheme;
use ruleset_model::Dynamic;
use serde_json::Value;
use std::alloc::Global;
use type_check::Place;

/// Whether exactly one of the members `value` and `expression` is there.
fn has_one_form(value: &Value) -> bool
    ensures { result ≡ has_one_form (view value.now) }
{
    match value.get("value") {
        Some(_) => value.get("expression").is_none(),
        None => value.get("expression").is_some(),
    }
}

/// A dynamic value.
#[tactic(auto, unfolding(crate::specs::Values::dynamic_table))]
pub(crate) fn dynamic_of(
    alloc: Global,
    scheme: &Scheme,
    at: Place,
    place: &[u8],
    value: &Value,
) -> Result<Dynamic, ConfigFault>
    ensures table { IsAnswerOf result (dynamic_table (judged scheme.now) at place.now (view value.now)) }
    ensures value { IfOk result (λ made. dynamic_data made ≡ dynamic_at (view value.now)) }
    ensures built { IfOk result (IsDynamicBuilt scheme.now at) }
{
    an_object(alloc, place, value)?;
    if !has_one_form(value) {
        return Err(refusal(alloc, place, Cause::Shape));
    }
    let written = text_or(alloc, place, "value", value, b"")?;
    match text_if_there(alloc, place, "expression", value)? {
        Some(source) => {
            let filter = filter_of(alloc, scheme, at, place, "expression", source)?;
            Ok(Dynamic::Computed {
                filter,
                source: Text::of(alloc, source)?,
            })
        }
        None => Ok(Dynamic::Fixed(Text::of(alloc, written)?)),
    }
}

/// A dynamic value that is a member, where it is there.
pub(crate) fn dynamic_if_there(
    alloc: Global,
    scheme: &Scheme,
    at: Place,
    place: &[u8],
    name: &str,
    value: &Value,
) -> Result<Option<Dynamic>, ConfigFault>
    ensures table { IsAnswerOf result (typed_dynamic (judged scheme.now) at place.now name.now (view value.now)) }
    ensures value { IfOk result (λ made. option_map dynamic_data made ≡ dynamic_under name.now (view value.now)) }
    ensures built { IfOk result (λ made. IfSome made (IsDynamicBuilt scheme.now at)) }
{
    match value.get(name) {
        Some(member) => {
            let place = child(alloc, place, name.as_bytes())?;
            Ok(Some(dynamic_of(alloc, scheme, at, place.bytes(), member)?))
        }
        None => Ok(None),
    }
}

/// A dynamic value that is a member that must be there.
pub(crate) fn needed_dynamic(
    alloc: Global,
    scheme: &Scheme,
    at: Place,
    place: &[u8],
    name: &str,
    value: &Value,
) -> Result<Dynamic, ConfigFault>
    ensures table { IsAnswerOf result (needed_dynamic (judged scheme.now) at place.now name.now (view value.now)) }
    ensures value { IfOk result (λ made. dynamic_data made ≡ dynamic_at (member name.now (view value.now))) }
    ensures built { IfOk result (IsDynamicBuilt scheme.now at) }
{
    match value.get(name) {
        Some(member) => {
            let place = child(alloc, place, name.as_bytes())?;
            dynamic_of(alloc, scheme, at, place.bytes(), member)
        }
        None => Err(member_refusal(alloc, place, name, Cause::Missing)),
    }
}
