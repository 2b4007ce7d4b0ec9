ghost use Rattle.std.specs.Prelude.{◌≡◌, codes, IfOk};
ghost use Rattle.serde_json.specs.View.{view};
ghost use Rattle.ruleset_model.specs.Phases.{condition_place};
ghost use Rattle.config_read.specs.Refusals.{IsAnswerOf};
ghost use Rattle.config_read.specs.Members.{text};
ghost use Rattle.config_read.specs.Judged.{judged};
ghost use Rattle.config_read.specs.Filters.{IsFilterOf};
ghost use Rattle.config_read.specs.RulesOf.{condition_table};

use crate::fault::ConfigFault;
use crate::judging::filter_of;
use crate::members::needed_text;
use edge_base::Text;
use edge_fields::Scheme;
use ruleset_model::{Filter, Phase};
use serde_json::Value;
use std::alloc::Global;
use type_check::Place;

/// A condition with its text.
#[derive(Drop)]
pub(crate) struct Condition {
    pub source: Text,
    pub filter: Filter,
}

/// Where a condition of the phase stands.
fn condition_place(phase: Phase) -> Place
    ensures { result ≡ condition_place phase }
{
    if phase == Phase::ResponseTransform {
        Place::ReplyFilter
    } else {
        Place::Filter
    }
}

/// The condition of a rule.
#[tactic(auto, unfolding(crate::specs::RulesOf::condition_table))]
pub(crate) fn condition_of(
    alloc: Global,
    scheme: &Scheme,
    phase: Phase,
    place: &[u8],
    value: &Value,
) -> Result<Condition, ConfigFault>
    ensures table { IsAnswerOf result (condition_table (judged scheme.now) phase place.now (view value.now)) }
    ensures value { IfOk result (λ made. made.source ≡ text (codes "expression") (view value.now)) }
    ensures built { IfOk result (λ made. IsFilterOf scheme.now (condition_place phase) made.source made.filter) }
{
    let source = needed_text(alloc, place, "expression", value)?;
    let at = condition_place(phase);
    let filter = filter_of(alloc, scheme, at, place, "expression", source)?;
    Ok(Condition {
        source: Text::of(alloc, source)?,
        filter,
    })
}
