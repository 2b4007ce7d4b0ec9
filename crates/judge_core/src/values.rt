//! What conditions and computed texts give, on what is carried.

ghost use Rattle.std.specs.Prelude.{◌≡◌, IfOk};
ghost use Rattle.std.specs.Option.{option_and_then};
ghost use Rattle.edge_fields.specs.Values.{text_in};
ghost use Rattle.judge_core.specs.Places.{carried_of, Suits, DynamicSuits};
ghost use Rattle.judge_core.specs.Values.{Listed, AreTold, value_on, is_true_on, text_on};

use crate::carried::State;
use edge_base::{Memory, Text};
use edge_fields::Value;
use ruleset_model::{Config, Dynamic, Filter};
use std::alloc::Global;

/// Whether a condition is true; a missing value is false.
pub(crate) fn is_true(
    alloc: Global,
    config: &Config,
    filter: &Filter,
    state: &State,
) -> Result<bool, Memory>
    ghost listed: { Listed }
    requires told { AreTold listed config.now }
    requires suits { Suits config.now filter.now }
    ensures { IfOk result (λ holds. holds ≡ is_true_on listed filter.now (carried_of config.now state.now)) }
{
    filter.holds(alloc, &state.request, state.reply.as_ref(), config.lists())
}

/// The value of an expression, or none.
pub(crate) fn value_on(
    alloc: Global,
    config: &Config,
    filter: &Filter,
    state: &State,
) -> Result<Option<Value>, Memory>
    ghost listed: { Listed }
    requires told { AreTold listed config.now }
    requires suits { Suits config.now filter.now }
    ensures { IfOk result (λ found. found ≡ value_on listed filter.now (carried_of config.now state.now)) }
{
    filter.run(alloc, &state.request, state.reply.as_ref(), config.lists())
}

/// The text that a value is.
fn text_in(found: Option<Value>) -> Option<Text>
    ensures { result ≡ option_and_then text_in found }
{
    match found {
        Some(Value::Text(text)) => Some(text),
        _ => None,
    }
}

/// A text that is written out, or what an expression gives, or none.
pub(crate) fn text_on(
    alloc: Global,
    config: &Config,
    dynamic: &Dynamic,
    state: &State,
) -> Result<Option<Text>, Memory>
    ghost listed: { Listed }
    requires told { AreTold listed config.now }
    requires suits { DynamicSuits config.now dynamic.now }
    ensures { IfOk result (λ found. found ≡ text_on listed dynamic.now (carried_of config.now state.now)) }
{
    match dynamic {
        Dynamic::Fixed(text) => Ok(Some(text.copy(alloc)?)),
        Dynamic::Computed { filter, .. } => Ok(text_in(value_on(alloc, config, filter, state)?)),
    }
}
