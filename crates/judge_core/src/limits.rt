//! The key of a rule with a limit, and whether its step adds.

ghost use Rattle.std.specs.Prelude.{◌≡◌, ◌++◌, Some, IfSome, IfOk, OnOk};
ghost use Rattle.std.specs.Int.{cast_unsigned, w64};
ghost use Rattle.std.specs.List.{All};
ghost use Rattle.std.specs.Option.{option_copied};
ghost use Rattle.ruleset_model.specs.declared.limit.Characteristic.{Characteristic as CharacteristicOf};
ghost use Rattle.judge_core.specs.Limits.{tagged, number_bytes, wide_bytes, bytes_of_value, bytes_of_array};
ghost use Rattle.judge_core.specs.Limits.{bytes_on, values_on, is_by_reply, adds_on};
ghost use Rattle.judge_core.specs.Keeping.{IsKeyOn};
ghost use Rattle.judge_core.specs.Places.{carried_of, Suits, LimitSuits};
ghost use Rattle.judge_core.specs.Values.{Listed, AreTold};

use crate::acting::name_of;
use crate::carried::State;
use crate::values::{is_true, value_on};
use edge_base::{Addr, Memory, Text, TextBuilder};
use edge_fields::Value;
use rate_plain::Key;
use ruleset_model::{Characteristic, Config, Counting, Limit, Rule, Ruleset};
use std::alloc::Global;

// ---- the key

/// Adds a value's bytes, behind its tag and how many they are.
fn push_tagged(text: &mut TextBuilder, tag: u8, bytes: &[u8]) -> Result<(), Memory>
    ensures { OnOk result (text.new ≡ text.old ++ tagged tag bytes.now) }
{
    let count = (bytes.len() % 4_294_967_296) as u32;
    text.push(&[tag])?;
    text.push(&count.to_be_bytes())?;
    text.push(bytes)
}

/// The same bits as a number without a sign.
fn unsigned(number: i64) -> u64
    ensures { result ≡ cast_unsigned w64 number }
{
    number.cast_unsigned()
}

/// Adds the bytes of a number.
fn push_number(text: &mut TextBuilder, number: i64) -> Result<(), Memory>
    ensures { OnOk result (text.new ≡ text.old ++ tagged 2 (number_bytes number)) }
{
    push_tagged(text, 2, &unsigned(number).to_be_bytes())
}

/// Adds the bytes of an address of the sixth version.
#[tactic(auto, unfolding(crate::specs::Limits::wide_bytes))]
fn push_wide(text: &mut TextBuilder, number: u128) -> Result<(), Memory>
    ensures { OnOk result (text.new ≡ text.old ++ tagged 4 (wide_bytes number)) }
{
    push_tagged(text, 4, &number.to_be_bytes())
}

/// Adds the bytes of a value.
#[cycle(pushing)]
fn push_value(alloc: Global, text: &mut TextBuilder, value: &Value) -> Result<(), Memory>
    ensures { OnOk result (text.new ≡ text.old ++ bytes_of_value (Some value.now)) }
{
    match value {
        Value::Text(own) => push_tagged(text, 1, own.bytes()),
        Value::Num(number) => push_number(text, *number),
        Value::Addr(Addr::V4(number)) => push_tagged(text, 3, &number.to_be_bytes()),
        Value::Addr(Addr::V6(number)) => push_wide(text, *number),
        Value::Array(items) => push_values(alloc, text, items.as_slice()),
        Value::Bool(_) | Value::Map(_) => push_tagged(text, 0, &[]),
    }
}

/// Adds the bytes of an array.
#[cycle(pushing)]
fn push_values(alloc: Global, text: &mut TextBuilder, items: &[Value]) -> Result<(), Memory>
    ensures { OnOk result (text.new ≡ text.old ++ bytes_of_array items.now) }
{
    let mut all = TextBuilder::new(alloc);
    for item in items {
        push_value(alloc, &mut all, item)?;
    }
    push_tagged(text, 5, all.bytes())
}

/// Adds the bytes of a value, or those of none.
fn push_found(alloc: Global, text: &mut TextBuilder, found: &Option<Value>) -> Result<(), Memory>
    ensures { OnOk result (text.new ≡ text.old ++ bytes_of_value found.now) }
{
    match found {
        Some(value) => push_value(alloc, text, value),
        None => push_tagged(text, 0, &[]),
    }
}

/// Adds the bytes of the value of a characteristic.
fn push_characteristic(
    alloc: Global,
    config: &Config,
    text: &mut TextBuilder,
    one: &Characteristic,
    state: &State,
) -> Result<(), Memory>
    ghost listed: { Listed }
    requires told { AreTold listed config.now }
    requires suits { Suits config.now one.now.filter }
    ensures { OnOk result (text.new ≡ text.old ++ bytes_on listed (carried_of config.now state.now) one.now) }
{
    let found = value_on(alloc, config, &one.filter, state)?;
    push_found(alloc, text, &found)
}

/// The bytes of the values of some characteristics, one after the other.
fn values_on(
    alloc: Global,
    config: &Config,
    characteristics: &[Characteristic],
    state: &State,
) -> Result<Text, Memory>
    ghost listed: { Listed }
    requires told { AreTold listed config.now }
    requires suits { All (λ (one : CharacteristicOf). Suits config.now one.filter) characteristics.now }
    ensures { IfOk result (λ text. text ≡ values_on listed characteristics.now (carried_of config.now state.now)) }
{
    let mut text = TextBuilder::new(alloc);
    for one in characteristics {
        push_characteristic(alloc, config, &mut text, one, state)?;
    }
    Ok(text.into_text())
}

/// The key of a rule.
pub(crate) fn key_on(
    alloc: Global,
    config: &Config,
    set: &Ruleset,
    rule: &Rule,
    limit: &Limit,
    state: &State,
) -> Result<Key, Memory>
    ghost listed: { Listed }
    requires told { AreTold listed config.now }
    requires suits { LimitSuits config.now limit.now }
    ensures { IfOk result (IsKeyOn listed config.now set.now rule.now limit.now state.now) }
{
    Ok(Key {
        rule: name_of(alloc, set, rule)?,
        period: limit.period,
        threshold: limit.threshold,
        timeout: limit.timeout,
        values: values_on(alloc, config, limit.characteristics.as_slice(), state)?,
    })
}

// ---- the step

/// Whether a rule counts by the reply.
pub(crate) fn is_by_reply(counting: &Option<Counting>) -> bool
    ensures { result ≡ is_by_reply counting.now }
{
    match counting {
        Some(counting) => counting.reply,
        None => false,
    }
}

/// Whether a step of the request adds.
pub(crate) fn adds_on(
    alloc: Global,
    config: &Config,
    counting: &Option<Counting>,
    holds: bool,
    state: &State,
) -> Result<bool, Memory>
    ghost listed: { Listed }
    requires told { AreTold listed config.now }
    requires suits { IfSome counting.now (λ one. Suits config.now one.filter) }
    ensures { IfOk result (λ adds. adds ≡ adds_on listed counting.now holds (carried_of config.now state.now)) }
{
    match counting {
        None => Ok(holds),
        Some(counting) => {
            if counting.reply {
                return Ok(false);
            }
            is_true(alloc, config, &counting.filter, state)
        }
    }
}
