ghost use Rattle.std.specs.Prelude.{◌≡◌, ◌≤◌, map, codes, option_map, Some, is_some, is_none, IfOk, IfSome};
ghost use Rattle.serde_json.specs.View.{view};
ghost use Rattle.serde_json.specs.Find.{as_str};
ghost use Rattle.type_check.specs.declared.fault.Place.TheVariants as stand;
ghost use Rattle.ruleset_model.specs.Data.{limit_data};
ghost use Rattle.config_read.specs.declared.fault.Cause.TheVariants as cause;
ghost use Rattle.config_read.specs.Places.{child};
ghost use Rattle.config_read.specs.Refusals.{IsAnswerOf, refuse};
ghost use Rattle.config_read.specs.Members.{text_of, texts};
ghost use Rattle.config_read.specs.Judged.{judged};
ghost use Rattle.config_read.specs.Filters.{IsCharacteristicBuilt, IsCountingBuilt, IsLimitBuilt};
ghost use Rattle.std.specs.List.{AllByRecursion};
ghost use Rattle.config_read.specs.Forms.{integer, number_within};
ghost use Rattle.config_read.specs.Limits.{number_table, one_characteristic_table, ranged, needed_ranged, characteristic_source, each_characteristic_table, is_miscounted, characteristics_table, typed_counting, counting_source, filled, counting_at, milliseconds, numbers_table, period_at, threshold_at, timeout_at, held_limit_table, held_limit_at, is_limited, limit_table, limit_at, number_or, sources_of, counting_table};
ghost use Rattle.config_read.specs.Here.{characteristic_here};

use crate::action::Action;
use crate::fault::{Cause, ConfigFault};
use crate::judging::{characteristic_of, counting_of};
use crate::members::{needed_array, needed_object, object_if_there, text_or};
use crate::places::{child, nth};
use crate::refusals::{member_refusal, refusal, refuse};
use edge_fields::Scheme;
use ruleset_model::{Characteristic, Characteristics, Counting, Limit, Phase};
use serde_json::Value;
use sqlite_items::Items;
use std::alloc::Global;

/// The seconds of a day, the longest period and timeout.
const DAY: u64 = 86_400;

/// The most requests that a period may let through.
const MAX_REQUESTS: u64 = 1_000_000;

/// The most characteristics of a limit.
const MAX_CHARACTERISTICS: usize = 8;

/// Whether a value is a number that is written in whole numbers.
fn is_integer(value: &Value) -> bool
    ensures { result ≡ is_some (integer (view value.now)) }
{
    match value.as_number() {
        Some(number) => number.as_i128().is_some(),
        None => false,
    }
}

/// An integer from the first to the last.
fn number_within(first: u64, last: u64, value: &Value) -> Option<u64>
    ensures { result ≡ number_within first last (view value.now) }
{
    let number = value.as_u64()?;
    if first <= number && number <= last {
        Some(number)
    } else {
        None
    }
}

/// The number that a member is.
fn number_of(
    alloc: Global,
    first: u64,
    last: u64,
    place: &[u8],
    name: &str,
    member: &Value,
) -> Result<u64, ConfigFault>
    ensures table { IsAnswerOf result (number_table first last (child place.now name.now) (view member.now)) }
    ensures value { IfOk result (λ number. number_within first last (view member.now) ≡ Some number) }
    ensures within { IfOk result (λ number. (first ≤ number) × (number ≤ last)) }
{
    if !is_integer(member) {
        return Err(member_refusal(alloc, place, name, Cause::Shape));
    }
    match number_within(first, last, member) {
        Some(number) => Ok(number),
        None => Err(member_refusal(alloc, place, name, Cause::BadLimit)),
    }
}

/// The number of a member, by default this one.
pub(crate) fn ranged_or(
    alloc: Global,
    first: u64,
    last: u64,
    place: &[u8],
    name: &str,
    value: &Value,
    default: u64,
) -> Result<u64, ConfigFault>
    requires { (first ≤ default) × (default ≤ last) }
    ensures table { IsAnswerOf result (ranged first last place.now name.now (view value.now)) }
    ensures value { IfOk result (λ number. number ≡ number_or first last default name.now (view value.now)) }
    ensures within { IfOk result (λ number. (first ≤ number) × (number ≤ last)) }
{
    match value.get(name) {
        Some(member) => number_of(alloc, first, last, place, name, member),
        None => Ok(default),
    }
}

/// The number of a member that must be there.
pub(crate) fn needed_ranged(
    alloc: Global,
    first: u64,
    last: u64,
    place: &[u8],
    name: &str,
    value: &Value,
) -> Result<u64, ConfigFault>
    ensures table { IsAnswerOf result (needed_ranged first last place.now name.now (view value.now)) }
    ensures value { IfOk result (λ number. number ≡ number_or first last 1 name.now (view value.now)) }
    ensures within { IfOk result (λ number. (first ≤ number) × (number ≤ last)) }
{
    match value.get(name) {
        Some(member) => number_of(alloc, first, last, place, name, member),
        None => Err(member_refusal(alloc, place, name, Cause::Missing)),
    }
}

/// The text that stands at a place.
fn whole_text<'v>(alloc: Global, place: &[u8], value: &'v Value) -> Result<&'v [u8], ConfigFault>
    ensures table { IsAnswerOf result (refuse place.now cause.Shape (is_none (as_str (view value.now)))) }
    ensures value { IfOk result (λ found. found.now ≡ text_of (view value.now)) }
{
    match value.as_str() {
        Some(text) => Ok(text.as_bytes()),
        None => Err(refusal(alloc, place, Cause::Shape)),
    }
}

/// The characteristic at a place.
fn characteristic_at(
    alloc: Global,
    scheme: &Scheme,
    place: &[u8],
    value: &Value,
) -> Result<Characteristic, ConfigFault>
    ensures table { IsAnswerOf result (one_characteristic_table (judged scheme.now) place.now (view value.now)) }
    ensures value { IfOk result (λ made. characteristic_source made ≡ text_of (view value.now)) }
    ensures built { IfOk result (IsCharacteristicBuilt scheme.now) }
{
    let text = whole_text(alloc, place, value)?;
    Ok(characteristic_of(alloc, scheme, place, text)?)
}

/// One characteristic, behind those before it.
#[tactic(auto, unfolding(crate::specs::Limits::characteristic_table))]
fn characteristic_in(
    alloc: Global,
    scheme: &Scheme,
    items: &[u8],
    earlier: &[Characteristic],
    value: &Value,
) -> Result<Characteristic, ConfigFault>
    ensures table { IsAnswerOf result (characteristic_here scheme.now items.now earlier.now value.now) }
    ensures value { IfOk result (λ made. characteristic_source made ≡ text_of (view value.now)) }
    ensures built { IfOk result (IsCharacteristicBuilt scheme.now) }
{
    let place = nth(alloc, items, earlier.len())?;
    characteristic_at(alloc, scheme, place.bytes(), value)
}

fn each_characteristic(
    alloc: Global,
    scheme: &Scheme,
    place: &[u8],
    values: &[Value],
) -> Result<Characteristics, ConfigFault>
    ensures table { IsAnswerOf result (each_characteristic_table (judged scheme.now) place.now (map view values.now)) }
    ensures value { IfOk result (λ made. sources_of made ≡ map text_of (map view values.now)) }
    ensures built { IfOk result (AllByRecursion (IsCharacteristicBuilt scheme.now)) }
{
    let mut made = Items::new(alloc);
    for value in values {
        made.push(characteristic_in(alloc, scheme, place, made.as_slice(), value)?)?;
    }
    Ok(made)
}

/// Whether there are too few characteristics, or too many.
fn is_miscounted(values: &[Value]) -> bool
    ensures { result ≡ is_miscounted (map view values.now) }
{
    !(1 <= values.len() && values.len() <= MAX_CHARACTERISTICS)
}

/// The characteristics of a limit.
fn characteristics_of(
    alloc: Global,
    scheme: &Scheme,
    place: &[u8],
    value: &Value,
) -> Result<Characteristics, ConfigFault>
    ensures table { IsAnswerOf result (characteristics_table (judged scheme.now) place.now (view value.now)) }
    ensures value { IfOk result (λ made. sources_of made ≡ texts (codes "characteristics") (view value.now)) }
    ensures built { IfOk result (AllByRecursion (IsCharacteristicBuilt scheme.now)) }
{
    let values = needed_array(alloc, place, "characteristics", value)?;
    refuse(
        alloc,
        is_miscounted(values),
        place,
        "characteristics",
        Cause::BadLimit,
    )?;
    let inner = child(alloc, place, b"characteristics")?;
    each_characteristic(alloc, scheme, inner.bytes(), values)
}

/// What a limit counts by a text, which may be empty for nothing.
fn counting_by(
    alloc: Global,
    scheme: &Scheme,
    place: &[u8],
    text: &[u8],
) -> Result<Option<Counting>, ConfigFault>
    ensures table { IsAnswerOf result (counting_table (judged scheme.now) place.now text.now) }
    ensures value { IfOk result (λ made. option_map counting_source made ≡ filled text.now) }
    ensures built { IfOk result (λ made. IfSome made (IsCountingBuilt scheme.now)) }
{
    if text.is_empty() {
        return Ok(None);
    }
    Ok(Some(counting_of(alloc, scheme, place, "counting_expression", text)?))
}

/// What a limit counts, where it says so.
fn counting_in(
    alloc: Global,
    scheme: &Scheme,
    place: &[u8],
    value: &Value,
) -> Result<Option<Counting>, ConfigFault>
    ensures table { IsAnswerOf result (typed_counting (judged scheme.now) place.now (view value.now)) }
    ensures value { IfOk result (λ made. option_map counting_source made ≡ counting_at (view value.now)) }
    ensures built { IfOk result (λ made. IfSome made (IsCountingBuilt scheme.now)) }
{
    let text = text_or(alloc, place, "counting_expression", value, b"")?;
    Ok(counting_by(alloc, scheme, place, text)?)
}

/// So many seconds, in milliseconds.
fn milliseconds(seconds: u64) -> u64
    requires { seconds ≤ 86400 }
    ensures { result ≡ milliseconds seconds }
{
    seconds * 1000
}

/// The numbers of a limit, its times in milliseconds.
#[derive(Clone, Copy, Debug)]
struct Numbers {
    period: u64,
    threshold: u64,
    timeout: u64,
}

/// The numbers of the limit at a place.
#[tactic(auto, unfolding(crate::specs::Limits::numbers_table))]
fn numbers_of(alloc: Global, place: &[u8], value: &Value) -> Result<Numbers, ConfigFault>
    ensures table { IsAnswerOf result (numbers_table place.now (view value.now)) }
    ensures period { IfOk result (λ numbers. numbers.period ≡ period_at (view value.now)) }
    ensures threshold { IfOk result (λ numbers. numbers.threshold ≡ threshold_at (view value.now)) }
    ensures timeout { IfOk result (λ numbers. numbers.timeout ≡ timeout_at (view value.now)) }
{
    let period = needed_ranged(alloc, 1, DAY, place, "period", value)?;
    let threshold = needed_ranged(alloc, 1, MAX_REQUESTS, place, "requests_per_period", value)?;
    let timeout = ranged_or(alloc, 0, DAY, place, "mitigation_timeout", value, 0)?;
    Ok(Numbers {
        period: milliseconds(period),
        threshold,
        timeout: milliseconds(timeout),
    })
}

/// The limit of an object.
#[tactic(auto, unfolding(crate::specs::Limits::held_limit_table, crate::specs::Limits::held_limit_at))]
fn limit_in(
    alloc: Global,
    scheme: &Scheme,
    place: &[u8],
    value: &Value,
) -> Result<Limit, ConfigFault>
    ensures table { IsAnswerOf result (held_limit_table (judged scheme.now) place.now (view value.now)) }
    ensures value { IfOk result (λ made. limit_data made ≡ held_limit_at (view value.now)) }
    ensures built { IfOk result (IsLimitBuilt scheme.now) }
{
    let has_score = value.get("score_per_period").is_some();
    refuse(alloc, has_score, place, "score_per_period", Cause::BadLimit)?;
    let characteristics = characteristics_of(alloc, scheme, place, value)?;
    let numbers = numbers_of(alloc, place, value)?;
    let counting = counting_in(alloc, scheme, place, value)?;
    Ok(Limit {
        characteristics,
        period: numbers.period,
        threshold: numbers.threshold,
        timeout: numbers.timeout,
        counting,
    })
}

/// Whether rules of the phase that do this have a limit.
fn is_limited(phase: Phase, action: Action) -> bool
    ensures { result ≡ is_limited phase action }
{
    phase == Phase::RateLimit && action != Action::Execute
}

/// The limit of a rule.
pub(crate) fn limit_of(
    alloc: Global,
    scheme: &Scheme,
    phase: Phase,
    action: Action,
    place: &[u8],
    value: &Value,
) -> Result<Option<Limit>, ConfigFault>
    ensures table { IsAnswerOf result (limit_table (judged scheme.now) phase action place.now (view value.now)) }
    ensures value { IfOk result (λ made. option_map limit_data made ≡ limit_at (view value.now)) }
    ensures built { IfOk result (λ made. IfSome made (IsLimitBuilt scheme.now)) }
{
    if is_limited(phase, action) {
        let held = needed_object(alloc, place, "ratelimit", value)?;
        let inner = child(alloc, place, b"ratelimit")?;
        return Ok(Some(limit_in(alloc, scheme, inner.bytes(), held)?));
    }
    match object_if_there(alloc, place, "ratelimit", value)? {
        Some(_) => Err(member_refusal(alloc, place, "ratelimit", Cause::BadLimit)),
        None => Ok(None),
    }
}
