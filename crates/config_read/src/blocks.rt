ghost use Rattle.std.specs.Prelude.{◌≡◌, codes, option_map, IfOk};
ghost use Rattle.serde_json.specs.View.{view};
ghost use Rattle.config_read.specs.Refusals.{IsAnswerOf};
ghost use Rattle.config_read.specs.Members.{typed};
ghost use Rattle.config_read.specs.Forms.{block_status, header_value};
ghost use Rattle.ruleset_model.specs.Forms.{breaks_header, is_header_value};
ghost use Rattle.config_read.specs.Blocks.{default_status, response_table, response_at, block_table, block_at, status_at, content_type_at};

use crate::fault::{Cause, ConfigFault};
use crate::members::{object_if_there, text_or};
use crate::places::child;
use crate::refusals::member_refusal;
use edge_base::Text;
use ruleset_model::{Phase, Response};
use serde_json::Value;
use std::alloc::Global;

/// The status with which rules of the phase block.
fn default_status(phase: Phase) -> u16
    ensures { result ≡ default_status phase }
{
    if phase == Phase::RateLimit { 429 } else { 403 }
}

/// A status with which a rule may block.
fn block_status(value: &Value) -> Option<u16>
    ensures { result ≡ block_status (view value.now) }
{
    let status = value.as_u64()?;
    if 400 <= status && status <= 499 {
        Some(status as u16)
    } else {
        None
    }
}

fn status_of(
    alloc: Global,
    phase: Phase,
    place: &[u8],
    response: &Value,
) -> Result<u16, ConfigFault>
    ensures table { IsAnswerOf result (typed block_status place.now (codes "status_code") (view response.now)) }
    ensures value { IfOk result (λ status. status ≡ status_at phase (view response.now)) }
{
    let Some(member) = response.get("status_code") else {
        return Ok(default_status(phase));
    };
    match block_status(member) {
        Some(status) => Ok(status),
        None => Err(member_refusal(alloc, place, "status_code", Cause::Shape)),
    }
}

/// Whether no header's value has the byte.
fn breaks_header(byte: u8) -> bool
    ensures { result ≡ breaks_header byte }
{
    byte == 0 || byte == b'\n' || byte == b'\r'
}

fn is_header_value(text: &[u8]) -> bool
    ensures { result ≡ is_header_value text.now }
{
    text.iter().all(|&byte| !breaks_header(byte))
}

fn header_value(value: &Value) -> Option<&[u8]>
    ensures { option_map (λ text. text.now) result ≡ header_value (view value.now) }
{
    let text = value.as_str()?.as_bytes();
    if is_header_value(text) {
        Some(text)
    } else {
        None
    }
}

fn content_type_of<'v>(
    alloc: Global,
    place: &[u8],
    response: &'v Value,
) -> Result<&'v [u8], ConfigFault>
    ensures table { IsAnswerOf result (typed header_value place.now (codes "content_type") (view response.now)) }
    ensures value { IfOk result (λ found. found.now ≡ content_type_at (view response.now)) }
{
    let Some(member) = response.get("content_type") else {
        return Ok(b"text/plain");
    };
    match header_value(member) {
        Some(text) => Ok(text),
        None => Err(member_refusal(alloc, place, "content_type", Cause::Shape)),
    }
}

/// The response of a rule that blocks.
#[tactic(auto, unfolding(crate::specs::Blocks::response_table, crate::specs::Blocks::response_at))]
fn response_of(
    alloc: Global,
    phase: Phase,
    place: &[u8],
    response: &Value,
) -> Result<Response, ConfigFault>
    ensures table { IsAnswerOf result (response_table place.now (view response.now)) }
    ensures value { IfOk result (λ made. made ≡ response_at phase (view response.now)) }
{
    let status_code = status_of(alloc, phase, place, response)?;
    let content = text_or(alloc, place, "content", response, b"blocked\n")?;
    let content_type = content_type_of(alloc, place, response)?;
    Ok(Response {
        status_code,
        content: Text::of(alloc, content)?,
        content_type: Text::of(alloc, content_type)?,
    })
}

/// The response that the parameters of a `block` give, if they give one.
#[tactic(auto, unfolding(crate::specs::Blocks::block_table, crate::specs::Blocks::response_table))]
pub(crate) fn block_of(
    alloc: Global,
    phase: Phase,
    place: &[u8],
    parameters: &Value,
) -> Result<Option<Response>, ConfigFault>
    ensures table { IsAnswerOf result (block_table place.now (view parameters.now)) }
    ensures value { IfOk result (λ made. made ≡ block_at phase (view parameters.now)) }
{
    match object_if_there(alloc, place, "response", parameters)? {
        Some(response) => {
            let place = child(alloc, place, b"response")?;
            Ok(Some(response_of(alloc, phase, place.bytes(), response)?))
        }
        None => Ok(None),
    }
}
