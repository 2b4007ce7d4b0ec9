ghost use Rattle.std.specs.Prelude.{◌≡◌, codes, None, IfOk};
ghost use Rattle.serde_json.specs.View.{view};
ghost use Rattle.serde_json.specs.Find.{get};
ghost use Rattle.ruleset_model.specs.Data.{uri_data, rewrite_data, redirect_data};
ghost use Rattle.ruleset_model.specs.Forms.{is_redirect_status};
ghost use Rattle.ruleset_model.specs.Phases.{value_place, rewrites_uri};
ghost use Rattle.config_read.specs.Refusals.{IsAnswerOf};
ghost use Rattle.config_read.specs.Members.{typed};
ghost use Rattle.config_read.specs.Forms.{redirect_status};
ghost use Rattle.config_read.specs.Judged.{judged};
ghost use Rattle.config_read.specs.Rewrites.{uri_table, uri_at, other_part, uri_parts_table, headers_parts_table, rewrite_table, rewrite_at, target_table, target_at, redirect_table, redirect_at, redirect_status_at};
ghost use Rattle.config_read.specs.Filters.{IsDynamicBuilt, IsUriBuilt, IsRewriteBuilt};

use crate::fault::{Cause, ConfigFault};
use crate::headers::headers_of;
use crate::members::{needed_object, object_if_there, truth_or};
use crate::places::child;
use crate::refusals::member_refusal;
use crate::values::{dynamic_if_there, needed_dynamic};
use edge_fields::Scheme;
use ruleset_model::{Phase, Redirect, Rewrite, UriRewrite};
use serde_json::Value;
use std::alloc::Global;
use type_check::Place;

/// Where a dynamic value of the phase stands.
fn value_place(phase: Phase) -> Place
    ensures { result ≡ value_place phase }
{
    if phase == Phase::ResponseTransform {
        Place::ReplyValue
    } else {
        Place::Value
    }
}

/// What becomes of the path and of the query.
#[tactic(auto, unfolding(crate::specs::Rewrites::uri_table))]
fn uri_of(
    alloc: Global,
    scheme: &Scheme,
    at: Place,
    place: &[u8],
    value: &Value,
) -> Result<UriRewrite, ConfigFault>
    ensures table { IsAnswerOf result (uri_table (judged scheme.now) at place.now (view value.now)) }
    ensures value { IfOk result (λ made. uri_data made ≡ uri_at (view value.now)) }
    ensures built { IfOk result (IsUriBuilt scheme.now at) }
{
    let path = dynamic_if_there(alloc, scheme, at, place, "path", value)?;
    let query = dynamic_if_there(alloc, scheme, at, place, "query", value)?;
    Ok(UriRewrite { path, query })
}

/// Refuses the part that may not stand there.
fn other_part(alloc: Global, place: &[u8], name: &str, value: &Value) -> Result<(), ConfigFault>
    ensures table { IsAnswerOf result (other_part place.now name.now (view value.now)) }
    ensures value { IfOk result (λ _. get name.now (view value.now) ≡ None) }
{
    match object_if_there(alloc, place, name, value)? {
        Some(_) => Err(member_refusal(alloc, place, name, Cause::ActionPlace)),
        None => Ok(()),
    }
}

/// The rewrite of a phase that changes the path and the query.
fn uri_parts(
    alloc: Global,
    scheme: &Scheme,
    at: Place,
    place: &[u8],
    value: &Value,
) -> Result<Rewrite, ConfigFault>
    ensures table { IsAnswerOf result (uri_parts_table (judged scheme.now) at place.now (view value.now)) }
    ensures value { IfOk result (λ made. rewrite_data made ≡ rewrite_at (view value.now)) }
    ensures built { IfOk result (IsRewriteBuilt scheme.now at) }
{
    let held = needed_object(alloc, place, "uri", value)?;
    let inner = child(alloc, place, b"uri")?;
    let uri = uri_of(alloc, scheme, at, inner.bytes(), held)?;
    other_part(alloc, place, "headers", value)?;
    Ok(Rewrite {
        uri: Some(uri),
        headers: None,
    })
}

/// The rewrite of a phase that changes headers.
fn headers_parts(
    alloc: Global,
    scheme: &Scheme,
    at: Place,
    place: &[u8],
    value: &Value,
) -> Result<Rewrite, ConfigFault>
    ensures table { IsAnswerOf result (headers_parts_table (judged scheme.now) at place.now (view value.now)) }
    ensures value { IfOk result (λ made. rewrite_data made ≡ rewrite_at (view value.now)) }
    ensures built { IfOk result (IsRewriteBuilt scheme.now at) }
{
    other_part(alloc, place, "uri", value)?;
    let held = needed_object(alloc, place, "headers", value)?;
    let inner = child(alloc, place, b"headers")?;
    let headers = headers_of(alloc, scheme, at, inner.bytes(), held)?;
    Ok(Rewrite {
        uri: None,
        headers: Some(headers),
    })
}

/// Whether the phase changes the path and the query.
fn rewrites_uri(phase: Phase) -> bool
    ensures { result ≡ rewrites_uri phase }
{
    phase == Phase::Transform
}

/// The rewrite that the parameters give to rules of the phase.
pub(crate) fn rewrite_of(
    alloc: Global,
    scheme: &Scheme,
    phase: Phase,
    place: &[u8],
    value: &Value,
) -> Result<Rewrite, ConfigFault>
    ensures table { IsAnswerOf result (rewrite_table (judged scheme.now) phase place.now (view value.now)) }
    ensures value { IfOk result (λ made. rewrite_data made ≡ rewrite_at (view value.now)) }
    ensures built { IfOk result (IsRewriteBuilt scheme.now (value_place phase)) }
{
    let at = value_place(phase);
    if rewrites_uri(phase) {
        uri_parts(alloc, scheme, at, place, value)
    } else {
        headers_parts(alloc, scheme, at, place, value)
    }
}

fn is_redirect_status(status: u64) -> bool
    ensures { result ≡ is_redirect_status status }
{
    [301, 302, 303, 307, 308]
        .iter()
        .any(|&known| known == status)
}

/// A status that sends elsewhere.
fn redirect_status(value: &Value) -> Option<u16>
    ensures { result ≡ redirect_status (view value.now) }
{
    let status = value.as_u64()?;
    if is_redirect_status(status) {
        u16::try_from(status).ok()
    } else {
        None
    }
}

fn status_of(alloc: Global, place: &[u8], value: &Value) -> Result<u16, ConfigFault>
    ensures table { IsAnswerOf result (typed redirect_status place.now (codes "status_code") (view value.now)) }
    ensures value { IfOk result (λ status. status ≡ redirect_status_at (view value.now)) }
{
    let Some(member) = value.get("status_code") else {
        return Ok(302);
    };
    match redirect_status(member) {
        Some(status) => Ok(status),
        None => Err(member_refusal(alloc, place, "status_code", Cause::Shape)),
    }
}

/// Where a request is sent.
#[tactic(auto, unfolding(crate::specs::Rewrites::target_table, crate::specs::Rewrites::target_at))]
fn target_of(
    alloc: Global,
    scheme: &Scheme,
    at: Place,
    place: &[u8],
    value: &Value,
) -> Result<Redirect, ConfigFault>
    ensures table { IsAnswerOf result (target_table (judged scheme.now) at place.now (view value.now)) }
    ensures value { IfOk result (λ made. redirect_data made ≡ target_at (view value.now)) }
    ensures built { IfOk result (λ made. IsDynamicBuilt scheme.now at made.target_url) }
{
    let status_code = status_of(alloc, place, value)?;
    let target_url = needed_dynamic(alloc, scheme, at, place, "target_url", value)?;
    let preserve_query_string = truth_or(alloc, place, "preserve_query_string", value, false)?;
    Ok(Redirect {
        status_code,
        target_url,
        preserve_query_string,
    })
}

/// The redirect that the parameters give to rules of the phase.
#[tactic(auto, unfolding(crate::specs::Rewrites::redirect_table))]
pub(crate) fn redirect_of(
    alloc: Global,
    scheme: &Scheme,
    phase: Phase,
    place: &[u8],
    value: &Value,
) -> Result<Redirect, ConfigFault>
    ensures table { IsAnswerOf result (redirect_table (judged scheme.now) phase place.now (view value.now)) }
    ensures value { IfOk result (λ made. redirect_data made ≡ redirect_at (view value.now)) }
    ensures built { IfOk result (λ made. IsDynamicBuilt scheme.now (value_place phase) made.target_url) }
{
    let held = needed_object(alloc, place, "from_value", value)?;
    let inner = child(alloc, place, b"from_value")?;
    target_of(alloc, scheme, value_place(phase), inner.bytes(), held)
}
