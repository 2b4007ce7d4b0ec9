//! Rewrites and redirects as they are printed.
ghost use Rattle.std.specs.Prelude.{◌≡◌, codes, option_map, IfOk};
ghost use Rattle.serde_json.specs.View.{view};
ghost use Rattle.ruleset_model.specs.declared.rewrite.Operation.TheVariants as operation;
ghost use Rattle.config_read.specs.Printed.{printed_change, printed_operation, printed_headers, printed_uri, printed_rewrite, printed_redirect};

use crate::printing::dynamics::{dynamic_value, part_value};
use crate::printing::values::{put_named, put_some, text_value};
use edge_base::Memory;
use ruleset_model::{
    Dynamic, HeaderRewrite, HeaderRewrites, Operation, Redirect, Rewrite, UriRewrite,
};
use serde_json::{Map, Value, put};
use std::alloc::Global;

#[tactic(auto, using(crate::proofs::PrintLemmas::building), unfolding(crate::specs::Printed::printed_uri))]
fn uri_value(alloc: Global, uri: &UriRewrite) -> Result<Value, Memory>
    ensures { IfOk result (λ v. view v ≡ printed_uri uri.now) }
{
    let path = part_value(alloc, &uri.path)?;
    let query = part_value(alloc, &uri.query)?;
    let mut map = Map::new(alloc);
    put_some(&mut map, alloc, "path", path)?;
    put_some(&mut map, alloc, "query", query)?;
    Ok(Value::Object(map))
}

/// What is done to headers by a value that is set or added.
#[tactic(auto, using(crate::proofs::PrintLemmas::building))]
fn change_value(alloc: Global, name: &[u8], dynamic: &Dynamic) -> Result<Value, Memory>
    ensures { IfOk result (λ v. view v ≡ printed_change name.now dynamic.now) }
{
    let mut map = Map::new(alloc);
    put(&mut map, alloc, "operation", text_value(alloc, name)?)?;
    match dynamic {
        Dynamic::Fixed(text) => {
            put(&mut map, alloc, "value", text_value(alloc, text.bytes())?)?;
            Ok(Value::Object(map))
        }
        Dynamic::Computed { source, .. } => {
            put(
                &mut map,
                alloc,
                "expression",
                text_value(alloc, source.bytes())?,
            )?;
            Ok(Value::Object(map))
        }
    }
}

#[tactic(auto, using(crate::proofs::PrintLemmas::building))]
fn removal_value(alloc: Global) -> Result<Value, Memory>
    ensures { IfOk result (λ v. view v ≡ printed_operation operation.Remove) }
{
    let mut map = Map::new(alloc);
    put(&mut map, alloc, "operation", text_value(alloc, b"remove")?)?;
    Ok(Value::Object(map))
}

fn operation_value(alloc: Global, operation: &Operation) -> Result<Value, Memory>
    ensures { IfOk result (λ v. view v ≡ printed_operation operation.now) }
{
    match operation {
        Operation::Set(value) => change_value(alloc, b"set", value),
        Operation::Add(value) => change_value(alloc, b"add", value),
        Operation::Remove => removal_value(alloc),
    }
}

/// The object of changes of headers.
#[tactic(auto, using(crate::proofs::PrintLemmas::building))]
fn headers_value(alloc: Global, headers: &[HeaderRewrite]) -> Result<Value, Memory>
    ensures { IfOk result (λ v. view v ≡ printed_headers headers.now) }
{
    let mut map = Map::new(alloc);
    for header in headers {
        let operation = operation_value(alloc, &header.operation)?;
        put_named(&mut map, alloc, header.name.bytes(), operation)?;
    }
    Ok(Value::Object(map))
}

fn uri_part(alloc: Global, uri: &Option<UriRewrite>) -> Result<Option<Value>, Memory>
    ensures { IfOk result (λ v. option_map view v ≡ option_map printed_uri uri.now) }
{
    match uri {
        Some(uri) => Ok(Some(uri_value(alloc, uri)?)),
        None => Ok(None),
    }
}

fn headers_part(alloc: Global, headers: &Option<HeaderRewrites>) -> Result<Option<Value>, Memory>
    ensures { IfOk result (λ v. option_map view v ≡ option_map printed_headers headers.now) }
{
    match headers {
        Some(headers) => Ok(Some(headers_value(alloc, headers.as_slice())?)),
        None => Ok(None),
    }
}

/// The parameters of a rewrite.
#[tactic(auto, using(crate::proofs::PrintLemmas::building), unfolding(crate::specs::Printed::printed_rewrite))]
pub(crate) fn rewrite_value(alloc: Global, rewrite: &Rewrite) -> Result<Value, Memory>
    ensures { IfOk result (λ v. view v ≡ printed_rewrite rewrite.now) }
{
    let uri = uri_part(alloc, &rewrite.uri)?;
    let headers = headers_part(alloc, &rewrite.headers)?;
    let mut map = Map::new(alloc);
    put_some(&mut map, alloc, "headers", headers)?;
    put_some(&mut map, alloc, "uri", uri)?;
    Ok(Value::Object(map))
}

/// The parameters of a redirect.
#[tactic(auto, using(crate::proofs::PrintLemmas::building), unfolding(crate::specs::Printed::printed_redirect))]
pub(crate) fn redirect_value(alloc: Global, redirect: &Redirect) -> Result<Value, Memory>
    ensures { IfOk result (λ v. view v ≡ printed_redirect redirect.now) }
{
    let target = dynamic_value(alloc, &redirect.target_url)?;
    let mut map = Map::new(alloc);
    put(&mut map, alloc, "target_url", target)?;
    put(
        &mut map,
        alloc,
        "status_code",
        Value::from(redirect.status_code),
    )?;
    put(
        &mut map,
        alloc,
        "preserve_query_string",
        Value::Bool(redirect.preserve_query_string),
    )?;
    let mut outer = Map::new(alloc);
    put(&mut outer, alloc, "from_value", Value::Object(map))?;
    Ok(Value::Object(outer))
}
