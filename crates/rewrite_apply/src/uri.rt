ghost use Rattle.std.specs.Prelude.{◌≡◌, ◌++◌, IfOk, OnOk};
ghost use Rattle.std.specs.Option.{option_copied, unwrap_or};
ghost use Rattle.edge_fields.specs.Target.{root_of};
ghost use Rattle.rewrite_apply.specs.Rewrites.{without_question, path_after, query_after, with_query, joined, target_after, rewritten};

use crate::changes::Changes;
use crate::escapes::{Part, push_escaped};
use crate::header_list::apply_headers;
use edge_base::{Memory, Request, Text, TextBuilder};
use edge_fields::{path_of, query_of};
use std::alloc::Global;

/// `/` where a path doesn't begin with it, else nothing.
fn root_of(path: &[u8]) -> &'static [u8]
    ensures { result.now ≡ root_of path.now }
{
    match path {
        [b'/', ..] => b"",
        _ => b"/",
    }
}

/// A text without a `?` at its front.
fn without_question(text: &[u8]) -> &[u8]
    ensures { result.now ≡ without_question text.now }
{
    match text {
        [b'?', rest @ ..] => rest,
        _ => text,
    }
}

/// Adds the new path, or the request's where there is none.
fn push_path(text: &mut TextBuilder, path: Option<&Text>, request: &Request) -> Result<(), Memory>
    ensures { OnOk result (text.new ≡ text.old ++ path_after (option_copied path.entry) request.now.target) }
{
    match path {
        Some(path) => {
            text.push(root_of(path.bytes()))?;
            push_escaped(text, Part::Path, path.bytes())
        }
        None => text.push(path_of(request)),
    }
}

/// The new query, or the request's where there is none.
fn query_after(alloc: Global, query: Option<&Text>, request: &Request) -> Result<Text, Memory>
    ensures { IfOk result (λ text. text ≡ query_after (option_copied query.entry) request.now.target) }
{
    match query {
        Some(query) => {
            let mut text = TextBuilder::new(alloc);
            push_escaped(&mut text, Part::Query, without_question(query.bytes()))?;
            Ok(text.into_text())
        }
        None => Text::of(alloc, query_of(request)),
    }
}

/// Adds `?` and a query, where that isn't empty.
#[tactic(auto, using(crate::proofs::RewriteLemmas::no_query, crate::proofs::RewriteLemmas::some_query))]
fn push_query(text: &mut TextBuilder, query: &[u8]) -> Result<(), Memory>
    ensures { OnOk result (text.new ≡ with_query text.old query.now) }
{
    if query.is_empty() {
        return Ok(());
    }
    text.push(b"?")?;
    text.push(query)
}

/// The target of the new path and the new query.
fn joined(
    alloc: Global,
    path: Option<&Text>,
    query: Option<&Text>,
    request: &Request,
) -> Result<Text, Memory>
    ensures { IfOk result (λ t. t ≡ joined (option_copied path.entry) (option_copied query.entry) request.now.target) }
{
    let query = query_after(alloc, query, request)?;
    let mut target = TextBuilder::new(alloc);
    push_path(&mut target, path, request)?;
    push_query(&mut target, query.bytes())?;
    Ok(target.into_text())
}

/// The target after some changes, where they change it.
#[tactic(auto, using(crate::proofs::RewriteLemmas::both_stay, crate::proofs::RewriteLemmas::one_changes))]
fn new_target(alloc: Global, request: &Request, changes: &Changes) -> Result<Option<Text>, Memory>
    ensures { IfOk result (λ found. unwrap_or found request.now.target ≡ target_after changes.now request.now.target) }
{
    if changes.path.is_none() && changes.query.is_none() {
        return Ok(None);
    }
    let (path, query) = (changes.path.as_ref(), changes.query.as_ref());
    Ok(Some(joined(alloc, path, query, request)?))
}

/// The request after some changes.
pub fn apply(alloc: Global, request: Request, changes: &Changes) -> Result<Request, Memory>
    ensures { IfOk result (λ request_after. request_after ≡ rewritten changes.now request) }
{
    let changed = new_target(alloc, &request, changes)?;
    let Request {
        at,
        from,
        ssl,
        method,
        target,
        minor,
        headers,
        body,
    } = request;
    Ok(Request {
        at,
        from,
        ssl,
        method,
        target: changed.unwrap_or(target),
        minor,
        headers: apply_headers(alloc, headers, &changes.headers)?,
        body,
    })
}
