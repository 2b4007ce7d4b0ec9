//! What rewrites keep until their phase ends, and what becomes of request and reply then.

ghost use Rattle.std.specs.Prelude.{◌≡◌, IfSome, IfOk, OnOk};
ghost use Rattle.std.specs.Str.{str_to_ascii_lowercase};
ghost use Rattle.rewrite_apply.specs.Rewrites.{rewritten};
ghost use Rattle.judge_core.specs.Changing.{unchanged, part_text, is_before, before, behind, put_change, change_on};
ghost use Rattle.judge_core.specs.Changing.{replied, phase_end};
ghost use Rattle.judge_core.specs.Keeping.{KeepsHeader, KeepsHeaders, KeepsSomeHeaders};
ghost use Rattle.judge_core.specs.Keeping.{KeepsUri, KeepsSomeUri, KeepsRewrite};
ghost use Rattle.judge_core.specs.Places.{carried_of, with_request};
ghost use Rattle.judge_core.specs.Places.{DynamicSuits, UriSuits, OperationSuits, HeadersSuit, RewriteSuits};
ghost use Rattle.judge_core.specs.Values.{Listed, AreTold};

use crate::carried::State;
use crate::values::text_on;
use edge_base::{Addr, Memory, Moment, Reply, Request, Text};
use rewrite_apply::{Change, Changes, HeaderChange, HeaderChanges, apply, apply_headers};
use ruleset_model::{
    Config, Dynamic, HeaderRewrite, HeaderRewrites, Operation, Rewrite, UriRewrite,
};
use sqlite_items::Items;
use std::alloc::Global;

/// No changes. Takes no memory.
pub(crate) fn unchanged(alloc: Global) -> Changes
    ensures { result ≡ unchanged }
{
    Changes {
        path: None,
        query: None,
        headers: Items::new(alloc),
    }
}

// ---- one part

/// The text of a part that a rule changes, where it changes it and the value isn't missing.
fn part_text(
    alloc: Global,
    config: &Config,
    part: &Option<Dynamic>,
    state: &State,
) -> Result<Option<Text>, Memory>
    ghost listed: { Listed }
    requires told { AreTold listed config.now }
    requires suits { IfSome part.now (DynamicSuits config.now) }
    ensures { IfOk result (λ text. text ≡ part_text listed part.now (carried_of config.now state.now)) }
{
    match part {
        None => Ok(None),
        Some(dynamic) => text_on(alloc, config, dynamic, state),
    }
}

fn copy_kind(alloc: Global, change: &Change) -> Result<Change, Memory>
    ensures { IfOk result (λ copy. copy ≡ change.now) }
{
    match change {
        Change::Set(value) => Ok(Change::Set(value.copy(alloc)?)),
        Change::Add(value) => Ok(Change::Add(value.copy(alloc)?)),
        Change::Remove => Ok(Change::Remove),
    }
}

fn copy_change(alloc: Global, change: &HeaderChange) -> Result<HeaderChange, Memory>
    ensures { IfOk result (λ copy. copy ≡ change.now) }
{
    Ok(HeaderChange {
        name: change.name.copy(alloc)?,
        change: copy_kind(alloc, &change.change)?,
    })
}

// ---- changes of headers

/// Whether a text comes before another in byte order.
pub(crate) fn is_before(one: &Text, other: &Text) -> bool
    ensures { result ≡ is_before one.now other.now }
{
    one.bytes().cmp(other.bytes()).is_lt()
}

/// The changes of names before this one.
fn before(alloc: Global, changes: &[HeaderChange], name: &Text) -> Result<HeaderChanges, Memory>
    ensures { IfOk result (λ kept. kept ≡ before name.now changes.now) }
{
    let mut kept = Items::new(alloc);
    for one in changes {
        if is_before(&one.name, name) {
            kept.push(copy_change(alloc, one)?)?;
        }
    }
    Ok(kept)
}

/// The changes of names behind this one.
fn behind(alloc: Global, changes: &[HeaderChange], name: &Text) -> Result<HeaderChanges, Memory>
    ensures { IfOk result (λ kept. kept ≡ behind name.now changes.now) }
{
    let mut kept = Items::new(alloc);
    for one in changes {
        if is_before(name, &one.name) {
            kept.push(copy_change(alloc, one)?)?;
        }
    }
    Ok(kept)
}

/// The changes with a new one in place of an earlier one of its name.
fn put_change(
    alloc: Global,
    new: HeaderChange,
    changes: &[HeaderChange],
) -> Result<HeaderChanges, Memory>
    ensures { IfOk result (λ put. put ≡ put_change new changes.now) }
{
    let mut put = before(alloc, changes, &new.name)?;
    let rest = behind(alloc, changes, &new.name)?;
    put.push(new)?;
    put.append(rest)?;
    Ok(put)
}

/// What an operation does to the headers of its name, or none where its value is missing.
fn change_on(
    alloc: Global,
    config: &Config,
    operation: &Operation,
    state: &State,
) -> Result<Option<Change>, Memory>
    ghost listed: { Listed }
    requires told { AreTold listed config.now }
    requires suits { OperationSuits config.now operation.now }
    ensures { IfOk result (λ change. change ≡ change_on listed operation.now (carried_of config.now state.now)) }
{
    match operation {
        Operation::Set(value) => Ok(text_on(alloc, config, value, state)?.map(Change::Set)),
        Operation::Add(value) => Ok(text_on(alloc, config, value, state)?.map(Change::Add)),
        Operation::Remove => Ok(Some(Change::Remove)),
    }
}

fn lower(alloc: Global, name: &Text) -> Result<Text, Memory>
    ensures { IfOk result (λ lowered. lowered ≡ str_to_ascii_lowercase name.now) }
{
    let mut lowered = Vec::from_slice(alloc, name.bytes())?;
    lowered.make_ascii_lowercase();
    Ok(Text::from_vec(lowered))
}

/// Keeps what a rule does to the headers of one name.
fn keep_header(
    alloc: Global,
    config: &Config,
    header: &HeaderRewrite,
    state: &mut State,
) -> Result<(), Memory>
    ghost listed: { Listed }
    requires told { AreTold listed config.now }
    requires suits { OperationSuits config.now header.now.operation }
    ensures { OnOk result (KeepsHeader listed config.now header.now state.old state.new) }
{
    if let Some(change) = change_on(alloc, config, &header.operation, state)? {
        let name = lower(alloc, &header.name)?;
        let new = HeaderChange { name, change };
        state.changes.headers = put_change(alloc, new, state.changes.headers.as_slice())?;
    }
    Ok(())
}

/// Keeps what a rule does to headers.
fn keep_headers(
    alloc: Global,
    config: &Config,
    headers: &[HeaderRewrite],
    state: &mut State,
) -> Result<(), Memory>
    ghost listed: { Listed }
    requires told { AreTold listed config.now }
    requires suits { HeadersSuit config.now headers.now }
    ensures { OnOk result (KeepsHeaders listed config.now headers.now state.old state.new) }
{
    for header in headers {
        keep_header(alloc, config, header, state)?;
    }
    Ok(())
}

/// Keeps what a rule does to the path and the query.
fn keep_uri(
    alloc: Global,
    config: &Config,
    uri: &UriRewrite,
    state: &mut State,
) -> Result<(), Memory>
    ghost listed: { Listed }
    requires told { AreTold listed config.now }
    requires suits { UriSuits config.now uri.now }
    ensures { OnOk result (KeepsUri listed config.now uri.now state.old state.new) }
{
    let path = part_text(alloc, config, &uri.path, state)?;
    let query = part_text(alloc, config, &uri.query, state)?;
    state.changes.path = path.or(state.changes.path.take());
    state.changes.query = query.or(state.changes.query.take());
    Ok(())
}

/// Keeps what a rule does to the path and the query, if anything.
fn keep_some_uri(
    alloc: Global,
    config: &Config,
    uri: &Option<UriRewrite>,
    state: &mut State,
) -> Result<(), Memory>
    ghost listed: { Listed }
    requires told { AreTold listed config.now }
    requires suits { IfSome uri.now (UriSuits config.now) }
    ensures { OnOk result (KeepsSomeUri listed config.now uri.now state.old state.new) }
{
    match uri {
        Some(uri) => keep_uri(alloc, config, uri, state),
        None => Ok(()),
    }
}

/// Keeps what a rule does to headers, if anything.
fn keep_some_headers(
    alloc: Global,
    config: &Config,
    headers: &Option<HeaderRewrites>,
    state: &mut State,
) -> Result<(), Memory>
    ghost listed: { Listed }
    requires told { AreTold listed config.now }
    requires suits { IfSome headers.now (HeadersSuit config.now) }
    ensures { OnOk result (KeepsSomeHeaders listed config.now headers.now state.old state.new) }
{
    match headers {
        Some(headers) => keep_headers(alloc, config, headers.as_slice(), state),
        None => Ok(()),
    }
}

/// Keeps what a rule changes.
pub(crate) fn keep_rewrite(
    alloc: Global,
    config: &Config,
    rewrite: &Rewrite,
    state: &mut State,
) -> Result<(), Memory>
    ghost listed: { Listed }
    requires told { AreTold listed config.now }
    requires suits { RewriteSuits config.now rewrite.now }
    ensures { OnOk result (KeepsRewrite listed config.now rewrite.now state.old state.new) }
{
    keep_some_headers(alloc, config, &rewrite.headers, state)?;
    keep_some_uri(alloc, config, &rewrite.uri, state)
}

// ---- the end of a phase

/// A request that says nothing. Takes no memory.
fn blank(alloc: Global, at: Moment) -> Request {
    Request {
        at,
        from: Addr::V4(0),
        ssl: false,
        method: Text::from_vec(Vec::new(alloc)),
        target: Text::from_vec(Vec::new(alloc)),
        minor: 0,
        headers: Items::new(alloc),
        body: Text::from_vec(Vec::new(alloc)),
    }
}

/// Makes the changes of the request.
fn change_request(alloc: Global, state: &mut State) -> Result<(), Memory>
    ensures { OnOk result (state.new ≡ with_request (rewritten state.old.changes state.old.request) state.old) }
{
    let at = state.request.at;
    let request = std::mem::replace(&mut state.request, blank(alloc, at));
    state.request = apply(alloc, request, &state.changes)?;
    Ok(())
}

/// The reply after the changes of its headers.
fn replied(alloc: Global, reply: Reply, headers: &HeaderChanges) -> Result<Reply, Memory>
    ensures { IfOk result (λ after. after ≡ replied headers.now reply) }
{
    Ok(Reply {
        status: reply.status,
        headers: apply_headers(alloc, reply.headers, headers)?,
        body: reply.body,
    })
}

/// Makes the changes of the phase: to the headers of the reply, where one is judged, else to the request.
pub(crate) fn end_phase(alloc: Global, config: &Config, state: &mut State) -> Result<(), Memory>
    ensures { OnOk result (carried_of config.now state.new ≡ phase_end (carried_of config.now state.old)) }
{
    match state.reply.take() {
        Some(reply) => state.reply = Some(replied(alloc, reply, &state.changes.headers)?),
        None => change_request(alloc, state)?,
    }
    state.changes = unchanged(alloc);
    Ok(())
}
