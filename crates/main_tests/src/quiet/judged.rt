//! Judging by tables: the configuration of each row is deployed, its requests are replayed, and their lines compared.
ghost use Rattle.std.specs.Prelude.{◌≤◌};

use super::{check, run_on, steady};
use edge_base::{Memory, Text, TextBuilder};
use edge_main::{Status, lane_hashers};
use std::alloc::Global;
use std::process::Abort;
use std::random::RandomSource;
use std::test::Fail;

mod actions;
mod limits;
mod order;
mod overrides;
mod replies;
mod skips;

/// What a row shows, its configuration, its requests as lines of a trace, and their lines in the output.
#[derive(Clone, Copy)]
struct Row {
    name: &'static str,
    config: &'static str,
    requests: &'static str,
    wanted: &'static str,
}

/// The trace of a row: a line that deploys its configuration, and its requests.
fn trace_of(alloc: Global, row: &Row) -> Result<Text, Memory> {
    let mut trace = TextBuilder::new(alloc);
    trace.push(b"{\"deploy\":")?;
    for line in row.config.lines() {
        trace.push(line.as_bytes())?;
    }
    trace.push(b"}\n")?;
    trace.push(row.requests.as_bytes())?;
    Ok(trace.into_text())
}

/// The output of a row.
fn wanted_of(alloc: Global, row: &Row) -> Result<Text, Memory> {
    let mut wanted = TextBuilder::new(alloc);
    wanted.push(b"deploy v1\n")?;
    wanted.push(row.wanted.as_bytes())?;
    Ok(wanted.into_text())
}

/// The requests of a row are judged as it says.
fn judges<R: Abort + RandomSource>(rt: &R, alloc: Global, row: &Row) -> Result<(), Fail> {
    let ran = run_on(
        alloc,
        lane_hashers(rt, alloc)?,
        &["replay"],
        trace_of(alloc, row)?,
        steady(alloc, 4_096),
    )?;
    let wanted = wanted_of(alloc, row)?;
    let name = row.name;
    assert!(rt; ran.out.bytes() == wanted.bytes(), "{name}");
    check(rt, &ran, Status::Done, wanted.bytes(), b"");
    Ok(())
}
