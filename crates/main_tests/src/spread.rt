//! `replay` by several workers: each output is checked, line by line, to be one that several workers may give.

use crate::waiting::replayed;
use edge_base::{Memory, Text};
use rate_plain::{Answer, Counted, StepFault};
use std::alloc::Global;
use std::process::Abort;
use std::test::Fail;

mod history;
mod lines;
mod trace;

use history::{Taken, put, replay};
use lines::{line_with, steps_of, takes};
use trace::{Asked, Trace, Wanted, made};

/// How many requests of one batch are judged at once, at most.
const BATCH: usize = 256;

/// What has been read of an output.
#[derive(Drop)]
struct Reading {
    /// The steps, each at its place.
    row: Vec<Option<Taken>>,
    /// How many steps.
    steps: usize,
    /// The place behind all steps so far.
    end: u64,
    /// Steps of what follows stand at this place or behind it: the last deployment's.
    floor: u64,
    /// For each request so far the place behind all steps up to it.
    ends: Vec<u64>,
}

/// The first place at which a step of the next request may stand.
fn floor_of(reading: &Reading) -> u64 {
    match reading.ends.len().checked_sub(BATCH) {
        Some(place) if place < reading.ends.len() => {
            if reading.floor < reading.ends[place] {
                reading.ends[place]
            } else {
                reading.floor
            }
        }
        _ => reading.floor,
    }
}

/// Puts the steps of a request, which increase.
fn put_steps(rt: &impl Abort, reading: &mut Reading, asked: &Asked, steps: &[Counted]) {
    let mut least = floor_of(reading);
    for (place, step) in steps.iter().enumerate() {
        assert!(rt; least <= step.position);
        assert!(rt; step.position < 1_000_000);
        least = step.position + 1;
        if reading.end < least {
            reading.end = least;
        }
        let taken = Taken {
            asked: *asked,
            second: place > 0,
            answer: step.answer,
        };
        put(rt, &mut reading.row, step, taken);
    }
}

/// The line is that of the request with the steps that it shows.
fn read_request(
    rt: &impl Abort,
    alloc: Global,
    reading: &mut Reading,
    asked: &Asked,
    line: &str,
) -> Result<(), Memory> {
    let steps = steps_of(alloc, line)?;
    let steps = steps.as_slice();
    assert_eq!(rt; steps.len(), takes(asked, steps));
    assert!(rt; line_with(alloc, asked, steps)?.bytes() == line.as_bytes());
    put_steps(rt, reading, asked, steps);
    reading.steps = reading.steps.saturating_add(steps.len());
    reading.ends.push(reading.end)?;
    Ok(())
}

/// The line answers what was wanted.
fn read_line(
    rt: &impl Abort,
    alloc: Global,
    reading: &mut Reading,
    wanted: &Wanted,
    line: &str,
) -> Result<(), Memory> {
    match wanted {
        Wanted::Asked(asked) => read_request(rt, alloc, reading, asked, line)?,
        Wanted::Refused => {
            assert!(rt; line == "deploy refused /rulesets/0/rules/0/expression Syntax");
            reading.floor = reading.end;
        }
        Wanted::Deployed(version) => {
            assert!(rt;
                line.strip_prefix("deploy v")
                    .and_then(|number| number.parse::<u64>().ok())
                    == Some(*version)
            );
            reading.floor = reading.end;
        }
    }
    Ok(())
}

/// The output has a line for each line of the trace.
fn read_all(
    rt: &impl Abort,
    alloc: Global,
    trace: &Trace,
    output: &str,
) -> Result<Reading, Memory> {
    let mut reading = Reading {
        row: Vec::from_elem(alloc, None, 5_000)?,
        steps: 0,
        end: 0,
        floor: 0,
        ends: Vec::new(alloc),
    };
    let mut lines = output.split("\n");
    for wanted in &trace.wanted {
        let Some(line) = lines.next() else {
            return Err(Memory);
        };
        read_line(rt, alloc, &mut reading, wanted, line)?;
    }
    assert!(rt; lines.next() == Some(""));
    assert!(rt; lines.next() == None);
    Ok(reading)
}

/// The output is one of several workers: each position once, and the steps in the order of positions are a counter's.
fn check_output(
    rt: &impl Abort,
    alloc: Global,
    trace: &Trace,
    output: &[u8],
) -> Result<(), StepFault> {
    let Ok(output) = str::from_utf8(output) else {
        return Err(StepFault::Spent);
    };
    let reading = read_all(rt, alloc, trace, output)?;
    assert_eq!(rt; reading.end, reading.steps as u64);
    assert!(rt; reading.steps > 2_000);
    assert!(rt; reading.steps <= reading.row.len());
    replay(rt, alloc, &reading.row[..reading.steps])
}

#[test]
fn outputs_of_four_workers_are_lawful(rt: HostRuntime) -> Result<(), Fail> {
    let alloc = rt.alloc();
    let trace = made(alloc)?;
    for _ in 0..10 {
        let output = replayed(&rt, alloc, "--workers=4", trace.text.bytes())?;
        check_output(&rt, alloc, &trace, output.bytes())?;
    }
    Ok(())
}

#[test]
fn the_output_of_one_thread_is_lawful(rt: HostRuntime) -> Result<(), Fail> {
    let alloc = rt.alloc();
    let trace = made(alloc)?;
    let output = replayed(&rt, alloc, "--workers=1", trace.text.bytes())?;
    check_output(&rt, alloc, &trace, output.bytes())?;
    Ok(())
}
