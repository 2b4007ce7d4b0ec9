//! A batch of requests: all workers judge at once, their passes meet, and the lines are taken in the order of the input.

ghost use Rattle.std.specs.Prelude.{◌≡◌, ◌+◌, ◌<◌, ◌≤◌, ℕ, List, [], ◌++◌, None, All, OnOk, IfOk, length, map, reverse, slice_index_or};
ghost use mathlib.Core.List.{IsPrefix};
ghost use Rattle.gate_run.specs.Passes.{IsPassOf, seen_by, seens_in, shape_in};
ghost use Rattle.edge_main.specs.Batched.{AreDealt, joined};
ghost use Rattle.edge_main.specs.Crewed.{AreNew, IsCrew, HasWatched, HasTold, HasHeard, HaveGone, IsShared, HaveMet};
ghost use Rattle.edge_main.specs.Crewed.{HoldLines, AreLinesOf, HaveGivenLines, lines_in};
ghost use Rattle.edge_main.specs.Working.{IsReady, Works};
ghost use Rattle.edge_main.specs.declared.working.Worker.{Worker};

use crate::working::Worker;
use edge_base::{Memory, Text, TextBuilder};
use edge_outside::Turnstile;
use gate_run::{Gate, Passes};
use rate_plain::StepFault;
use std::alloc::Global;
use std::sync::Wait;
use std::thread::{Threads, for_each_mut};

/// A worker for each of so many passes, in their order.
pub fn workers_of(alloc: Global, count: u32, passes: Passes) -> Result<Vec<Worker>, Memory>
    requires { count ≡ length (seens_in passes) }
    ensures { IfOk result (λ workers. AreNew 0 (seens_in passes) workers.items) }
{
    let mut workers = Vec::new(alloc);
    let mut passes = passes;
    let mut number = count;
    'passes: while let Some(pass) = passes.pop() {
        number -= 1;
        let worker = Worker::new(alloc, number, pass);
        workers.insert(0, worker)?;
    }
    Ok(workers)
}

/// Each worker judges its requests, in a thread of its own.
pub fn work_all<R: Threads + Wait + Sync, T: Turnstile + Sync>(
    rt: &R,
    alloc: Global,
    gate: &Gate,
    turnstile: &T,
    workers: &mut [Worker],
)
    requires some { 1 ≤ length workers.old }
    requires ready { All (IsReady gate.now) workers.old }
    ensures count { length workers.new ≡ length workers.old }
    ensures works { (k : ℕ) (d : Worker) → k < length workers.old → Works (slice_index_or workers.old k d) (slice_index_or workers.new k d) }
{
    let count = workers.len();
    for_each_mut(
        rt,
        workers,
        count,
        &|_: usize, worker: &mut Worker|
            requires { IsReady gate.now worker.old }
            ensures { Works worker.old worker.new }
        { worker.work(rt, alloc, gate, turnstile) },
    );
}

/// Why a worker left a request, if one did.
pub fn first_fault(workers: &[Worker]) -> Result<(), StepFault>
    ensures ok { OnOk result (All (λ (worker : Worker). worker.fault ≡ None) workers.now) }
{
    for worker in workers {
        if let Some(fault) = worker.fault {
            return Err(fault);
        }
    }
    Ok(())
}

/// A worker hears what another has seen.
fn hear(gate: &Gate, worker: &mut Worker, other: &mut Worker)
    requires of { IsPassOf gate.now worker.old.pass }
    requires other { IsPassOf gate.now other.old.pass }
    ensures worker { HasWatched worker.old worker.new }
    ensures other { HasWatched other.old other.new }
    ensures heard { IsPrefix (seen_by other.new.pass) (seen_by worker.new.pass) }
    ensures shared { IsShared (shape_in gate.now) (seen_by worker.new.pass) }
{
    let note = gate.note(&mut other.pass);
    gate.meet(&mut worker.pass, note);
}

/// The first worker sees all steps so far, and hears what each other has seen.
fn hear_all(gate: &Gate, first: &mut Worker, others: &mut [Worker])
    requires of { IsPassOf gate.now first.old.pass }
    requires others { All (λ (worker : Worker). IsPassOf gate.now worker.pass) others.old }
    ensures first { HasWatched first.old first.new }
    ensures shared { IsShared (shape_in gate.now) (seen_by first.new.pass) }
    ensures others { HaveGone (HasTold (seen_by first.new.pass)) (length others.old) others.old others.new }
{
    gate.catch_up(&mut first.pass);
    'hearing: for k in 0..others.len() {
        hear(gate, first, &mut others[k]);
    }
}

/// Each other worker hears what the first has seen.
fn tell_all(gate: &Gate, first: &mut Worker, others: &mut [Worker])
    requires of { IsPassOf gate.now first.old.pass }
    requires others { All (λ (worker : Worker). IsPassOf gate.now worker.pass) others.old }
    ensures first { HasWatched first.old first.new }
    ensures others { HaveGone (HasHeard (seen_by first.old.pass)) (length others.old) others.old others.new }
{
    'telling: for k in 0..others.len() {
        hear(gate, &mut others[k], first);
    }
}

/// All passes meet.
pub fn meet_all(gate: &Gate, workers: &mut [Worker])
    requires crew { IsCrew gate.now workers.old }
    requires of { All (λ (worker : Worker). IsPassOf gate.now worker.pass) workers.old }
    ensures count { length workers.new ≡ length workers.old }
    ensures met { HaveMet (shape_in gate.now) workers.old workers.new }
{
    let Some((first, others)) = workers.split_first_mut() else {
        return;
    };
    hear_all(gate, first, others);
    tell_all(gate, first, others);
}

/// Takes the lines of a batch of so many requests from the workers, the latest first.
pub fn take_lines(alloc: Global, workers: &mut [Worker], dealt: usize) -> Result<Vec<Text>, Memory>
    requires dealt { HoldLines dealt workers.old }
    requires some { 1 ≤ length workers.old }
    ensures lines { IfOk result (λ lines. AreLinesOf dealt workers.old lines.items) }
    ensures none { OnOk result (AreDealt [] (lines_in workers.new)) }
    ensures given { HaveGivenLines workers.old workers.new }
{
    let mut lines = Vec::new(alloc);
    let mut left = dealt;
    'lines: while 0 < left {
        left -= 1;
        let place = left % workers.len();
        let Some(line) = workers[place].lines.pop() else {
            unreachable!();
        };
        lines.push(line)?;
    }
    Ok(lines)
}

/// Adds these texts, of which the first one is the last.
pub fn push_all(lines: Vec<Text>, out: &mut TextBuilder) -> Result<(), Memory>
    ensures { OnOk result (out.new ≡ out.old ++ joined (reverse lines.items)) }
{
    let mut lines = lines;
    'lines: while let Some(line) = lines.pop() {
        out.push(line.bytes())?;
    }
    Ok(())
}
