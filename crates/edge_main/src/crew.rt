//! The workers of `replay` with their gate, and how far the lines have come.

ghost use Rattle.std.specs.Prelude.{◌≡◌, ◌≤◌};

use crate::batch::{first_fault, meet_all, push_all, take_lines, work_all, workers_of};
use crate::run::push_refused_deploy;
use crate::statuses::Status;
use crate::working::{Job, Worker};
use edge_base::{Memory, TextBuilder};
use edge_outside::Turnstile;
use gate_run::{DeployFault, Desk, Gate};
use rate_plain::StepFault;
use serde_json::Value;
use std::alloc::Global;
use std::hash::RandomState;
use std::sync::Wait;
use std::thread::Threads;
use trace_form::{BadCause, Recorded, push_bad_line, push_deploy_line};

/// How many live keys a lane of the counters has room for.
const ROOM: u32 = 4096;

/// How many requests are judged at once, at most.
const BATCH: usize = 256;

/// The workers with their gate, and how far the lines have come.
#[derive(Drop)]
pub struct Crew {
    pub gate: Gate,
    pub desk: Desk,
    pub workers: Vec<Worker>,
    /// The requests that were dealt since the last batch.
    pub dealt: usize,
    /// The lines so far, blank and bad ones too.
    pub lines: u64,
    /// The requests so far.
    pub requests: u64,
    /// The number of the version in force.
    pub version: u64,
    /// Whether a line was no item.
    pub any_bad: bool,
    ghost few_requests: { requests ≤ lines },
    ghost few_versions: { version ≤ lines },
}

impl Crew {
    ghost use Rattle.std.specs.Prelude.{IfOk, ◌<◌, ◌^◌, ◌+◌, cond, nat_le, [], OnOk, vec_len};
    ghost use Rattle.serde_json.specs.View.{view};
    ghost use Rattle.edge_main.specs.Crewed.{IsCrewAt, IsCrewSomewhere, Settles, Deals, PassesBy, RefusesFor, Deploys};
    ghost use Rattle.edge_main.specs.Spread.{first};

    /// So many workers before the first line, with a hasher for each lane of the counters.
    pub fn new<R: Wait>(
        rt: &R,
        alloc: Global,
        workers: u32,
        hashers: Vec<RandomState>,
    ) -> Result<Crew, Memory>
        requires hashers { vec_len hashers ≡ 64 }
        requires workers { (1 ≤ workers) × (workers ≤ 64) }
        ensures { IfOk result (λ crew. IsCrewAt crew [] first []) }
    {
        let (gate, passes, desk) = Gate::new(rt, alloc, workers, ROOM, hashers)?;
        Ok(Crew {
            gate,
            desk,
            workers: workers_of(alloc, workers, passes)?,
            dealt: 0,
            lines: 0,
            requests: 0,
            version: 0,
            any_bad: false,
        })
    }

    /// Whether as many requests were dealt as are judged at once.
    pub fn is_full(&self) -> bool
        ensures { result ≡ nat_le 256 self.now.dealt }
    {
        BATCH <= self.dealt
    }

    /// Deals a request to the worker whose turn it is, with the version in force.
    pub fn deal(&mut self, recorded: Recorded) -> Result<(), Memory>
        requires lines { self.old.lines < 2 ^ 40 }
        requires room { self.old.dealt < 256 }
        requires somewhere { IsCrewSomewhere self.old }
        ensures deals { OnOk result (Deals self.old recorded self.new) }
        ensures lines { OnOk result (self.new.lines ≡ self.old.lines + 1) }
    {
        let picked = self.desk.current()?;
        let place = self.dealt % self.workers.len();
        let number = self.requests + 1;
        self.workers[place].jobs.push(Job {
            number,
            picked,
            recorded,
        })?;
        self.dealt += 1;
        self.lines += 1;
        self.requests += 1;
        Ok(())
    }

    /// Judges the requests that were dealt, each worker its own. Their lines are then all that `answer` holds.
    pub fn settle<R: Threads + Wait + Sync, T: Turnstile + Sync>(
        &mut self,
        rt: &R,
        alloc: Global,
        turnstile: &T,
        answer: &mut TextBuilder,
    ) -> Result<(), StepFault>
        requires somewhere { IsCrewSomewhere self.old }
        ensures settles { OnOk result (Settles self.old answer.new self.new) }
    {
        let workers = self.workers.as_mut_slice();
        work_all(rt, alloc, &self.gate, turnstile, workers);
        first_fault(workers)?;
        meet_all(&self.gate, workers);
        let lines = take_lines(alloc, workers, self.dealt)?;
        self.dealt = 0;
        answer.clear();
        push_all(lines, answer)?;
        Ok(())
    }

    /// A line that changes nothing and is not answered.
    pub fn pass_by(&mut self, answer: &mut TextBuilder)
        requires { self.old.lines < 2 ^ 40 }
        ensures passes { PassesBy self.old answer.new self.new }
        ensures lines { self.new.lines ≡ self.old.lines + 1 }
    {
        answer.clear();
        self.lines += 1;
    }

    /// A line that is no item, for this cause.
    pub fn refuse(&mut self, why: BadCause, answer: &mut TextBuilder) -> Result<(), Memory>
        requires { self.old.lines < 2 ^ 40 }
        ensures refuses { OnOk result (RefusesFor why self.old answer.new self.new) }
        ensures lines { OnOk result (self.new.lines ≡ self.old.lines + 1) }
    {
        answer.clear();
        push_bad_line(answer, self.lines + 1, why)?;
        self.lines += 1;
        self.any_bad = true;
        Ok(())
    }

    /// A deployment: it is put in force, or refused.
    pub fn deploy<R: Wait>(
        &mut self,
        rt: &R,
        alloc: Global,
        value: &Value,
        answer: &mut TextBuilder,
    ) -> Result<(), Memory>
        requires lines { self.old.lines < 2 ^ 40 }
        requires somewhere { IsCrewSomewhere self.old }
        ensures deploys { OnOk result (Deploys (view value.now) self.old answer.new self.new) }
        ensures lines { OnOk result (self.new.lines ≡ self.old.lines + 1) }
    {
        answer.clear();
        match self.gate.deploy(rt, alloc, &mut self.desk, value) {
            Ok(number) => {
                push_deploy_line(answer, number)?;
                self.lines += 1;
                self.version = number;
                Ok(())
            }
            Err(DeployFault::Refused { place, cause }) => {
                push_refused_deploy(answer, place.bytes(), cause)?;
                self.lines += 1;
                Ok(())
            }
            Err(DeployFault::Memory) => Err(Memory),
            Err(DeployFault::Spent) => unreachable!(),
        }
    }

    /// How the run ends where the input does.
    pub fn ending(&self) -> Status
        ensures { result ≡ cond self.now.any_bad Status.BadItems Status.Done }
    {
        if self.any_bad {
            Status::BadItems
        } else {
            Status::Done
        }
    }
}
