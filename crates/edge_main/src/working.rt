//! A worker of `replay`: it judges the requests that were dealt to it, and keeps their lines.

ghost use Rattle.std.specs.Prelude.{◌≡◌, ◌++◌, ◌⊎◌, None, IfOk};
ghost use Rattle.ruleset_model.specs.declared.verdict.VerdictKind.TheVariants as kind;
ghost use Rattle.gate_run.specs.Passes.{IsPassOf, IsSamePass};
ghost use Rattle.edge_main.specs.Working.{FollowsIn, JudgesIn};

use crate::asking::{Followed, reply_used};
use edge_base::{Moment, Reply, Text, copy_headers};
use edge_outside::{Point, Turnstile};
use gate_run::{Answered, Finished, Gate, Pass};
use judge_core::Judged;
use rate_plain::{Counts, StepFault};
use ruleset_model::Picked;
use std::alloc::Global;
use std::mem::replace;
use std::sync::Wait;
use trace_form::{LineParts, Recorded, line_of};

/// A request that is to be judged, and the version that was picked for it.
#[derive(Drop)]
pub struct Job {
    pub number: u64,
    pub picked: Picked,
    pub recorded: Recorded,
}

/// Judges the reply that is used, if there is one, and adds its steps to those of the request.
fn follow<R: Wait>(
    rt: &R,
    alloc: Global,
    gate: &Gate,
    pass: &mut Pass,
    judged: Judged,
    used: Option<(Reply, Moment)>,
    counts: &mut Counts,
) -> Result<Followed, StepFault>
    requires of { IsPassOf gate.now pass.old }
    requires passed { (used ≡ None) ⊎ (judged.verdict.kind ≡ kind.Pass) }
    ensures same { IsSamePass pass.old pass.new }
    ensures follows { IfOk result (FollowsIn pass.old.seen pass.new.seen judged used counts.old counts.new) }
{
    let Some((reply, at)) = used else {
        return Ok(Followed::alone(judged));
    };
    let before = copy_headers(alloc, reply.headers.as_slice())?;
    let verdict = judged.verdict.copy(alloc)?;
    let request = judged.request.copy(alloc)?;
    let finished = gate.response(rt, alloc, pass, judged, reply, at)?;
    let Finished {
        reply,
        counts: more,
    } = finished;
    counts.append(more)?;
    Ok(Followed {
        verdict,
        request,
        headers: Some((before, reply.headers)),
    })
}

/// Judges a request in the version that was picked for it, and at once its reply where one was recorded.
fn judge_job<R: Wait>(
    rt: &R,
    alloc: Global,
    gate: &Gate,
    pass: &mut Pass,
    job: Job,
) -> Result<LineParts, StepFault>
    requires of { IsPassOf gate.now pass.old }
    ensures same { IsSamePass pass.old pass.new }
    ensures judges { IfOk result (JudgesIn pass.old.seen pass.new.seen job) }
{
    let Job {
        number,
        picked,
        recorded,
    } = job;
    let Recorded { request, reply } = recorded;
    let version = picked.number;
    let came = copy_headers(alloc, request.headers.as_slice())?;
    let answered = gate.request_in(rt, alloc, pass, picked, request)?;
    let Answered { judged, mut counts } = answered;
    let used = reply_used(&judged.verdict.kind, reply);
    let Followed {
        verdict,
        request,
        headers,
    } = follow(rt, alloc, gate, pass, judged, used, &mut counts)?;
    Ok(LineParts {
        number,
        version,
        verdict,
        request,
        came,
        counts,
        reply: headers,
    })
}

/// A worker: the requests that it is to judge, and the lines of those that it has judged.
#[derive(Drop)]
pub struct Worker {
    /// From 0.
    pub number: u32,
    pub pass: Pass,
    pub jobs: Vec<Job>,
    pub lines: Vec<Text>,
    /// Why it left a request.
    pub fault: Option<StepFault>,
}

impl Worker {
    ghost use Rattle.std.specs.Prelude.{[], OnOk};
    ghost use Rattle.edge_main.specs.Working.{IsSameWorker, IsReady, IsNew, JudgesOne, JudgesAll, Works};

    /// A worker with nothing to do. Takes no memory.
    pub fn new(alloc: Global, number: u32, pass: Pass) -> Worker
        ensures new { IsNew number pass.seen result }
    {
        Worker {
            number,
            pass,
            jobs: Vec::new(alloc),
            lines: Vec::new(alloc),
            fault: None,
        }
    }

    /// Judges a request, and keeps its line.
    fn judge<R: Wait>(
        &mut self,
        rt: &R,
        alloc: Global,
        gate: &Gate,
        job: Job,
    ) -> Result<(), StepFault>
        requires of { IsPassOf gate.now self.old.pass }
        ensures same { IsSameWorker self.old self.new }
        ensures jobs { self.new.jobs.items ≡ self.old.jobs.items }
        ensures judges { OnOk result (JudgesOne self.old self.new job) }
    {
        let parts = judge_job(rt, alloc, gate, &mut self.pass, job)?;
        self.lines.reserve(1)?;
        self.lines.push_reserved(line_of(alloc, &parts)?);
        Ok(())
    }

    /// Judges all requests, in order, up to the first that is refused.
    fn judge_all<R: Wait, T: Turnstile>(
        &mut self,
        rt: &R,
        alloc: Global,
        gate: &Gate,
        turnstile: &T,
    ) -> Result<(), StepFault>
        requires ready { IsReady gate.now self.old }
        ensures same { IsSameWorker self.old self.new }
        ensures judges { OnOk result (JudgesAll self.old self.new) }
    {
        let jobs = replace(&mut self.jobs, Vec::new(alloc));
        'jobs: for job in jobs {
            turnstile.at(rt, self.number, Point::Took);
            let judged = self.judge(rt, alloc, gate, job);
            turnstile.at(rt, self.number, Point::Answered);
            judged?;
        }
        Ok(())
    }

    /// Judges all requests, or says why it left one.
    pub fn work<R: Wait, T: Turnstile>(&mut self, rt: &R, alloc: Global, gate: &Gate, turnstile: &T)
        requires ready { IsReady gate.now self.old }
        ensures works { Works self.old self.new }
    {
        if let Err(fault) = self.judge_all(rt, alloc, gate, turnstile) {
            self.fault = Some(fault);
        }
    }
}
