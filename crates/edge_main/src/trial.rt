//! `make --run`: the made lines are judged as `replay` judges them, and summed up.

ghost use Rattle.std.specs.Prelude.{◌≡◌, ◌≢◌, ◌≤◌, ◌<◌, ◌+◌, ◌-◌, ◌^◌, ◌⊎◌, [], length, take, Err, IfOk, OnOk, vec_len};
ghost use Rattle.edge_outside.specs.Faults.{Rose};
ghost use Rattle.edge_outside.specs.Lines.{lines_of};
ghost use Rattle.edge_main.specs.Ended.{IsJudged};
ghost use Rattle.edge_main.specs.Making.{made_trace};
ghost use Rattle.edge_main.specs.Running.{IsSomewhere};
ghost use Rattle.edge_main.specs.Spent.{WasSpent};
ghost use Rattle.edge_main.specs.Tried.{TriesAs};
ghost use Rattle.edge_main.specs.Trying.{IsTriedBy, IsTriedSo, TriesLine, SpendsOnLine, IsSummaryFor, WritesSummary};

use crate::run::Run;
use crate::statuses::Status;
use crate::summary::Summary;
use edge_base::{Memory, TextBuilder};
use edge_outside::{Failed, Sink, write_all};
use rate_plain::{StepFault, Tally};
use std::alloc::Global;
use std::hash::RandomState;
use trace_form::{Made, made_line};

/// A run over made lines, and what its requests came to.
#[derive(Drop)]
pub struct Trial {
    pub run: Run,
    pub summary: Summary,
    /// Room for the answer to a line, which is not written.
    pub answer: TextBuilder,
}

/// A made line without its newline.
fn without_newline(line: &[u8]) -> &[u8]
    ensures { result.now ≡ take (length line.now - 1) line.now }
{
    match line {
        [text @ .., _] => text,
        [] => line,
    }
}

impl Trial {
    /// No line was taken yet. There is a hasher for each lane of the counter.
    fn new(alloc: Global, hashers: Vec<RandomState>) -> Result<Trial, Memory>
        requires { vec_len hashers ≡ 64 }
        ensures tried { IfOk result (λ trial. IsTriedBy trial []) }
        ensures lines { IfOk result (λ trial. trial.run.lines ≡ 0) }
    {
        Ok(Trial {
            run: Run::new(alloc, hashers)?,
            summary: Summary::new(alloc),
            answer: TextBuilder::new(alloc),
        })
    }

    /// Takes a line, and counts a request.
    fn take_line(&mut self, alloc: Global, line: &[u8]) -> Result<(), StepFault>
        requires lines { self.old.run.lines < 2 ^ 30 }
        requires so { IsTriedSo self.old }
        ensures tries { OnOk result (TriesLine self.old line.now self.new) }
        ensures spent { result ≡ Err StepFault.Spent → SpendsOnLine self.old line.now }
        ensures lines { OnOk result (self.new.run.lines ≡ self.old.run.lines + 1) }
    {
        match self.run.take(alloc, line, &mut self.answer)? {
            Some(parts) => Ok(self.summary.add(alloc, &parts)?),
            None => Ok(()),
        }
    }

    /// The summary, as it is written.
    fn text(&self, alloc: Global) -> Result<TextBuilder, Memory>
        ensures { IfOk result (IsSummaryFor self.now) }
    {
        let mut text = TextBuilder::new(alloc);
        self.summary.push(&mut text, self.run.counter.length())?;
        Ok(text)
    }

    /// Writes the summary, where the run has come to its end.
    fn write<K: Sink>(&self, alloc: Global, out: &mut K) -> Status
        ensures writes { WritesSummary self.now result (K.got out.old) (K.got out.new) }
        ensures status { IsJudged result ⊎ ((result ≡ Status.WriteFault) ⊎ (result ≡ Status.Memory)) }
        ensures write { result ≡ Status.WriteFault → Rose (K.faults out.old) (K.faults out.new) }
        ensures out_kept { result ≢ Status.WriteFault → K.faults out.new ≡ K.faults out.old }
    {
        let Ok(text) = self.text(alloc) else {
            return Status::Memory;
        };
        match write_all(out, text.bytes()) {
            Ok(()) => self.run.ending(),
            Err(Failed) => Status::WriteFault,
        }
    }
}

/// Judges a deployment and so many requests.
fn try_lines(
    alloc: Global,
    seed: u64,
    requests: u64,
    hashers: Vec<RandomState>,
) -> Result<Trial, StepFault>
    requires hashers { vec_len hashers ≡ 64 }
    requires few { requests ≤ 10000000 }
    ensures tried { IfOk result (λ trial. IsTriedBy trial (lines_of (made_trace seed requests))) }
    ensures spent { result ≡ Err StepFault.Spent → WasSpent (made_trace seed requests) }
{
    let mut made = Made::new(seed);
    let mut trial = Trial::new(alloc, hashers)?;
    for index in 0..requests + 1 {
        let line = made_line(alloc, seed, index, &mut made)?;
        trial.take_line(alloc, without_newline(line.bytes()))?;
    }
    Ok(trial)
}

/// Judges a deployment and so many requests, and writes their summary.
pub fn try_trace<K: Sink>(
    alloc: Global,
    seed: u64,
    requests: u64,
    hashers: Vec<RandomState>,
    out: &mut K,
) -> Status
    requires hashers { vec_len hashers ≡ 64 }
    requires few { requests ≤ 10000000 }
    ensures ended { TriesAs K.got seed requests result out.old out.new }
    ensures status { IsJudged result ⊎ ((result ≡ Status.WriteFault) ⊎ ((result ≡ Status.Memory) ⊎ (result ≡ Status.Spent))) }
    ensures write { result ≡ Status.WriteFault → Rose (K.faults out.old) (K.faults out.new) }
    ensures out_kept { result ≢ Status.WriteFault → K.faults out.new ≡ K.faults out.old }
{
    match try_lines(alloc, seed, requests, hashers) {
        Ok(trial) => trial.write(alloc, out),
        Err(StepFault::Memory) => Status::Memory,
        Err(StepFault::Spent) => Status::Spent,
    }
}
