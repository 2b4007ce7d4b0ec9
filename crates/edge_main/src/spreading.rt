//! `replay` with several workers, line by line.

ghost use Rattle.std.specs.Prelude.{◌≡◌, ◌≢◌, ◌+◌, ◌≤◌, ◌<◌, ◌^◌, ◌⊎◌, ◌↔◌, IsTrue, [], ℕ, List, Ok, Err, IfOk, OnOk, OnErr, vec_len};
ghost use Rattle.serde_json.specs.View.{view};
ghost use Rattle.edge_outside.specs.Faults.{Rose};
ghost use Rattle.trace_form.specs.Item.{IsBlank, IsDeploy, IsAsk, IsNoItem};
ghost use Rattle.edge_outside.specs.Reading.{line_of, weight, HoldsLine};
ghost use Rattle.edge_main.specs.Ended.{IsJudged, TookInput};
ghost use Rattle.edge_main.specs.Running.{TookOf, status_of};
ghost use Rattle.edge_main.specs.SpreadEnded.{SpreadEndsAs};
ghost use Rattle.edge_main.specs.Spreading.{IsOpening, IsIdle, IsSomewhere, Settles, StaysUnder, StaysSettled, Keeps, TakesLine, GoesOn};
ghost use Rattle.edge_main.specs.Spreading.{MayGoOn, Turns, TurnsWithin, ClosesAs, StopsAs};

use crate::crew::Crew;
use crate::replay::{RunFault, Turn, write_piece};
use crate::statuses::Status;
use edge_base::{Memory, TextBuilder};
use edge_outside::{Failed, LineReader, LineStep, Sink, Source, Turnstile, write_all};
use rate_plain::{StepFault, history_is_legal_step_by_step};
use serde_json::Value;
use std::alloc::Global;
use std::hash::RandomState;
use std::sync::Wait;
use std::thread::Threads;
use trace_form::{BadCause, LineFault, LineItem, Recorded, read_item};

/// A run under way: what it has read and dealt, and the answers that were not written yet.
#[derive(Drop)]
pub struct Spreading {
    pub crew: Crew,
    pub reader: LineReader,
    pub pending: TextBuilder,
    /// Room for the next answers, used again.
    pub answer: TextBuilder,
}

impl Spreading {
    pub fn new<R: Wait>(
        rt: &R,
        alloc: Global,
        workers: u32,
        hashers: Vec<RandomState>,
    ) -> Result<Spreading, Memory>
        requires hashers { vec_len hashers ≡ 64 }
        requires workers { (1 ≤ workers) × (workers ≤ 64) }
        ensures { IfOk result IsOpening }
    {
        Ok(Spreading {
            crew: Crew::new(rt, alloc, workers, hashers)?,
            reader: LineReader::new(alloc)?,
            pending: TextBuilder::new(alloc),
            answer: TextBuilder::new(alloc),
        })
    }

    /// Judges what was dealt, and adds the lines to what is pending: all, or none.
    fn settle<R: Threads + Wait + Sync, T: Turnstile + Sync>(
        &mut self,
        rt: &R,
        alloc: Global,
        turnstile: &T,
    ) -> Result<(), StepFault>
        requires somewhere { IsSomewhere self.old.crew }
        ensures settles { OnOk result (Settles self.old self.new) }
        ensures err { OnErr result (self.new.pending ≡ self.old.pending) }
        ensures lines { OnOk result (self.new.crew.lines ≡ self.old.crew.lines) }
        ensures idle { OnOk result (IsIdle self.new.crew) }
        ensures reader { self.new.reader ≡ self.old.reader }
    {
        if self.crew.dealt == 0 {
            return Ok(());
        }
        self.crew.settle(rt, alloc, turnstile, &mut self.answer)?;
        self.pending.push(self.answer.bytes())?;
        Ok(())
    }

    /// Judges what was dealt, where it is due or a whole batch.
    fn settle_due<R: Threads + Wait + Sync, T: Turnstile + Sync>(
        &mut self,
        rt: &R,
        alloc: Global,
        turnstile: &T,
        due: bool,
    ) -> Result<(), StepFault>
        requires dealt { self.old.crew.dealt ≤ 256 }
        requires somewhere { IsSomewhere self.old.crew }
        ensures under { OnOk result (StaysUnder self.old self.new) }
        ensures settled { OnOk result (StaysSettled self.old self.new) }
        ensures err { OnErr result (self.new.pending ≡ self.old.pending) }
        ensures lines { OnOk result (self.new.crew.lines ≡ self.old.crew.lines) }
        ensures dealt { OnOk result (self.new.crew.dealt ≤ self.old.crew.dealt) }
        ensures room { OnOk result (self.new.crew.dealt < 256) }
        ensures somewhere { OnOk result (IsSomewhere self.new.crew) }
        ensures reader { self.new.reader ≡ self.old.reader }
    {
        if due || self.crew.is_full() {
            self.settle(rt, alloc, turnstile)?;
        }
        Ok(())
    }

    /// A blank line.
    fn pass_by<R: Threads + Wait + Sync, T: Turnstile + Sync>(
        &mut self,
        rt: &R,
        alloc: Global,
        turnstile: &T,
    ) -> Result<(), StepFault>
        requires lines { self.old.crew.lines < 2 ^ 40 }
        requires somewhere { IsSomewhere self.old.crew }
        ensures takes { OnOk result ((given : List ℕ) → IsBlank given → TakesLine given self.old self.new) }
        ensures goes { OnOk result (GoesOn self.old.crew self.new.crew) }
        ensures err { OnErr result (Keeps self.old self.new) }
        ensures reader { self.new.reader ≡ self.old.reader }
    {
        self.settle(rt, alloc, turnstile)?;
        self.crew.pass_by(&mut self.answer);
        Ok(())
    }

    /// A line that is no item, for this cause.
    fn refuse<R: Threads + Wait + Sync, T: Turnstile + Sync>(
        &mut self,
        rt: &R,
        alloc: Global,
        turnstile: &T,
        why: BadCause,
    ) -> Result<(), StepFault>
        requires lines { self.old.crew.lines < 2 ^ 40 }
        requires somewhere { IsSomewhere self.old.crew }
        ensures takes { OnOk result ((given : List ℕ) → IsNoItem given why → TakesLine given self.old self.new) }
        ensures goes { OnOk result (GoesOn self.old.crew self.new.crew) }
        ensures err { OnErr result (Keeps self.old self.new) }
        ensures reader { self.new.reader ≡ self.old.reader }
    {
        self.settle(rt, alloc, turnstile)?;
        self.crew.refuse(why, &mut self.answer)?;
        self.pending.push(self.answer.bytes())?;
        Ok(())
    }

    /// A deployment, which begins after the last batch has ended.
    fn deploy<R: Threads + Wait + Sync, T: Turnstile + Sync>(
        &mut self,
        rt: &R,
        alloc: Global,
        turnstile: &T,
        value: &Value,
    ) -> Result<(), StepFault>
        requires lines { self.old.crew.lines < 2 ^ 40 }
        requires somewhere { IsSomewhere self.old.crew }
        ensures takes { OnOk result ((given : List ℕ) → IsDeploy given (view value.now) → TakesLine given self.old self.new) }
        ensures goes { OnOk result (GoesOn self.old.crew self.new.crew) }
        ensures err { OnErr result (Keeps self.old self.new) }
        ensures reader { self.new.reader ≡ self.old.reader }
    {
        self.settle(rt, alloc, turnstile)?;
        self.crew.deploy(rt, alloc, value, &mut self.answer)?;
        self.pending.push(self.answer.bytes())?;
        Ok(())
    }

    /// A request, which is dealt.
    fn deal(&mut self, recorded: Recorded) -> Result<(), Memory>
        requires lines { self.old.crew.lines < 2 ^ 40 }
        requires room { self.old.crew.dealt < 256 }
        requires somewhere { IsSomewhere self.old.crew }
        ensures takes { OnOk result ((given : List ℕ) → IsAsk given recorded → TakesLine given self.old self.new) }
        ensures goes { OnOk result ((given : List ℕ) → IsAsk given recorded → GoesOn self.old.crew self.new.crew) }
        ensures err { OnErr result (Keeps self.old self.new) }
        ensures reader { self.new.reader ≡ self.old.reader }
    {
        self.crew.deal(recorded)
    }

    /// Takes the line that was read: deals its request, or answers it behind the lines of what was dealt.
    fn take_line<R: Threads + Wait + Sync, T: Turnstile + Sync>(
        &mut self,
        rt: &R,
        alloc: Global,
        turnstile: &T,
    ) -> Result<(), StepFault>
        requires lines { self.old.crew.lines < 2 ^ 40 }
        requires room { self.old.crew.dealt < 256 }
        requires somewhere { IsSomewhere self.old.crew }
        ensures takes { OnOk result (TakesLine (line_of self.old.reader) self.old self.new) }
        ensures goes { OnOk result (GoesOn self.old.crew self.new.crew) }
        ensures err { OnErr result (Keeps self.old self.new) }
        ensures reader { self.new.reader ≡ self.old.reader }
    {
        match read_item(alloc, self.reader.line()) {
            Ok(LineItem::Ask(recorded)) => Ok(self.deal(recorded)?),
            Ok(LineItem::Blank) => self.pass_by(rt, alloc, turnstile),
            Ok(LineItem::Deploy(value)) => self.deploy(rt, alloc, turnstile, &value),
            Err(LineFault::Bad(why)) => self.refuse(rt, alloc, turnstile, why),
            Err(LineFault::Memory) => Err(StepFault::Memory),
        }
    }

    /// Reads the next line and takes it, or ends. Where the input ends, or can't be read on, what was dealt is judged.
    fn take_next<R: Threads + Wait + Sync, T: Turnstile + Sync, S: Source>(
        &mut self,
        rt: &R,
        alloc: Global,
        turnstile: &T,
        input: &mut S,
    ) -> Result<Turn, RunFault>
        requires room { self.old.crew.lines + weight self.old.reader ≤ 2 ^ 40 }
        requires dealt { self.old.crew.dealt < 256 }
        requires somewhere { IsSomewhere self.old.crew }
        ensures turn { TurnsWithin result self.old self.new (S.left input.old) (S.left input.new) }
        ensures next { result ≡ Ok Turn.Next → MayGoOn self.old self.new }
        ensures somewhere { OnOk result (IsSomewhere self.new.crew) }
        ensures dealt { OnOk result (self.new.crew.dealt ≤ 256) }
        ensures read { result ≡ Err RunFault.Read → Rose (S.faults input.old) (S.faults input.new) }
        ensures input_kept { result ≢ Err RunFault.Read → S.faults input.new ≡ S.faults input.old }
        ensures write { result ≢ Err RunFault.Write }
        ensures limit { (result ≡ Err RunFault.LongInput) ↔ (self.new.reader.taken ≡ 2 ^ 40) }
        ensures took { TookOf S.left S.taken input.old input.new self.old.reader self.new.reader }
    {
        match self.reader.next(input) {
            LineStep::Line => self.take_line(rt, alloc, turnstile)?,
            LineStep::Long => self.refuse(rt, alloc, turnstile, BadCause::LongLine)?,
            LineStep::End => {
                self.settle(rt, alloc, turnstile)?;
                return Ok(Turn::End);
            }
            LineStep::Fault => {
                let _ = self.settle(rt, alloc, turnstile);
                return Err(RunFault::Read);
            }
            LineStep::LongInput => {
                let _ = self.settle(rt, alloc, turnstile);
                return Err(RunFault::LongInput);
            }
        }
        Ok(Turn::Next)
    }

    /// One turn of the run: takes a line, and writes what is pending where it is enough for a piece. What was dealt is
    /// judged where it is a whole batch. Where the next line doesn't stand whole in what was taken, it is judged too, and
    /// all that is pending is written before the next turn waits for that line.
    fn turn<R: Threads + Wait + Sync, T: Turnstile + Sync, S: Source, K: Sink>(
        &mut self,
        rt: &R,
        alloc: Global,
        turnstile: &T,
        input: &mut S,
        out: &mut K,
    ) -> Result<Turn, RunFault>
        requires room { self.old.crew.lines + weight self.old.reader ≤ 2 ^ 40 }
        requires dealt { self.old.crew.dealt < 256 }
        requires somewhere { IsSomewhere self.old.crew }
        ensures turn { Turns S.left K.got result self.old self.new input.old input.new out.old out.new }
        ensures next { result ≡ Ok Turn.Next → MayGoOn self.old self.new × (self.new.crew.dealt < 256) }
        ensures read { result ≡ Err RunFault.Read → Rose (S.faults input.old) (S.faults input.new) }
        ensures input_kept { result ≢ Err RunFault.Read → S.faults input.new ≡ S.faults input.old }
        ensures write { result ≡ Err RunFault.Write → Rose (K.faults out.old) (K.faults out.new) }
        ensures out_kept { result ≢ Err RunFault.Write → K.faults out.new ≡ K.faults out.old }
        ensures limit { (result ≡ Err RunFault.LongInput) ↔ (self.new.reader.taken ≡ 2 ^ 40) }
        ensures took { TookOf S.left S.taken input.old input.new self.old.reader self.new.reader }
        ensures at_once { OnOk result ((self.new.pending ≡ []) ⊎ HoldsLine self.new.reader) }
    {
        let turn = self.take_next(rt, alloc, turnstile, input)?;
        let due = !self.reader.holds_line();
        self.settle_due(rt, alloc, turnstile, due)?;
        match write_piece(&mut self.pending, due, out) {
            Ok(()) => Ok(turn),
            Err(Failed) => Err(RunFault::Write),
        }
    }

    /// The input is at its end: writes what is pending.
    fn close<K: Sink>(&self, out: &mut K) -> Status
        ensures ended { ClosesAs self.now result (K.got out.old) (K.got out.new) }
        ensures status { IsJudged result ⊎ (result ≡ Status.WriteFault) }
        ensures write { result ≡ Status.WriteFault → Rose (K.faults out.old) (K.faults out.new) }
        ensures out_kept { result ≢ Status.WriteFault → K.faults out.new ≡ K.faults out.old }
    {
        match write_all(out, self.pending.bytes()) {
            Ok(()) => self.crew.ending(),
            Err(Failed) => Status::WriteFault,
        }
    }

    /// The run is cut off: writes what is pending, but not again what a fault has cut off in the middle. A second fault
    /// changes nothing.
    fn stop<K: Sink>(&self, fault: RunFault, out: &mut K) -> Status
        ensures status { result ≡ status_of fault }
        ensures ended { StopsAs self.now fault result (K.got out.old) (K.got out.new) }
        ensures later { K.faults out.old ≤ K.faults out.new }
    {
        if let RunFault::Write = fault {
            return Status::WriteFault;
        }
        let _ = write_all(out, self.pending.bytes());
        fault.status()
    }
}

/// Judges the requests of the input by so many workers, and writes the answer of each line in order.
pub fn spread_input<R: Threads + Wait + Sync, T: Turnstile + Sync, S: Source, K: Sink>(
    rt: &R,
    alloc: Global,
    turnstile: &T,
    workers: u32,
    hashers: Vec<RandomState>,
    input: &mut S,
    out: &mut K,
) -> Status
    requires hashers { vec_len hashers ≡ 64 }
    requires workers { (1 ≤ workers) × (workers ≤ 64) }
    ensures ended { SpreadEndsAs S.left K.got result input.old out.old out.new }
    ensures read { result ≡ Status.ReadFault → Rose (S.faults input.old) (S.faults input.new) }
    ensures input_kept { result ≢ Status.ReadFault → S.faults input.new ≡ S.faults input.old }
    ensures write { result ≡ Status.WriteFault → Rose (K.faults out.old) (K.faults out.new) }
    ensures out_kept { IsJudged result → K.faults out.new ≡ K.faults out.old }
    ensures took { TookInput (S.left input.old) (S.left input.new) (S.taken input.old) (S.taken input.new) result }
    ensures plain { (result ≢ Status.Usage) × (result ≢ Status.AcceptFault) }
{
    history_is_legal_step_by_step();
    let Ok(mut spreading) = Spreading::new(rt, alloc, workers, hashers) else {
        return Status::Memory;
    };
    'lines: loop {
        match spreading.turn(rt, alloc, turnstile, input, out) {
            Ok(Turn::Next) => {}
            Ok(Turn::End) => return spreading.close(out),
            Err(fault) => return spreading.stop(fault, out),
        }
    }
}
