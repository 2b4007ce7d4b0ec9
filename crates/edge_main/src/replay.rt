ghost use Rattle.std.specs.Prelude.{◌≡◌, ◌≢◌, ◌+◌, ◌≤◌, ◌<◌, ◌^◌, ◌⊎◌, ◌↔◌, IsTrue, ℕ, List, [], ◌++◌, length, take, Option, Some, Result, Ok, Err, IfOk, OnOk, OnErr, vec_len};
ghost use Rattle.std.specs.Io.KnownBytes.{Appends};
ghost use Rattle.edge_outside.specs.Faults.{Rose};
ghost use Rattle.edge_outside.specs.Reading.{line_of, weight, HoldsLine};
ghost use Rattle.edge_main.specs.Ended.{IsJudged, TookInput, EndsAs, AnswersWhole};
ghost use Rattle.edge_main.specs.Running.{IsSomewhere, IsOpening, WrotePending, TakesLine, SpendsOn, TakesLong, Refuses, Turns, TurnsWithin, TookOf, status_of};
ghost use Rattle.edge_main.specs.Running.{ClosesAs, ClosesWhole, StopsAs, StopsWhole};

use crate::run::Run;
use crate::statuses::Status;
use edge_base::{Memory, TextBuilder};
use edge_outside::{Failed, LineReader, LineStep, Sink, Source, write_all};
use rate_plain::StepFault;
use std::alloc::Global;
use std::hash::RandomState;
use trace_form::BadCause;

/// How many answered bytes are gathered before they are written.
const PIECE: usize = 1 << 16;

/// What one turn of the run came to.
#[derive(Clone, Copy, Debug, PartialEq, Eq)]
pub enum Turn {
    /// A line was answered.
    Next,
    /// The input is at its end.
    End,
}

/// What ends a run before its input ends.
#[derive(Clone, Copy, Debug, PartialEq, Eq)]
pub enum RunFault {
    Read,
    Write,
    Memory,
    /// 2^40 bytes were taken.
    LongInput,
    /// A step was asked where 2^50 were taken.
    Spent,
}

impl RunFault {
    /// How a run ends that this has ended.
    pub fn status(self) -> Status
        ensures { result ≡ status_of self }
    {
        match self {
            RunFault::Read => Status::ReadFault,
            RunFault::Write => Status::WriteFault,
            RunFault::Memory => Status::Memory,
            RunFault::LongInput => Status::LongInput,
            RunFault::Spent => Status::Spent,
        }
    }
}

impl From<Memory> for RunFault {
    ghost use Rattle.edge_main.specs.declared.replay.RunFault.TheVariants as fault;

    ghost from_gives = { λ _ given. given ≡ fault.Memory };

    fn from(_refused: Memory) -> RunFault {
        RunFault::Memory
    }
}

impl From<StepFault> for RunFault {
    ghost use Rattle.edge_main.specs.RunFaults.{run_fault};

    ghost from_gives = { λ refused given. given ≡ run_fault refused };

    fn from(refused: StepFault) -> RunFault {
        match refused {
            StepFault::Memory => RunFault::Memory,
            StepFault::Spent => RunFault::Spent,
        }
    }
}

/// Writes what is pending, where it is due or enough for a piece.
pub fn write_piece<K: Sink>(pending: &mut TextBuilder, due: bool, out: &mut K) -> Result<(), Failed>
    ensures due { OnOk result (IsTrue due → pending.new ≡ []) }
    ensures ok { OnOk result (WrotePending (K.got out.old) (K.got out.new) pending.old pending.new) }
    ensures err { OnErr result ((count : ℕ) × Appends (K.got out.old) (K.got out.new) (take count pending.old)) }
    ensures kept { OnOk result (K.faults out.new ≡ K.faults out.old) }
    ensures failed { OnErr result (Rose (K.faults out.old) (K.faults out.new)) }
{
    if due || PIECE <= pending.len() {
        write_all(out, pending.bytes())?;
        pending.clear();
    }
    Ok(())
}

/// A run under way: what it has read and judged, and the answers that were not written yet.
#[derive(Drop)]
pub struct Replay {
    pub run: Run,
    pub reader: LineReader,
    pub pending: TextBuilder,
    /// Room for the next answer, used again for each line.
    pub answer: TextBuilder,
}

impl Replay {
    pub fn new(alloc: Global, hashers: Vec<RandomState>) -> Result<Replay, Memory>
        requires { vec_len hashers ≡ 64 }
        ensures { IfOk result IsOpening }
    {
        Ok(Replay {
            run: Run::new(alloc, hashers)?,
            reader: LineReader::new(alloc)?,
            pending: TextBuilder::new(alloc),
            answer: TextBuilder::new(alloc),
        })
    }

    /// Answers the line that was read, and adds the answer to what is pending: whole, or not at all.
    fn take_line(&mut self, alloc: Global) -> Result<(), StepFault>
        requires lines { self.old.run.lines < 2 ^ 40 }
        requires somewhere { IsSomewhere self.old.run }
        ensures ok { OnOk result (TakesLine self.old (line_of self.old.reader) self.new) }
        ensures spent { result ≡ Err StepFault.Spent → SpendsOn self.old (line_of self.old.reader) }
        ensures err { OnErr result (self.new.pending ≡ self.old.pending) }
        ensures lines { OnOk result (self.new.run.lines ≡ self.old.run.lines + 1) }
        ensures reader { self.new.reader ≡ self.old.reader }
    {
        self.run
            .answer(alloc, self.reader.line(), &mut self.answer)?;
        self.pending.push(self.answer.bytes())?;
        Ok(())
    }

    /// The same for a line that is too long to be an item.
    fn take_long(&mut self) -> Result<(), Memory>
        requires { self.old.run.lines < 2 ^ 40 }
        ensures ok { OnOk result (TakesLong self.old self.new) }
        ensures refused { OnOk result (Refuses self.old self.new) }
        ensures err { OnErr result (self.new.pending ≡ self.old.pending) }
        ensures lines { OnOk result (self.new.run.lines ≡ self.old.run.lines + 1) }
        ensures reader { self.new.reader ≡ self.old.reader }
    {
        self.run.refuse(BadCause::LongLine, &mut self.answer)?;
        self.pending.push(self.answer.bytes())
    }

    /// Reads the next line and answers it, or ends. The answer is then pending.
    fn take_next<S: Source>(&mut self, alloc: Global, input: &mut S) -> Result<Turn, RunFault>
        requires room { self.old.run.lines + weight self.old.reader ≤ 2 ^ 40 }
        requires somewhere { IsSomewhere self.old.run }
        ensures turn { TurnsWithin result self.old self.new (S.left input.old) (S.left input.new) }
        ensures somewhere { result ≡ Ok Turn.Next → IsSomewhere self.new.run }
        ensures falls { result ≡ Ok Turn.Next → weight self.new.reader < weight self.old.reader }
        ensures room { result ≡ Ok Turn.Next → self.new.run.lines + weight self.new.reader ≤ 2 ^ 40 }
        ensures read { result ≡ Err RunFault.Read → Rose (S.faults input.old) (S.faults input.new) }
        ensures input_kept { result ≢ Err RunFault.Read → S.faults input.new ≡ S.faults input.old }
        ensures write { result ≢ Err RunFault.Write }
        ensures limit { (result ≡ Err RunFault.LongInput) ↔ (self.new.reader.taken ≡ 2 ^ 40) }
        ensures took { TookOf S.left S.taken input.old input.new self.old.reader self.new.reader }
    {
        match self.reader.next(input) {
            LineStep::Line => self.take_line(alloc)?,
            LineStep::Long => self.take_long()?,
            LineStep::End => return Ok(Turn::End),
            LineStep::Fault => return Err(RunFault::Read),
            LineStep::LongInput => return Err(RunFault::LongInput),
        }
        Ok(Turn::Next)
    }

    /// One turn of the run: reads and answers a line, and writes what is pending where it is enough for a piece. Where the
    /// next line doesn't stand whole in what was taken, all that is pending is written before the next turn waits for it.
    fn turn<S: Source, K: Sink>(
        &mut self,
        alloc: Global,
        input: &mut S,
        out: &mut K,
    ) -> Result<Turn, RunFault>
        requires room { self.old.run.lines + weight self.old.reader ≤ 2 ^ 40 }
        requires somewhere { IsSomewhere self.old.run }
        ensures turn { Turns S.left K.got result self.old self.new input.old input.new out.old out.new }
        ensures somewhere { result ≡ Ok Turn.Next → IsSomewhere self.new.run }
        ensures falls { result ≡ Ok Turn.Next → weight self.new.reader < weight self.old.reader }
        ensures room { result ≡ Ok Turn.Next → self.new.run.lines + weight self.new.reader ≤ 2 ^ 40 }
        ensures read { result ≡ Err RunFault.Read → Rose (S.faults input.old) (S.faults input.new) }
        ensures input_kept { result ≢ Err RunFault.Read → S.faults input.new ≡ S.faults input.old }
        ensures write { result ≡ Err RunFault.Write → Rose (K.faults out.old) (K.faults out.new) }
        ensures out_kept { result ≢ Err RunFault.Write → K.faults out.new ≡ K.faults out.old }
        ensures limit { (result ≡ Err RunFault.LongInput) ↔ (self.new.reader.taken ≡ 2 ^ 40) }
        ensures took { TookOf S.left S.taken input.old input.new self.old.reader self.new.reader }
        ensures at_once { OnOk result ((self.new.pending ≡ []) ⊎ HoldsLine self.new.reader) }
    {
        let turn = self.take_next(alloc, input)?;
        let due = !self.reader.holds_line();
        match write_piece(&mut self.pending, due, out) {
            Ok(()) => Ok(turn),
            Err(Failed) => Err(RunFault::Write),
        }
    }

    /// The input is at its end: writes what is pending.
    fn close<K: Sink>(&self, out: &mut K) -> Status
        ensures ended { ClosesAs self.now result (K.got out.old) (K.got out.new) }
        ensures answered { ClosesWhole K.faults K.got self.now out.old out.new }
        ensures status { IsJudged result ⊎ (result ≡ Status.WriteFault) }
        ensures write { result ≡ Status.WriteFault → Rose (K.faults out.old) (K.faults out.new) }
        ensures out_kept { result ≢ Status.WriteFault → K.faults out.new ≡ K.faults out.old }
    {
        match write_all(out, self.pending.bytes()) {
            Ok(()) => self.run.ending(),
            Err(Failed) => Status::WriteFault,
        }
    }

    /// The run is cut off: writes what is pending, but not again what a fault has cut off in the middle. A second fault
    /// changes nothing.
    fn stop<K: Sink>(&self, fault: RunFault, out: &mut K) -> Status
        ensures status { result ≡ status_of fault }
        ensures ended { StopsAs self.now fault result (K.got out.old) (K.got out.new) }
        ensures answered { StopsWhole K.faults K.got self.now fault result out.old out.new }
        ensures later { K.faults out.old ≤ K.faults out.new }
    {
        if let RunFault::Write = fault {
            return Status::WriteFault;
        }
        let _ = write_all(out, self.pending.bytes());
        fault.status()
    }
}

/// Judges each line of the input in order, and writes its answer.
pub fn replay_input<S: Source, K: Sink>(
    alloc: Global,
    hashers: Vec<RandomState>,
    input: &mut S,
    out: &mut K,
) -> Status
    requires { vec_len hashers ≡ 64 }
    ensures ended { EndsAs S.left K.got result input.old out.old out.new }
    ensures answered { AnswersWhole S.left K.faults K.got result input.old input.new out.old out.new }
    ensures read { result ≡ Status.ReadFault → Rose (S.faults input.old) (S.faults input.new) }
    ensures input_kept { result ≢ Status.ReadFault → S.faults input.new ≡ S.faults input.old }
    ensures write { result ≡ Status.WriteFault → Rose (K.faults out.old) (K.faults out.new) }
    ensures out_kept { IsJudged result → K.faults out.new ≡ K.faults out.old }
    ensures took { TookInput (S.left input.old) (S.left input.new) (S.taken input.old) (S.taken input.new) result }
    ensures plain { (result ≢ Status.Usage) × (result ≢ Status.AcceptFault) }
{
    let Ok(mut replay) = Replay::new(alloc, hashers) else {
        return Status::Memory;
    };
    'lines: loop {
        match replay.turn(alloc, input, out) {
            Ok(Turn::Next) => {}
            Ok(Turn::End) => return replay.close(out),
            Err(fault) => return replay.stop(fault, out),
        }
    }
}
