ghost use Rattle.std.specs.Prelude.{◌≡◌, ◌^◌, ◌≤◌, length, IsSome};

use crate::buffer::Buffer;
use crate::failure::Failed;
use crate::source::Source;
use edge_base::Memory;
use std::alloc::Global;

/// The most bytes that a reader takes from its source.
const INPUT_MAX: u64 = 1 << 40;

/// What a reader answers.
#[derive(Clone, Copy, Debug, PartialEq, Eq)]
pub enum LineStep {
    /// The next line is ready.
    Line,
    /// The next line has more than 1,048,576 bytes, and was read past.
    Long,
    /// The input is at its end.
    End,
    /// A read failed. A later call goes on from what was taken.
    Fault,
    /// 2^40 bytes were taken.
    LongInput,
}

/// Reads lines from a source, in large pieces.
#[derive(Debug, Drop)]
pub struct LineReader {
    buffer: Buffer,
    // A byte read after a full buffer, which tells whether the buffer is a whole line.
    aside: Option<u8>,
    // Whether the front of a line that is too long was read past.
    long: bool,
    taken: u64,
    ghost limited: { taken ≤ 2 ^ 40 },
    ghost full: { IsSome aside → (2 ^ 20 ≤ length buffer.begun) × (length buffer.rest ≡ 0) },
}

impl LineReader {
    ghost use Rattle.std.specs.Prelude.{◌≡◌, ◌≢◌, ◌↔◌, ℕ, List, ◌^◌, ◌<◌, ◌≤◌, ◌⊎◌, false, if◌then◌else◌, length, Some};
    ghost use Rattle.std.specs.Prelude.{IsTrue, IfOk, OnOk, OnErr, IfSome, IfNone, OnSome};
    ghost use Rattle.std.specs.Io.KnownBytes.{IsAtEnd};
    ghost use Rattle.edge_outside.specs.Faults.{Rose};
    ghost use Rattle.edge_outside.specs.Lines.{NoNewline};
    ghost use Rattle.edge_outside.specs.Reading.{line_of, ahead_of, Stands, StepsOn, StepsInside, StepsAtEnd, StandsStill, TookFrom, TakesOn, HoldsLine, IsLooked, weight};

    /// Takes a buffer of 1 MiB.
    pub fn new(alloc: Global) -> Result<LineReader, Memory>
        ensures stands { IfOk result (λ reader. (text : List ℕ) → Stands reader (Some text) text) }
        ensures taken { IfOk result (λ reader. reader.taken ≡ 0) }
        ensures weight { IfOk result (λ reader. weight reader ≡ 2 ^ 40) }
    {
        let buffer = Buffer::new(alloc)?;
        Ok(LineReader {
            buffer,
            aside: None,
            long: false,
            taken: 0,
        })
    }

    /// The line that the last `Line` gave, without its newline. Takes no memory.
    pub fn line(&self) -> &[u8]
        ensures { result.now ≡ line_of self.now }
    {
        self.buffer.line()
    }

    /// Whether the next line stands whole in what was taken, so that `next` gives it without a read.
    pub fn holds_line(&self) -> bool
        ensures { IsTrue result ↔ HoldsLine self.now }
    {
        self.buffer.has_newline()
    }

    /// The answer to a line that was cut: it is long where its front was read past.
    fn answer(&mut self) -> LineStep
        ensures step { result ≡ (if self.old.long then LineStep.Long else LineStep.Line) }
        ensures after { self.new ≡ record self.old { long = false } }
    {
        if self.long {
            self.long = false;
            LineStep::Long
        } else {
            LineStep::Line
        }
    }

    /// Gives the next line where it ends in what was taken. Where it doesn't, all that was taken was looked at.
    fn look(&mut self) -> Option<LineStep>
        ensures found { IfSome result (StepsInside self.old self.new) }
        ensures none { IfNone result (StandsStill self.old self.new) }
        ensures looked { IfNone result (IsLooked self.new) }
        ensures no_newline { IfNone result (NoNewline self.new.buffer.begun) }
        ensures variant { IfSome result (λ step. (step ≡ LineStep.Line) ⊎ (step ≡ LineStep.Long)) }
        ensures taken { self.new.taken ≡ self.old.taken }
        ensures progress { OnSome result (weight self.new < weight self.old) }
        ensures weight { weight self.new ≤ weight self.old }
    {
        if self.buffer.cut() {
            return Some(self.answer());
        }
        match self.aside {
            None => None,
            Some(byte) => {
                self.aside = None;
                self.buffer.cut_begun();
                if byte == b'\n' {
                    return Some(self.answer());
                }
                self.long = true;
                None
            }
        }
    }

    /// Gives the last line, which lacks a newline, or answers the end.
    fn finish(&mut self) -> LineStep
        requires { IsLooked self.old }
        ensures lines { StepsAtEnd self.old self.new result }
        ensures variant { (result ≢ LineStep.Fault) × (result ≢ LineStep.LongInput) }
        ensures taken { self.new.taken ≡ self.old.taken }
        ensures progress { (result ≡ LineStep.Line) ⊎ (result ≡ LineStep.Long) → weight self.new < weight self.old }
    {
        let bare = self.buffer.is_bare();
        if bare && !self.long {
            return LineStep::End;
        }
        self.buffer.cut_begun();
        self.answer()
    }

    /// Reads one byte behind a full buffer.
    fn read_aside<S: Source>(&mut self, source: &mut S) -> Result<usize, Failed>
        requires looked { IsLooked self.old }
        requires full { 2 ^ 20 ≤ length self.old.buffer.begun }
        requires limit { self.old.taken < 2 ^ 40 }
        ensures took { TookFrom S.left S.taken source.old source.new self.old self.new result }
        ensures end { IfOk result (λ count. count ≡ 0 → IsAtEnd (S.left source.new) × IsLooked self.new) }
        ensures err { OnErr result (self.new.taken ≡ self.old.taken) }
        ensures kept { OnOk result (S.faults source.new ≡ S.faults source.old) }
        ensures failed { OnErr result (Rose (S.faults source.old) (S.faults source.new)) }
        ensures later { S.faults source.old ≤ S.faults source.new }
    {
        let mut byte = [0];
        let count = source.read(&mut byte)?;
        if 0 < count {
            self.aside = Some(byte[0]);
            self.taken += 1;
        }
        Ok(count)
    }

    /// Takes more from the source.
    fn read_on<S: Source>(&mut self, source: &mut S) -> Result<usize, Failed>
        requires looked { IsLooked self.old }
        requires limit { self.old.taken < 2 ^ 40 }
        ensures took { TookFrom S.left S.taken source.old source.new self.old self.new result }
        ensures end { IfOk result (λ count. count ≡ 0 → IsAtEnd (S.left source.new) × IsLooked self.new) }
        ensures err { OnErr result (self.new.taken ≡ self.old.taken) }
        ensures kept { OnOk result (S.faults source.new ≡ S.faults source.old) }
        ensures failed { OnErr result (Rose (S.faults source.old) (S.faults source.new)) }
        ensures later { S.faults source.old ≤ S.faults source.new }
    {
        if self.buffer.is_full() {
            return self.read_aside(source);
        }
        let most = INPUT_MAX - self.taken;
        let count = self.buffer.fill(source, most as usize)?;
        self.taken += count as u64;
        Ok(count)
    }

    /// Reads on to the next line. Takes no memory.
    pub fn next<S: Source>(&mut self, source: &mut S) -> LineStep
        ensures lines { StepsOn self.old (S.left source.old) self.new (S.left source.new) result }
        ensures kept { result ≢ LineStep.Fault → S.faults source.new ≡ S.faults source.old }
        ensures fault { result ≡ LineStep.Fault → Rose (S.faults source.old) (S.faults source.new) }
        ensures in_line { result ≡ LineStep.Fault → NoNewline (ahead_of self.new) }
        ensures later { S.faults source.old ≤ S.faults source.new }
        ensures long_input { (result ≡ LineStep.LongInput) ↔ (self.new.taken ≡ 2 ^ 40) }
        ensures taken { TakesOn S.left S.taken source.old source.new self.old self.new }
        ensures progress { (result ≡ LineStep.Line) ⊎ (result ≡ LineStep.Long) → weight self.new < weight self.old }
    {
        'reading: loop {
            if self.taken == INPUT_MAX {
                return LineStep::LongInput;
            }
            if let Some(step) = self.look() {
                return step;
            }
            match self.read_on(source) {
                Err(Failed) => return LineStep::Fault,
                Ok(0) => return self.finish(),
                Ok(_) => {}
            }
        }
    }
}
