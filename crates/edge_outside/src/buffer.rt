ghost use Rattle.std.specs.Prelude.{◌≡◌, ◌↔◌, [], ◌+◌, ◌-◌, ◌^◌, ◌<◌, ◌≤◌, IsTrue, MatchBool, length, take, slice_range, vec_len, IfOk, OnOk, OnErr};
ghost use Rattle.std.specs.Io.KnownBytes.{IsAtEnd, Keeps};
ghost use Rattle.edge_outside.specs.Faults.{Rose};
ghost use Rattle.edge_outside.specs.Held.{Held, Cut, Looked};
ghost use Rattle.edge_outside.specs.Lines.{NoNewline, HasNewline};
ghost use Rattle.edge_outside.specs.Told.{Gave};

use crate::failure::Failed;
use crate::source::Source;
use memchr::memchr;
use std::alloc::{AllocError, Global};
use std::marker::Model;

/// The most bytes of a line, without its newline.
pub const LINE_MAX: usize = 1 << 20;

/// Bytes read ahead, and the line that was cut off them last. A line is never copied, but its begun part is moved to
/// the front before more is read.
#[derive(Debug, Drop)]
pub struct Buffer {
    bytes: Vec<u8>,
    // The line cut last.
    line_from: usize,
    line_to: usize,
    // What was read and not cut, of which the bytes up to `looked` have no newline.
    from: usize,
    looked: usize,
    to: usize,
}

impl Model for Buffer {
    ghost Value = { Held };

    ghost view = { λ buffer. record {
      line = slice_range buffer.bytes.items buffer.line_from buffer.line_to;
      begun = slice_range buffer.bytes.items buffer.from buffer.looked;
      rest = slice_range buffer.bytes.items buffer.looked buffer.to;
    } };

    ghost invariant = { λ buffer. (vec_len buffer.bytes ≡ 2 ^ 20)
        × (buffer.line_from ≤ buffer.line_to) × (buffer.line_to ≤ 2 ^ 20)
        × (buffer.from ≤ buffer.looked) × (buffer.looked ≤ buffer.to) × (buffer.to ≤ 2 ^ 20)
        × NoNewline (slice_range buffer.bytes.items buffer.from buffer.looked) };
}

/// Moves the bytes from `from` to `to` to the front.
fn move_to_front(bytes: &mut [u8], from: usize, to: usize)
    requires ordered { from ≤ to }
    requires within { to ≤ length bytes.old }
    ensures { take (to - from) bytes.new ≡ slice_range bytes.old from to }
{
    if 0 < from {
        bytes.copy_within(from..to, 0);
    }
}

/// Reads at most `most` bytes into those from `at` on.
fn read_behind<S: Source>(
    source: &mut S,
    bytes: &mut [u8],
    at: usize,
    most: usize,
) -> Result<usize, Failed>
    requires room { at < length bytes.old }
    requires some { 0 < most }
    ensures front { take at bytes.new ≡ take at bytes.old }
    ensures bound { IfOk result (λ count. at + count ≤ length bytes.old) }
    ensures most { IfOk result (λ count. count ≤ most) }
    ensures gave { IfOk result (λ n. Gave S.left S.taken source.old source.new (slice_range bytes.new at (at + n))) }
    ensures end { IfOk result (λ count. count ≡ 0 → IsAtEnd (S.left source.new)) }
    ensures err { OnErr result (Keeps (S.left source.old) (S.left source.new)) }
    ensures err_told { OnErr result (Keeps (S.taken source.old) (S.taken source.new)) }
    ensures kept { OnOk result (S.faults source.new ≡ S.faults source.old) }
    ensures failed { OnErr result (Rose (S.faults source.old) (S.faults source.new)) }
    ensures later { S.faults source.old ≤ S.faults source.new }
{
    let end = at + most.min(bytes.len() - at);
    source.read(&mut bytes[at..end])
}

impl Buffer {
    /// An empty buffer with room for the longest line.
    pub fn new(alloc: Global) -> Result<Buffer, AllocError>
        ensures { IfOk result (λ buffer. buffer ≡ record { line = []; begun = []; rest = [] }) }
    {
        let bytes = Vec::from_elem(alloc, 0, LINE_MAX)?;
        Ok(Buffer {
            bytes,
            line_from: 0,
            line_to: 0,
            from: 0,
            looked: 0,
            to: 0,
        })
    }

    /// The line cut last.
    pub fn line(&self) -> &[u8]
        ensures { result.now ≡ self.now.line }
    {
        &self.bytes[self.line_from..self.line_to]
    }

    /// Whether what was looked at fills the buffer.
    pub fn is_full(&self) -> bool
        ensures { IsTrue result ↔ (2 ^ 20 ≤ length self.now.begun) }
    {
        self.looked - self.from == LINE_MAX
    }

    /// Whether nothing was looked at.
    pub fn is_bare(&self) -> bool
        ensures { IsTrue result ↔ (self.now.begun ≡ []) }
    {
        self.from == self.looked
    }

    /// Whether there is a newline not looked at yet, so that `cut` cuts a line.
    pub fn has_newline(&self) -> bool
        ensures { IsTrue result ↔ HasNewline self.now.rest }
    {
        match memchr(b'\n', &self.bytes[self.looked..self.to]) {
            Some(_) => true,
            None => false,
        }
    }

    /// Cuts the line up to the first newline not looked at yet. Where there is none, all was looked at.
    pub fn cut(&mut self) -> bool
        ensures { MatchBool result (Cut self.old self.new) (Looked self.old self.new) }
    {
        match memchr(b'\n', &self.bytes[self.looked..self.to]) {
            Some(at) => {
                self.line_from = self.from;
                self.line_to = self.looked + at;
                self.from = self.looked + at + 1;
                self.looked = self.from;
                true
            }
            None => {
                self.looked = self.to;
                false
            }
        }
    }

    /// Cuts what was looked at, as a line.
    pub fn cut_begun(&mut self)
        ensures value { self.new ≡ record { line = self.old.begun; begun = []; rest = self.old.rest } }
        ensures no_newline { NoNewline self.old.begun }
        ensures fits { length self.old.begun ≤ 2 ^ 20 }
    {
        self.line_from = self.from;
        self.line_to = self.looked;
        self.from = self.looked;
    }

    /// Reads at most `most` bytes behind what was looked at.
    pub fn fill<S: Source>(&mut self, source: &mut S, most: usize) -> Result<usize, Failed>
        requires looked { self.old.rest ≡ [] }
        requires room { length self.old.begun < 2 ^ 20 }
        requires some { 0 < most }
        ensures begun { self.new.begun ≡ self.old.begun }
        ensures gave { Gave S.left S.taken source.old source.new self.new.rest }
        ensures count { IfOk result (λ count. length self.new.rest ≡ count) }
        ensures most { length self.new.rest ≤ most }
        ensures end { IfOk result (λ count. count ≡ 0 → IsAtEnd (S.left source.new)) }
        ensures err { OnErr result (self.new.rest ≡ []) }
        ensures kept { OnOk result (S.faults source.new ≡ S.faults source.old) }
        ensures failed { OnErr result (Rose (S.faults source.old) (S.faults source.new)) }
        ensures later { S.faults source.old ≤ S.faults source.new }
    {
        let count = self.looked - self.from;
        move_to_front(&mut self.bytes, self.from, self.looked);
        self.from = 0;
        self.looked = count;
        self.to = count;
        self.to += read_behind(source, &mut self.bytes, count, most)?;
        Ok(self.to - count)
    }
}
