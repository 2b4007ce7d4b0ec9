ghost use Rattle.std.specs.Prelude.{◌≡◌, ◌↔◌, ◌≤◌, length, take, min, Some, Contains, IsErr, IfOk, OnOk, OnErr};
ghost use Rattle.std.specs.Io.{ReadsAtMost};
ghost use Rattle.std.specs.Io.KnownBytes.{ReadConsumes};
ghost use Rattle.edge_outside.specs.Told.{ReadAdds};
ghost use Rattle.edge_outside.specs.Faults.{Rose};
ghost use Rattle.edge_outside.specs.InMemory.{new_supply, read_count, after_read, after_failed_read};

use crate::failure::Failed;
use crate::source::Source;
use edge_base::Text;
use sqlite_items::Items;
use std::marker::Model;

/// A list of numbers of calls.
pub type Numbers = Items<u64>;

/// A source over a text, some of whose reads fail. Contracts see what was taken, what is left and the counts.
#[derive(Debug, Drop)]
pub struct TextSource {
    bytes: Text,
    at: usize,
    piece: usize,
    fail_at: Numbers,
    calls: u64,
    faults: u64,
}

impl Model for TextSource {
    ghost use Rattle.std.specs.Prelude.{◌≤◌, length, take, drop};
    ghost use Rattle.edge_outside.specs.InMemory.{Supply};

    ghost Value = { Supply };

    ghost view = { λ source. record {
      taken = take source.at source.bytes;
      left = drop source.at source.bytes;
      piece = source.piece;
      fail_at = source.fail_at;
      calls = source.calls;
      faults = source.faults;
    } };

    ghost invariant = { λ source. (source.at ≤ length source.bytes) × (1 ≤ source.piece) };
}

/// Copies the front of `from`, at most `most` bytes, to the front of `into`.
fn copy_front(from: &[u8], into: &mut [u8], most: usize) -> usize
    ensures count { result ≡ min (length into.old) (min most (length from.now)) }
    ensures copied { take result into.new ≡ take result from.now }
{
    let count = into.len().min(most.min(from.len()));
    into[..count].copy_from_slice(&from[..count]);
    count
}

impl TextSource {
    /// A source of these bytes that moves at most `piece` of them in a read, and whose reads of these numbers, from 0,
    /// fail. Takes no memory.
    pub fn new(bytes: Text, piece: usize, fail_at: Numbers) -> TextSource
        requires { 1 ≤ piece }
        ensures { result ≡ new_supply bytes piece fail_at }
    {
        TextSource {
            bytes,
            at: 0,
            piece,
            fail_at,
            calls: 0,
            faults: 0,
        }
    }

    /// What was taken. Takes no memory.
    pub fn taken(&self) -> &[u8]
        ensures { result.now ≡ self.now.taken }
    {
        &self.bytes.bytes()[..self.at]
    }

    /// What is left. Takes no memory.
    pub fn left(&self) -> &[u8]
        ensures { result.now ≡ self.now.left }
    {
        &self.bytes.bytes()[self.at..]
    }

    /// How many reads failed.
    pub fn faults(&self) -> u64
        ensures { result ≡ self.now.faults }
    {
        self.faults
    }
}

impl Source for TextSource {
    ghost use Rattle.edge_outside.specs.Shown.{no_sink};

    ghost taken = { λ source. Some source.taken };

    ghost left = { λ source. Some source.left };

    ghost beside = { λ _. no_sink };

    ghost faults = { λ source. source.faults };

    /// Fails exactly where its number is among those that fail. Takes no memory.
    fn read(&mut self, into: &mut [u8]) -> Result<usize, Failed>
        ensures bound { ReadsAtMost result into.new }
        ensures bytes { ReadConsumes (Some self.old.left) (Some self.new.left) result into.new }
        ensures told { ReadAdds (Some self.old.taken) (Some self.new.taken) result into.new }
        ensures kept { OnOk result (self.new.faults ≡ self.old.faults) }
        ensures failed { OnErr result (Rose self.old.faults self.new.faults) }
        ensures later { self.old.faults ≤ self.new.faults }
        ensures fails { IsErr result ↔ Contains self.old.fail_at self.old.calls }
        ensures count { IfOk result (λ count. count ≡ read_count self.old (length into.old)) }
        ensures ok { IfOk result (λ count. self.new ≡ after_read self.old count) }
        ensures err { OnErr result (self.new ≡ after_failed_read self.old) }
    {
        let call = self.calls;
        self.calls = self.calls.saturating_add(1);
        if self.fail_at.as_slice().contains(&call) {
            self.faults = self.faults.saturating_add(1);
            return Err(Failed);
        }
        let count = copy_front(&self.bytes.bytes()[self.at..], into, self.piece);
        self.at += count;
        Ok(count)
    }
}
