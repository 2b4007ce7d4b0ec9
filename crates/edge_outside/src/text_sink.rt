ghost use Rattle.std.specs.Prelude.{◌≡◌, ◌↔◌, ◌<◌, ◌≤◌, length, take, Some, IsErr, IfOk, OnOk, OnErr};
ghost use Rattle.std.specs.Io.{WritesAtMost};
ghost use Rattle.std.specs.Io.KnownBytes.{WriteAppends};
ghost use Rattle.edge_outside.specs.Faults.{Rose};
ghost use Rattle.edge_outside.specs.InMemory.{new_store, FailsToWrite, write_count, after_write, after_failed_write};

use crate::failure::Failed;
use crate::sink::Sink;
use crate::text_source::Numbers;
use edge_base::Memory;
use std::alloc::Global;
use std::marker::Model;

/// A sink that keeps what it got, up to its room, and some of whose writes fail. Contracts see what it got, the room
/// that is left and the counts.
#[derive(Debug, Drop)]
pub struct TextSink {
    bytes: Vec<u8>,
    // What is left of the room, which was reserved.
    room: usize,
    piece: usize,
    fail_at: Numbers,
    calls: u64,
    faults: u64,
}

impl Model for TextSink {
    ghost use Rattle.std.specs.Prelude.{◌+◌, ◌≤◌, vec_len, vec_capacity};
    ghost use Rattle.edge_outside.specs.InMemory.{Store};

    ghost Value = { Store };

    ghost view = { λ sink. record {
      got = sink.bytes.items;
      room = sink.room;
      piece = sink.piece;
      fail_at = sink.fail_at;
      calls = sink.calls;
      faults = sink.faults;
    } };

    ghost invariant = { λ sink. (vec_len sink.bytes + sink.room ≤ vec_capacity sink.bytes) × (1 ≤ sink.piece) };
}

impl TextSink {
    /// A sink with room for this many bytes, that takes at most `piece` of them in a write, and whose writes of these
    /// numbers, from 0, fail.
    pub fn new(
        alloc: Global,
        room: usize,
        piece: usize,
        fail_at: Numbers,
    ) -> Result<TextSink, Memory>
        requires { 1 ≤ piece }
        ensures { IfOk result (λ sink. sink ≡ new_store room piece fail_at) }
    {
        let bytes = Vec::with_capacity(alloc, room)?;
        Ok(TextSink {
            bytes,
            room,
            piece,
            fail_at,
            calls: 0,
            faults: 0,
        })
    }

    /// What it got. Takes no memory.
    pub fn bytes(&self) -> &[u8]
        ensures { result.now ≡ self.now.got }
    {
        self.bytes.as_slice()
    }

    /// How many writes failed.
    pub fn faults(&self) -> u64
        ensures { result ≡ self.now.faults }
    {
        self.faults
    }
}

impl Sink for TextSink {
    ghost use Rattle.edge_outside.specs.Shown.{no_source};

    ghost got = { λ sink. Some sink.got };

    ghost beside = { λ _. no_source };

    ghost faults = { λ sink. sink.faults };

    /// Fails exactly where its number is among those that fail, or where no room is left for a piece that isn't empty.
    /// Takes no memory.
    fn write(&mut self, piece: &[u8]) -> Result<usize, Failed>
        ensures bound { WritesAtMost result piece.now }
        ensures bytes { WriteAppends (Some self.old.got) (Some self.new.got) result piece.now }
        ensures moves { IfOk result (λ count. 0 < length piece.now → 0 < count) }
        ensures kept { OnOk result (self.new.faults ≡ self.old.faults) }
        ensures failed { OnErr result (Rose self.old.faults self.new.faults) }
        ensures later { self.old.faults ≤ self.new.faults }
        ensures fails { IsErr result ↔ FailsToWrite self.old (length piece.now) }
        ensures count { IfOk result (λ count. count ≡ write_count self.old (length piece.now)) }
        ensures ok { IfOk result (λ count. self.new ≡ after_write self.old (take count piece.now)) }
        ensures err { OnErr result (self.new ≡ after_failed_write self.old) }
    {
        let call = self.calls;
        self.calls = self.calls.saturating_add(1);
        if self.fail_at.as_slice().contains(&call) || (self.room == 0 && !piece.is_empty()) {
            self.faults = self.faults.saturating_add(1);
            return Err(Failed);
        }
        let count = piece.len().min(self.piece.min(self.room));
        if self.bytes.extend_from_slice(&piece[..count]).is_err() {
            unreachable!();
        }
        self.room -= count;
        Ok(count)
    }
}
