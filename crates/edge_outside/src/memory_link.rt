ghost use Rattle.std.specs.Prelude.{◌≡◌, ◌↔◌, ◌⊎◌, ◌<◌, ◌≤◌, length, take, Some, Contains, IsErr, IfOk, OnOk, OnErr};
ghost use Rattle.std.specs.Io.{ReadsAtMost, WritesAtMost};
ghost use Rattle.std.specs.Io.KnownBytes.{ReadConsumes, WriteAppends};
ghost use Rattle.edge_outside.specs.Told.{ReadAdds};
ghost use Rattle.edge_outside.specs.Faults.{Rose};
ghost use Rattle.edge_outside.specs.InMemory.{read_count, after_read, after_failed_read, write_count, after_write, after_failed_write, source_shown, sink_shown};

use crate::failure::Failed;
use crate::link::Link;
use crate::sink::Sink;
use crate::source::Source;
use crate::text_sink::TextSink;
use crate::text_source::TextSource;
use sqlite_items::Items;

/// A link over a source and a sink in memory.
#[derive(Debug, Drop)]
pub struct MemoryLink {
    pub source: TextSource,
    pub sink: TextSink,
}

/// A list of links.
pub type MemoryLinks = Items<MemoryLink>;

impl MemoryLink {
    /// Takes no memory.
    pub fn new(source: TextSource, sink: TextSink) -> MemoryLink
        ensures { result ≡ record { source = source; sink = sink } }
    {
        MemoryLink { source, sink }
    }
}

impl Source for MemoryLink {
    ghost taken = { λ link. Some link.source.taken };

    ghost left = { λ link. Some link.source.left };

    ghost beside = { λ link. sink_shown link.sink };

    ghost faults = { λ link. link.source.faults };

    /// Reads from the source, and leaves the sink. Takes no memory.
    fn read(&mut self, into: &mut [u8]) -> Result<usize, Failed>
        ensures bound { ReadsAtMost result into.new }
        ensures bytes { ReadConsumes (Some self.old.source.left) (Some self.new.source.left) result into.new }
        ensures told { ReadAdds (Some self.old.source.taken) (Some self.new.source.taken) result into.new }
        ensures stays { sink_shown self.new.sink ≡ sink_shown self.old.sink }
        ensures kept { OnOk result (self.new.source.faults ≡ self.old.source.faults) }
        ensures failed { OnErr result (Rose self.old.source.faults self.new.source.faults) }
        ensures later { self.old.source.faults ≤ self.new.source.faults }
        ensures fails { IsErr result ↔ Contains self.old.source.fail_at self.old.source.calls }
        ensures count { IfOk result (λ count. count ≡ read_count self.old.source (length into.old)) }
        ensures ok { IfOk result (λ count. self.new.source ≡ after_read self.old.source count) }
        ensures err { OnErr result (self.new.source ≡ after_failed_read self.old.source) }
        ensures sink { self.new.sink ≡ self.old.sink }
    {
        self.source.read(into)
    }
}

impl Sink for MemoryLink {
    ghost got = { λ link. Some link.sink.got };

    ghost beside = { λ link. source_shown link.source };

    ghost faults = { λ link. link.sink.faults };

    /// Writes to the sink, and leaves the source. Takes no memory.
    fn write(&mut self, piece: &[u8]) -> Result<usize, Failed>
        ensures bound { WritesAtMost result piece.now }
        ensures bytes { WriteAppends (Some self.old.sink.got) (Some self.new.sink.got) result piece.now }
        ensures moves { IfOk result (λ count. 0 < length piece.now → 0 < count) }
        ensures stays { source_shown self.new.source ≡ source_shown self.old.source }
        ensures kept { OnOk result (self.new.sink.faults ≡ self.old.sink.faults) }
        ensures failed { OnErr result (Rose self.old.sink.faults self.new.sink.faults) }
        ensures later { self.old.sink.faults ≤ self.new.sink.faults }
        ensures fails { IsErr result ↔ (Contains self.old.sink.fail_at self.old.sink.calls
            ⊎ ((self.old.sink.room ≡ 0) × (0 < length piece.now))) }
        ensures count { IfOk result (λ count. count ≡ write_count self.old.sink (length piece.now)) }
        ensures ok { IfOk result (λ count. self.new.sink ≡ after_write self.old.sink (take count piece.now)) }
        ensures err { OnErr result (self.new.sink ≡ after_failed_write self.old.sink) }
        ensures source { self.new.source ≡ self.old.source }
    {
        self.sink.write(piece)
    }
}

impl Link for MemoryLink {
    ghost use Rattle.std.specs.Prelude.{refl};

    ghost shown = { λ link. record { source = source_shown link.source; sink = sink_shown link.sink } };

    ghost source_is_shown = { λ link. refl };

    ghost sink_is_shown = { λ link. refl };

    ghost reads_leave_its_sink = { λ link. refl };

    ghost writes_leave_its_source = { λ link. refl };
}
