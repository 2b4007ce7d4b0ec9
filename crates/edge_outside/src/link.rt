use crate::sink::Sink;
use crate::source::Source;

/// One connection. A read leaves its sink as it was, and a write its source.
pub trait Link: Source + Sink {
    ghost use Rattle.std.specs.Prelude.{◌≡◌};
    ghost use Rattle.edge_outside.specs.Shown.{LinkShown};

    // What its source and its sink show.
    ghost shown: { Self → LinkShown };

    ghost source_is_shown: { (link : Self) → (shown link).source
        ≡ record { taken = Self.taken link; left = Self.left link; faults = Self.Source.faults link } };

    ghost sink_is_shown: { (link : Self) → (shown link).sink ≡ record { got = Self.got link; faults = Self.Sink.faults link } };

    ghost reads_leave_its_sink: { (link : Self) → Self.Source.beside link ≡ (shown link).sink };

    ghost writes_leave_its_source: { (link : Self) → Self.Sink.beside link ≡ (shown link).source };
}
