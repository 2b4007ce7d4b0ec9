ghost use Rattle.std.specs.Prelude.{◌≡◌, ◌<◌, ◌≤◌, length, IfOk, OnOk, OnErr};
ghost use Rattle.std.specs.Io.{WritesAtMost};
ghost use Rattle.std.specs.Io.KnownBytes.{Appends, WriteAppends};
ghost use Rattle.edge_outside.specs.Faults.{Rose};
ghost use Rattle.edge_outside.specs.Told.{AppendsFront};

use crate::failure::Failed;

/// What bytes are written to.
pub trait Sink {
    ghost use Rattle.std.specs.Prelude.{ℕ, List, Option};
    ghost use Rattle.edge_outside.specs.Shown.{SourceShown};

    // The bytes written so far, where they are told.
    ghost got: { Self → Option (List ℕ) };

    // What a source shows that is part of the same value, as in a link; writes leave it.
    ghost beside: { Self → SourceShown };

    // How many writes failed.
    ghost faults: { Self → ℕ };

    /// Takes a front of the piece, at least a byte of one that isn't empty.
    fn write(&mut self, piece: &[u8]) -> Result<usize, Failed>
        ensures bound { WritesAtMost result piece.now }
        ensures bytes { WriteAppends (got self.old) (got self.new) result piece.now }
        ensures moves { IfOk result (λ count. 0 < length piece.now → 0 < count) }
        ensures stays { beside self.new ≡ beside self.old }
        ensures kept { OnOk result (faults self.new ≡ faults self.old) }
        ensures failed { OnErr result (Rose (faults self.old) (faults self.new)) }
        ensures later { faults self.old ≤ faults self.new };
}

/// Writes all of the bytes, or a front of them until a write fails.
pub fn write_all<K: Sink>(sink: &mut K, bytes: &[u8]) -> Result<(), Failed>
    ensures ok { OnOk result (Appends (K.got sink.old) (K.got sink.new) bytes.now) }
    ensures err { OnErr result (AppendsFront (K.got sink.old) (K.got sink.new) bytes.now) }
    ensures stays { K.beside sink.new ≡ K.beside sink.old }
    ensures kept { OnOk result (K.faults sink.new ≡ K.faults sink.old) }
    ensures failed { OnErr result (Rose (K.faults sink.old) (K.faults sink.new)) }
    ensures later { K.faults sink.old ≤ K.faults sink.new }
{
    let mut at = 0;
    while at < bytes.len() {
        at += sink.write(&bytes[at..])?;
    }
    Ok(())
}
