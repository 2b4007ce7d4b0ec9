ghost use Rattle.std.specs.Prelude.{◌≡◌, ◌≤◌, OnOk, OnErr};
ghost use Rattle.std.specs.Io.{ReadsAtMost};
ghost use Rattle.std.specs.Io.KnownBytes.{ReadConsumes};
ghost use Rattle.edge_outside.specs.Told.{ReadAdds};
ghost use Rattle.edge_outside.specs.Faults.{Rose};

use crate::failure::Failed;

/// What bytes are read from.
pub trait Source {
    ghost use Rattle.std.specs.Prelude.{ℕ, List, Option};
    ghost use Rattle.edge_outside.specs.Shown.{SinkShown};

    // The bytes read so far, where they are told.
    ghost taken: { Self → Option (List ℕ) };

    // The bytes that reads will give from here on, where they are told.
    ghost left: { Self → Option (List ℕ) };

    // What a sink shows that is part of the same value, as in a link; reads leave it.
    ghost beside: { Self → SinkShown };

    // How many reads failed.
    ghost faults: { Self → ℕ };

    /// Reads up to `into.len()` bytes. 0 into a piece that isn't empty is the end.
    fn read(&mut self, into: &mut [u8]) -> Result<usize, Failed>
        ensures bound { ReadsAtMost result into.new }
        ensures bytes { ReadConsumes (left self.old) (left self.new) result into.new }
        ensures told { ReadAdds (taken self.old) (taken self.new) result into.new }
        ensures stays { beside self.new ≡ beside self.old }
        ensures kept { OnOk result (faults self.new ≡ faults self.old) }
        ensures failed { OnErr result (Rose (faults self.old) (faults self.new)) }
        ensures later { faults self.old ≤ faults self.new };
}
