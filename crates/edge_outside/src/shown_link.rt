ghost use Rattle.std.specs.Prelude.{◌≡◌, IfOk};

use crate::memory_link::MemoryLink;
use edge_base::{Memory, Text};
use std::alloc::Global;
use std::marker::Model;

/// A copy of what a link in memory shows.
#[derive(Debug, Drop)]
pub(crate) struct ShownLink {
    taken: Text,
    left: Text,
    failed_reads: u64,
    got: Text,
    failed_writes: u64,
}

impl Model for ShownLink {
    ghost use Rattle.std.specs.Prelude.{Some};
    ghost use Rattle.edge_outside.specs.Shown.{LinkShown};

    ghost Value = { LinkShown };

    ghost view = { λ shown. record {
      source = record { taken = Some shown.taken; left = Some shown.left; faults = shown.failed_reads };
      sink = record { got = Some shown.got; faults = shown.failed_writes };
    } };
}

impl ShownLink {
    ghost use Rattle.edge_outside.specs.MemoryDoors.{link_shown};

    pub(crate) fn of(alloc: Global, link: &MemoryLink) -> Result<ShownLink, Memory>
        ensures { IfOk result (λ shown. shown ≡ link_shown link.now) }
    {
        Ok(ShownLink {
            taken: Text::of(alloc, link.source.taken())?,
            left: Text::of(alloc, link.source.left())?,
            failed_reads: link.source.faults(),
            got: Text::of(alloc, link.sink.bytes())?,
            failed_writes: link.sink.faults(),
        })
    }
}
