//! A large valid input, which is made from a number: its lines are written in batches.

ghost use Rattle.std.specs.Prelude.{◌≡◌, ◌≢◌, ◌≤◌, ◌+◌, ◌⊎◌, Err, OnOk, OnErr};
ghost use Rattle.std.specs.Io.KnownBytes.{Appends};
ghost use Rattle.edge_outside.specs.Faults.{Rose};
ghost use Rattle.trace_form.specs.Made.{making};
ghost use Rattle.edge_main.specs.Making.{made_lines, WroteFrontOf, MakesAs, AddsLines, making_status};

use crate::statuses::Status;
use edge_base::{Memory, TextBuilder};
use edge_outside::{Failed, Sink, write_all};
use std::alloc::Global;
use trace_form::{Made, made_line};

/// How many lines are gathered before they are written.
const BATCH: u64 = 1 << 9;

/// What ends the making before its last line.
#[derive(Clone, Copy, Debug, PartialEq, Eq)]
pub enum MakingFault {
    Write,
    Memory,
}

impl MakingFault {
    /// How a run ends that this has ended.
    fn status(self) -> Status
        ensures { result ≡ making_status self }
    {
        match self {
            MakingFault::Write => Status::WriteFault,
            MakingFault::Memory => Status::Memory,
        }
    }
}

impl From<Memory> for MakingFault {
    ghost use Rattle.edge_main.specs.declared.making.MakingFault.TheVariants as fault;

    ghost from_gives = { λ _ given. given ≡ fault.Memory };

    fn from(_refused: Memory) -> MakingFault {
        MakingFault::Memory
    }
}

impl From<Failed> for MakingFault {
    ghost use Rattle.edge_main.specs.declared.making.MakingFault.TheVariants as fault;

    ghost from_gives = { λ _ given. given ≡ fault.Write };

    fn from(_failed: Failed) -> MakingFault {
        MakingFault::Write
    }
}

/// Adds the lines from one index up to another, which is left out.
fn push_lines(
    alloc: Global,
    seed: u64,
    from: u64,
    to: u64,
    made: &mut Made,
    lines: &mut TextBuilder,
) -> Result<(), Memory>
    requires made { made.old ≡ making seed from }
    requires in_order { from ≤ to }
    requires within { to ≤ 10000001 }
    ensures lines { OnOk result (AddsLines seed from to lines.old lines.new) }
    ensures made { OnOk result (made.new ≡ making seed to) }
{
    for index in from..to {
        let line = made_line(alloc, seed, index, made)?;
        lines.push(line.bytes())?;
    }
    Ok(())
}

/// Writes the first lines, so many.
fn write_lines<K: Sink>(
    alloc: Global,
    seed: u64,
    count: u64,
    out: &mut K,
) -> Result<(), MakingFault>
    requires within { count ≤ 10000001 }
    ensures ok { OnOk result (Appends (K.got out.old) (K.got out.new) (made_lines seed count)) }
    ensures err { OnErr result (WroteFrontOf (made_lines seed count) (K.got out.old) (K.got out.new)) }
    ensures write { result ≡ Err MakingFault.Write → Rose (K.faults out.old) (K.faults out.new) }
    ensures kept { result ≢ Err MakingFault.Write → K.faults out.new ≡ K.faults out.old }
{
    let mut made = Made::new(seed);
    let mut lines = TextBuilder::new(alloc);
    let mut next = 0;
    while next < count {
        let to = count.min(next + BATCH);
        push_lines(alloc, seed, next, to, &mut made, &mut lines)?;
        write_all(out, lines.bytes())?;
        lines.clear();
        next = to;
    }
    Ok(())
}

/// Writes a deployment and so many requests.
pub fn make_trace<K: Sink>(alloc: Global, seed: u64, requests: u64, out: &mut K) -> Status
    requires within { requests ≤ 10000000 }
    ensures ended { MakesAs K.got seed requests result out.old out.new }
    ensures status { (result ≡ Status.Done) ⊎ ((result ≡ Status.WriteFault) ⊎ (result ≡ Status.Memory)) }
    ensures write { result ≡ Status.WriteFault → Rose (K.faults out.old) (K.faults out.new) }
    ensures out_kept { result ≢ Status.WriteFault → K.faults out.new ≡ K.faults out.old }
{
    match write_lines(alloc, seed, requests + 1, out) {
        Ok(()) => Status::Done,
        Err(fault) => fault.status(),
    }
}
