ghost use Rattle.std.specs.Prelude.{◌≡◌, ◌<◌, ◌≤◌, length, IfOk, OnOk, OnErr};
ghost use Rattle.std.specs.Io.{WritesAtMost};
ghost use Rattle.std.specs.Io.KnownBytes.{WriteAppends};
ghost use Rattle.edge_outside.specs.Faults.{Rose};

use crate::failure::Failed;
use crate::sink::Sink;
use crate::source::Source;
use std::io::{Read, Write};

/// A source over standard input, or over any reader. A read fails where the reader's does.
#[derive(Drop)]
pub struct StdinSource<R: Read + Drop> {
    inner: R,
    faults: u64,
}

/// A sink over standard output, or over any writer. A write fails where the writer's does, or where it takes none of
/// a piece.
#[derive(Drop)]
pub struct StdoutSink<W: Write + Drop> {
    inner: W,
    faults: u64,
}

/// A sink over standard error, as `StdoutSink`.
#[derive(Drop)]
pub struct StderrSink<W: Write + Drop> {
    inner: W,
    faults: u64,
}

/// One write. None taken of a piece that isn't empty is a fault.
fn write_counted<W: Write>(inner: &mut W, faults: &mut u64, piece: &[u8]) -> Result<usize, Failed>
    ensures bound { WritesAtMost result piece.now }
    ensures bytes { WriteAppends (W.contents inner.old) (W.contents inner.new) result piece.now }
    ensures moves { IfOk result (λ count. 0 < length piece.now → 0 < count) }
    ensures kept { OnOk result (faults.new ≡ faults.old) }
    ensures failed { OnErr result (Rose faults.old faults.new) }
    ensures later { faults.old ≤ faults.new }
{
    match inner.write(piece) {
        Ok(count) if 0 < count || piece.is_empty() => Ok(count),
        _ => {
            *faults = faults.saturating_add(1);
            Err(Failed)
        }
    }
}

impl<R: Read + Drop> StdinSource<R> {
    pub fn new(inner: R) -> StdinSource<R>
        ensures inner { result.inner ≡ inner }
        ensures faults { result.faults ≡ 0 }
    {
        StdinSource { inner, faults: 0 }
    }
}

impl<R: Read + Drop> Source for StdinSource<R> {
    ghost use Rattle.std.specs.Prelude.{None};
    ghost use Rattle.edge_outside.specs.Shown.{no_sink};

    ghost taken = { λ _. None };

    ghost left = { λ source. R.remaining source.inner };

    ghost beside = { λ _. no_sink };

    ghost faults = { λ source. source.faults };

    fn read(&mut self, into: &mut [u8]) -> Result<usize, Failed> {
        match self.inner.read(into) {
            Ok(count) => Ok(count),
            Err(_) => {
                self.faults = self.faults.saturating_add(1);
                Err(Failed)
            }
        }
    }
}

impl<W: Write + Drop> StdoutSink<W> {
    pub fn new(inner: W) -> StdoutSink<W>
        ensures inner { result.inner ≡ inner }
        ensures faults { result.faults ≡ 0 }
    {
        StdoutSink { inner, faults: 0 }
    }
}

impl<W: Write + Drop> Sink for StdoutSink<W> {
    ghost use Rattle.edge_outside.specs.Shown.{no_source};

    ghost got = { λ sink. W.contents sink.inner };

    ghost beside = { λ _. no_source };

    ghost faults = { λ sink. sink.faults };

    fn write(&mut self, piece: &[u8]) -> Result<usize, Failed> {
        write_counted(&mut self.inner, &mut self.faults, piece)
    }
}

impl<W: Write + Drop> StderrSink<W> {
    pub fn new(inner: W) -> StderrSink<W>
        ensures inner { result.inner ≡ inner }
        ensures faults { result.faults ≡ 0 }
    {
        StderrSink { inner, faults: 0 }
    }
}

impl<W: Write + Drop> Sink for StderrSink<W> {
    ghost use Rattle.edge_outside.specs.Shown.{no_source};

    ghost got = { λ sink. W.contents sink.inner };

    ghost beside = { λ _. no_source };

    ghost faults = { λ sink. sink.faults };

    fn write(&mut self, piece: &[u8]) -> Result<usize, Failed> {
        write_counted(&mut self.inner, &mut self.faults, piece)
    }
}
