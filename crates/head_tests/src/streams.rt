mod links;
mod origins;

use edge_base::{Memory, Text};
use edge_outside::{
    Failed, LineReader, LineStep, Numbers, Sink, Source, StderrSink, StdinSource, StdoutSink,
    TextSink, TextSource, write_all,
};
use std::alloc::Global;
use std::io;
use std::io::{Read, Write};
use std::process::Abort;
use std::test::Fail;

/// What a reader answers, and the line that it gives.
type Step = (LineStep, &'static str);

/// A stream whose calls all fail.
#[derive(Drop)]
struct Broken;

impl Read for Broken {
    fn read(&mut self, _: &mut [u8]) -> io::Result<usize> {
        Err(io::Error::from(io::ErrorKind::BrokenPipe))
    }
}

impl Write for Broken {
    fn write(&mut self, _: &[u8]) -> io::Result<usize> {
        Err(io::Error::from(io::ErrorKind::BrokenPipe))
    }

    fn flush(&mut self) -> io::Result<()> {
        Ok(())
    }
}

fn source(
    alloc: Global,
    bytes: &[u8],
    piece: usize,
    fail_at: &[u64],
) -> Result<TextSource, Memory> {
    let bytes = Text::of(alloc, bytes)?;
    let fail_at = Numbers::from_slice(alloc, fail_at)?;
    Ok(TextSource::new(bytes, piece.max(1), fail_at))
}

fn gives_steps(
    rt: &impl Abort,
    alloc: Global,
    bytes: &str,
    piece: usize,
    fail_at: &[u64],
    steps: &[Step],
) -> Result<(), Memory> {
    let mut source = source(alloc, bytes.as_bytes(), piece, fail_at)?;
    let mut reader = LineReader::new(alloc)?;
    for (step, line) in steps {
        assert_eq!(rt; reader.next(&mut source), *step, "in {bytes:?}");
        if *step == LineStep::Line {
            assert_eq!(rt; reader.line(), line.as_bytes());
        }
    }
    Ok(())
}

#[test]
fn lines_end_at_newlines_and_at_the_end(rt: HostRuntime) -> Result<(), Fail> {
    let (line, end) = (LineStep::Line, LineStep::End);
    let steps = [(line, "a"), (line, ""), (line, "bc"), (end, ""), (end, "")];
    for piece in [1, 2, 4096] {
        gives_steps(&rt, rt.alloc(), "", piece, &[], &[(end, "")])?;
        gives_steps(&rt, rt.alloc(), "\n", piece, &[], &[(line, ""), (end, "")])?;
        gives_steps(&rt, rt.alloc(), "a\n\nbc", piece, &[], &steps)?;
        gives_steps(&rt, rt.alloc(), "a\n\nbc\n", piece, &[], &steps)?;
    }
    Ok(())
}

#[test]
fn a_failed_read_loses_nothing(rt: HostRuntime) -> Result<(), Fail> {
    let (line, end, fault) = (LineStep::Line, LineStep::End, LineStep::Fault);
    let first = [(fault, ""), (line, "ab"), (line, "c"), (end, "")];
    let later = [
        (line, "ab"),
        (fault, ""),
        (line, "c"),
        (fault, ""),
        (end, ""),
    ];
    gives_steps(&rt, rt.alloc(), "ab\nc", 1, &[0], &first)?;
    gives_steps(&rt, rt.alloc(), "ab\nc", 1, &[1], &first)?;
    gives_steps(&rt, rt.alloc(), "ab\nc", 1, &[4, 6], &later)?;
    Ok(())
}

/// The first answers over a line of this length and what follows it.
fn first_steps(alloc: Global, len: usize, tail: &[u8]) -> Result<[LineStep; 3], Memory> {
    let mut bytes = Vec::from_elem(alloc, b'x', len)?;
    bytes.extend_from_slice(tail)?;
    let mut source = source(alloc, bytes.as_slice(), 65_536, &[])?;
    let mut reader = LineReader::new(alloc)?;
    let first = reader.next(&mut source);
    let second = reader.next(&mut source);
    Ok([first, second, reader.next(&mut source)])
}

#[test]
fn a_line_is_long_above_1048576_bytes(rt: HostRuntime) -> Result<(), Fail> {
    let (line, long, end) = (LineStep::Line, LineStep::Long, LineStep::End);
    for (len, first) in [(1_048_576, line), (1_048_577, long)] {
        assert_eq!(rt; first_steps(rt.alloc(), len, b"")?, [first, end, end]);
        assert_eq!(rt; first_steps(rt.alloc(), len, b"\n")?, [first, end, end]);
        assert_eq!(rt; first_steps(rt.alloc(), len, b"\ny")?, [first, line, end]);
    }
    Ok(())
}

#[test]
fn a_sink_takes_its_room_and_fails_at_its_numbers(rt: HostRuntime) -> Result<(), Fail> {
    let fail_at = Numbers::from_slice(rt.alloc(), &[1])?;
    let mut sink = TextSink::new(rt.alloc(), 5, 3, fail_at)?;
    assert_eq!(rt; write_all(&mut sink, b"abcdef"), Err(Failed));
    assert_eq!(rt; sink.bytes(), b"abc".as_slice());
    assert_eq!(rt; write_all(&mut sink, b"d"), Ok(()));
    assert_eq!(rt; write_all(&mut sink, b"ef"), Err(Failed));
    assert_eq!(rt; sink.bytes(), b"abcde".as_slice());
    assert_eq!(rt; sink.write(b""), Ok(0));
    Ok(())
}

#[test]
fn adapters_fail_where_their_streams_do(rt: HostRuntime) -> Result<(), Fail> {
    let mut into = [0; 8];
    let mut input = StdinSource::new(b"ab".as_slice());
    assert_eq!(rt; input.read(&mut into), Ok(2));
    assert_eq!(rt; into[..2], b"ab"[..]);
    assert_eq!(rt; input.read(&mut into), Ok(0));
    assert_eq!(rt; StdinSource::new(Broken).read(&mut into), Err(Failed));
    assert_eq!(rt; StdoutSink::new(Broken).write(b"ab"), Err(Failed));
    assert_eq!(rt; StderrSink::new(Broken).write(b"ab"), Err(Failed));
    let mut room = [0; 1];
    let mut short = StdoutSink::new(room.as_mut_slice());
    assert_eq!(rt; short.write(b"ab"), Ok(1));
    assert_eq!(rt; short.write(b"b"), Err(Failed));
    assert_eq!(rt; short.write(b""), Ok(0));
    Ok(())
}

/// Whether the adapter of standard output gets this many bytes, given in one piece, to a writer in memory.
fn is_written_whole(alloc: Global, len: usize) -> Result<bool, Memory> {
    let mut bytes = Vec::from_elem(alloc, b'x', len)?;
    bytes.extend_from_slice(b"yz")?;
    let mut written = Vec::from_elem(alloc, 0, len + 2)?;
    let answer = write_all(
        &mut StdoutSink::new(written.as_mut_slice()),
        bytes.as_slice(),
    );
    Ok(answer == Ok(()) && written == bytes)
}

#[test]
fn a_piece_above_65536_bytes_is_written_whole(rt: HostRuntime) -> Result<(), Fail> {
    for len in [65_534, 65_535, 200_000] {
        assert!(rt; is_written_whole(rt.alloc(), len)?);
    }
    Ok(())
}

#[test]
fn adapters_reach_the_standard_streams(rt: HostRuntime) {
    assert_eq!(rt; StdinSource::new(rt.stdin()).read(&mut []), Ok(0));
    assert_eq!(rt;
        write_all(&mut StdoutSink::new(rt.stdout()), b"to standard output\n"),
        Ok(())
    );
    assert_eq!(rt;
        write_all(&mut StderrSink::new(rt.stderr()), b"to standard error\n"),
        Ok(())
    );
}
