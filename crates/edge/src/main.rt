//! The program `edge`: it makes the real streams and hashers, and calls one top call.
#![tactic(auto)]

ghost use Rattle.std.specs.Prelude.{◌≡◌, vec_len};

#[cfg(test)]
mod tests;

use edge_base::Memory;
use edge_main::{Status, edge_quiet, edge_wait, lane_hashers, needs_wait};
use edge_outside::{
    EchoOrigin, ListClock, MemoryDoor, OpenTurnstile, Sink, Source, StderrSink, StdinSource,
    StdoutSink, write_all,
};
use std::alloc::Global;
use std::env;
use std::hash::RandomState;
use std::io::ErrorKind;
use std::process::ExitCode;
use std::random::RandomSource;
use std::rt::Env;
use std::sync::Wait;
use std::thread::Threads;

/// The words behind the program's name. Words that aren't UTF-8 are no command, as no words are.
fn words<R: Env + AllocGlobal>(rt: &R) -> Result<Vec<String>, Memory> {
    let mut words = Vec::new(rt.alloc());
    match env::args(rt) {
        Ok(all) => {
            for word in all.skip(1) {
                words.push(word)?;
            }
            Ok(words)
        }
        Err(error) if error.kind() == ErrorKind::OutOfMemory => Err(Memory),
        Err(_) => Ok(words),
    }
}

/// The same words, borrowed.
fn borrowed(alloc: Global, words: &[String]) -> Result<Vec<&str>, Memory> {
    let mut borrowed = Vec::new(alloc);
    for word in words {
        borrowed.push(word.as_str())?;
    }
    Ok(borrowed)
}

/// Runs a command that waits. `replay` by several workers opens no door, so it is handed none, and no origin and no clock.
fn run_waiting<R: Threads + Wait + Sync, S: Source, K: Sink, E: Sink>(
    rt: &R,
    alloc: Global,
    words: &[&str],
    input: &mut S,
    out: &mut K,
    said: &mut E,
    hashers: Vec<RandomState>,
) -> Status
    requires { vec_len hashers ≡ 64 }
{
    let mut doors: Vec<MemoryDoor> = Vec::new(alloc);
    let origins: Vec<EchoOrigin> = Vec::new(alloc);
    let clocks: Vec<ListClock> = Vec::new(alloc);
    edge_wait(
        rt,
        alloc,
        words,
        input,
        out,
        said,
        &mut doors,
        &mut None,
        origins,
        clocks,
        &OpenTurnstile,
        hashers,
    )
}

/// Runs the command that the words name. Random keys that can't be had are answered as memory that can't.
fn run<R: Env + RandomSource + AllocGlobal + Threads + Wait + Sync, S: Source, K: Sink, E: Sink>(
    rt: &R,
    input: &mut S,
    out: &mut K,
    said: &mut E,
) -> Result<Status, Memory> {
    let alloc = rt.alloc();
    let words = words(rt)?;
    let words = borrowed(alloc, words.as_slice())?;
    let Ok(hashers) = lane_hashers(rt, alloc) else {
        return Err(Memory);
    };
    let words = words.as_slice();
    if needs_wait(words) {
        Ok(run_waiting(rt, alloc, words, input, out, said, hashers))
    } else {
        Ok(edge_quiet(alloc, words, input, out, said, hashers))
    }
}

fn main(rt: HostRuntime) -> ExitCode {
    let mut input = StdinSource::new(rt.stdin());
    let mut out = StdoutSink::new(rt.stdout());
    let mut said = StderrSink::new(rt.stderr());
    let status = match run(&rt, &mut input, &mut out, &mut said) {
        Ok(status) => status,
        Err(Memory) => {
            let _ = write_all(&mut said, Status::Memory.said());
            Status::Memory
        }
    };
    ExitCode::from(status.code())
}
