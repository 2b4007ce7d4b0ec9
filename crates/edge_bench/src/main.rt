//! The program `edge_bench`: it makes one call of a layer many times, so that the time of a call can be told from
//! outside (`bench/layers.sh`). It reads no clock.
#![tactic(auto)]

mod addresses;
mod arguments;
mod benches;
mod expressions;
mod faults;
mod heads;
mod lanes;
mod picks;
mod shared;
mod spread;
mod texts;
mod wildcards;

use benches::{Job, SMALL};
use faults::Fault;
use std::alloc::Global;
use std::hash::RandomState;
use std::process::ExitCode;
use std::random::RandomSource;
use std::rt::Env;
use std::sync::Wait;
use std::thread::Threads;
use std::{env, io};

/// The words behind the program's name.
fn words<R: Env + AllocGlobal>(rt: &R) -> io::Result<Vec<String>> {
    let mut words = Vec::new(rt.alloc());
    for word in env::args(rt)?.skip(1) {
        words.push(word)?;
    }
    Ok(words)
}

/// Does a job, and prints its line.
fn print_found<R: Print + Wait + Threads + Sync>(
    rt: &R,
    alloc: Global,
    hasher: RandomState,
    job: Job,
) -> Result<(), Fault> {
    let found = job.found(rt, alloc, hasher)?;
    let name = job.bench.name();
    let size = job.size;
    match println!(rt; "{name} {size} {found}") {
        Ok(()) => Ok(()),
        Err(_) => Err(Fault::Write),
    }
}

/// The job that the words ask for, or each at a small size where there are none.
fn run<R: Print + Wait + Threads + Sync>(
    rt: &R,
    alloc: Global,
    hasher: RandomState,
    words: &[String],
) -> Result<(), Fault> {
    if words.is_empty() {
        for job in SMALL {
            print_found(rt, alloc, hasher, job)?;
        }
        return Ok(());
    }
    match Job::of(words) {
        Some(job) => print_found(rt, alloc, hasher, job),
        None => Err(Fault::Usage),
    }
}

/// Reads the words, and does what they ask for.
fn start<R: Env + AllocGlobal + Print + RandomSource + Wait + Threads + Sync>(
    rt: &R,
) -> Result<(), Fault> {
    // Words that can't be read, as where one isn't UTF-8, are no job.
    let Ok(words) = words(rt) else {
        return Err(Fault::Usage);
    };
    let Ok(hasher) = RandomState::new(rt) else {
        return Err(Fault::Random);
    };
    run(rt, rt.alloc(), hasher, words.as_slice())
}

fn main(rt: HostRuntime) -> ExitCode {
    match start(&rt) {
        Ok(()) => ExitCode::SUCCESS,
        Err(fault) => {
            let _ = rt.eprintln(fault.said());
            ExitCode::from(fault.code())
        }
    }
}
