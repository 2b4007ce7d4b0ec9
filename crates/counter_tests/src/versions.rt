ghost use Rattle.std.specs.Prelude.{◌≡◌, IfOk, IfSome};
ghost use Rattle.std.specs.List.{All};
ghost use Rattle.version_store.specs.Books.{Opens};

use edge_base::Memory;
use ruleset_model::Config;
use std::alloc::Global;
use std::process::Abort;
use std::sync::Wait;
use std::test::Fail;
use std::thread::{Threads, join};
use version_store::{Deployer, VersionReader, Versions};

/// The last of the readers.
fn last(deployer: &Deployer, readers: &mut Vec<VersionReader>) -> Option<VersionReader>
    requires { All (Opens deployer.now) readers.old.items }
    ensures { IfSome result (λ reader. reader.book ≡ deployer.now.book) }
{
    readers.pop()
}

/// A store with one reader.
fn one_reader<R: Wait>(rt: &R, alloc: Global) -> Result<(Deployer, VersionReader), Memory>
    ensures { IfOk result (λ made. made.1.book ≡ made.0.book) }
{
    let (deployer, mut readers) = Versions::new(rt, alloc, Config::empty(alloc)?, 1)?;
    let Some(reader) = last(&deployer, &mut readers) else {
        return Err(Memory);
    };
    Ok((deployer, reader))
}

/// Publishes the empty configuration, whose number is then this.
fn deploys<R: Wait + Abort>(
    rt: &R,
    alloc: Global,
    deployer: &mut Deployer,
    wanted: u64,
) -> Result<(), Memory>
    ensures { deployer.new.book ≡ deployer.old.book }
{
    let config = Config::empty(alloc)?;
    let answer = deployer.deploy(rt, alloc, config);
    assert!(rt; answer == Ok(wanted));
    Ok(())
}

/// Picks the version of this number.
fn picks(
    rt: &impl Abort,
    reader: &mut VersionReader,
    wanted: u64,
    stopped: bool,
) -> Result<(), Memory>
    ensures { reader.new.book ≡ reader.old.book }
{
    let picked = reader.pick()?;
    assert!(rt; picked.number == wanted && picked.stopped == stopped);
    Ok(())
}

fn is_current(
    rt: &impl Abort,
    deployer: &Deployer,
    wanted: u64,
    stopped: bool,
) -> Result<(), Memory> {
    let picked = deployer.current()?;
    assert!(rt; picked.number == wanted && picked.stopped == stopped);
    Ok(())
}

#[test]
fn a_reader_that_learns_is_not_behind(rt: HostRuntime) -> Result<(), Fail> {
    let alloc = rt.alloc();
    let (mut deployer, mut reader) = one_reader(&rt, alloc)?;
    picks(&rt, &mut reader, 0, false)?;
    deploys(&rt, alloc, &mut deployer, 1)?;
    deploys(&rt, alloc, &mut deployer, 2)?;
    reader.learn(&deployer.tell());
    picks(&rt, &mut reader, 2, false)?;
    deployer.end(&rt);
    Ok(())
}

#[test]
fn a_reader_picks_what_nobody_told_it_of(rt: HostRuntime) -> Result<(), Fail> {
    let alloc = rt.alloc();
    let (mut deployer, mut reader) = one_reader(&rt, alloc)?;
    is_current(&rt, &deployer, 0, false)?;
    deploys(&rt, alloc, &mut deployer, 1)?;
    picks(&rt, &mut reader, 1, false)?;
    deployer.stop(&rt)?;
    picks(&rt, &mut reader, 1, true)?;
    deploys(&rt, alloc, &mut deployer, 2)?;
    picks(&rt, &mut reader, 2, true)?;
    is_current(&rt, &deployer, 2, true)?;
    deployer.end(&rt);
    Ok(())
}

#[test]
fn picks_are_refused_once_the_deployer_has_ended(rt: HostRuntime) -> Result<(), Fail> {
    let (deployer, mut reader) = one_reader(&rt, rt.alloc())?;
    deployer.end(&rt);
    assert!(rt; reader.pick().is_err());
    Ok(())
}

const DEPLOYMENTS: u64 = 100;

/// Picks so often that most deployments come between, and never a version before one that was picked.
fn picks_on(rt: &impl Abort, reader: &mut VersionReader) -> u64 {
    let mut latest = 0;
    for _ in 0..2000 {
        if let Ok(picked) = reader.pick() {
            assert!(rt; picked.number >= latest && !picked.stopped);
            latest = picked.number;
        }
    }
    latest
}

/// Each of the two readers picks in a thread of its own.
fn pick_in_two_threads<R: Abort + Threads + Sync>(
    rt: &R,
    first: &mut VersionReader,
    second: &mut VersionReader,
) {
    join(rt, || picks_on(rt, first), || picks_on(rt, second));
}

fn deploys_on<R: Wait + Abort>(rt: &R, alloc: Global, deployer: &mut Deployer) -> bool {
    for number in 0..DEPLOYMENTS {
        if deploys(rt, alloc, deployer, number + 1).is_err() {
            return false;
        }
    }
    true
}

#[test]
fn picks_of_two_threads_never_go_back(rt: HostRuntime) -> Result<(), Fail> {
    let alloc = rt.alloc();
    let (mut deployer, mut readers) = Versions::new(&rt, alloc, Config::empty(alloc)?, 2)?;
    let (Some(mut first), Some(mut second)) = (readers.pop(), readers.pop()) else {
        return Err(Memory.into());
    };
    let (all_deployed, _) = join(
        &rt,
        || deploys_on(&rt, alloc, &mut deployer),
        || pick_in_two_threads(&rt, &mut first, &mut second),
    );
    assert!(rt; all_deployed);
    picks(&rt, &mut first, DEPLOYMENTS, false)?;
    picks(&rt, &mut second, DEPLOYMENTS, false)?;
    deployer.end(&rt);
    Ok(())
}
