ghost use Rattle.std.specs.Prelude.{◌≡◌, ◌≤◌};

use super::source;
use edge_base::{Addr, Memory};
use edge_outside::{
    Failed, Link, Listener, MemoryDoor, MemoryLink, MemoryLinks, Numbers, Sink, Source, TextSink,
    write_all,
};
use std::alloc::Global;
use std::process::Abort;
use std::sync::Wait;
use std::test::Fail;

/// A link that gives these bytes, two in a read, and takes five, three in a write.
fn link(alloc: Global, bytes: &[u8], fail_at: &[u64]) -> Result<MemoryLink, Memory> {
    let source = source(alloc, bytes, 2, fail_at)?;
    let sink = TextSink::new(alloc, 5, 3, Numbers::from_slice(alloc, fail_at)?)?;
    Ok(MemoryLink::new(source, sink))
}

/// Writes to a link; its source stays as it was.
fn send<L: Link>(link: &mut L, bytes: &[u8]) -> Result<(), Failed>
    ensures { (L.shown link.new).source ≡ (L.shown link.old).source }
{
    write_all(link, bytes)
}

/// Reads from a link; its sink stays as it was.
fn receive<L: Link>(link: &mut L, into: &mut [u8]) -> Result<usize, Failed>
    ensures { (L.shown link.new).sink ≡ (L.shown link.old).sink }
{
    link.read(into)
}

#[test]
fn a_link_reads_and_writes_apart(rt: HostRuntime) -> Result<(), Fail> {
    let mut link = link(rt.alloc(), b"abc", &[1])?;
    let mut into = [0; 8];
    assert_eq!(rt; receive(&mut link, &mut into), Ok(2));
    assert_eq!(rt; link.write(b"vwxyz"), Ok(3));
    assert_eq!(rt; receive(&mut link, &mut into), Err(Failed));
    assert_eq!(rt; send(&mut link, b"u"), Err(Failed));
    assert_eq!(rt; link.source.taken(), b"ab".as_slice());
    assert_eq!(rt; link.source.left(), b"c".as_slice());
    assert_eq!(rt; send(&mut link, b"stu"), Err(Failed));
    assert_eq!(rt; link.sink.bytes(), b"vwxst".as_slice());
    assert_eq!(rt; link.source.faults(), 1);
    assert_eq!(rt; link.sink.faults(), 2);
    Ok(())
}

/// Writes to the next link and gives it back, if there is one.
fn serve<L: Listener, R: Wait>(rt: &R, door: &mut L, bytes: &[u8]) -> Result<bool, Failed>
    requires { L.returned door.old ≤ L.given door.old }
    ensures { L.returned door.new ≤ L.given door.new }
{
    match door.accept(rt)? {
        Some((mut link, _, _)) => {
            let sent = write_all(&mut link, bytes);
            door.done(link);
            sent?;
            Ok(true)
        }
        None => Ok(false),
    }
}

fn door(alloc: Global, texts: &[&[u8]], fail_at: &[u64]) -> Result<MemoryDoor, Memory> {
    let mut links = MemoryLinks::new(alloc);
    for text in texts {
        links.push(link(alloc, text, &[])?)?;
    }
    MemoryDoor::new(alloc, links, Numbers::from_slice(alloc, fail_at)?)
}

/// Each link that was taken back has these bytes in its sink.
fn got(rt: &impl Abort, door: &MemoryDoor, texts: &[&[u8]]) {
    assert_eq!(rt; door.returned().len(), texts.len());
    for (link, text) in door.returned().iter().zip(texts) {
        assert_eq!(rt; link.sink.bytes(), *text);
    }
}

#[test]
fn a_door_gives_its_links_in_order_and_fails_at_its_numbers(rt: HostRuntime) -> Result<(), Fail> {
    let mut door = door(rt.alloc(), &[b"a", b"b"], &[1, 4])?;
    assert_eq!(rt; serve(&rt, &mut door, b"1"), Ok(true));
    assert_eq!(rt; serve(&rt, &mut door, b"2"), Err(Failed));
    assert_eq!(rt; serve(&rt, &mut door, b"345678"), Err(Failed));
    assert_eq!(rt; serve(&rt, &mut door, b"9"), Ok(false));
    assert_eq!(rt; serve(&rt, &mut door, b"9"), Err(Failed));
    assert_eq!(rt; serve(&rt, &mut door, b"9"), Ok(false));
    got(&rt, &door, &[b"1", b"34567"]);
    Ok(())
}

#[test]
fn links_are_taken_back_in_any_order(rt: HostRuntime) -> Result<(), Fail> {
    let mut door = door(rt.alloc(), &[b"a", b"b"], &[])?;
    let (mut first, from, ssl) = door.accept(&rt)?.expect(&rt, "a link");
    assert!(rt; from == Addr::V4(0) && !ssl);
    let (second, _, _) = door.accept(&rt)?.expect(&rt, "another link");
    assert_eq!(rt; write_all(&mut first, b"1"), Ok(()));
    door.done(second);
    door.done(first);
    got(&rt, &door, &[b"", b"1"]);
    Ok(())
}
