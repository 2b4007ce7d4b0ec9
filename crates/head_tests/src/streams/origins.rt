use edge_base::{Addr, Header, Headers, Memory, Moment, Reply, Request, Text};
use edge_outside::{
    AskFault, Clock, EchoOrigin, FailingOrigin, ListClock, Moments, Numbers, OpenTurnstile, Origin,
    Point, Turnstile,
};
use std::alloc::Global;
use std::process::Abort;
use std::sync::Wait;
use std::test::Fail;

fn moment(n: u64) -> Result<Moment, Memory> {
    Moment::of(n).ok_or(Memory)
}

fn headers(alloc: Global, given: &[(&[u8], &[u8])]) -> Result<Headers, Memory> {
    let mut headers = Headers::new(alloc);
    for (name, value) in given {
        headers.push(Header {
            name: Text::of(alloc, name)?,
            value: Text::of(alloc, value)?,
        })?;
    }
    Ok(headers)
}

fn request(alloc: Global, minor: bool, body: &[u8], headers: Headers) -> Result<Request, Memory> {
    Ok(Request {
        at: moment(7)?,
        from: Addr::V4(7),
        ssl: false,
        method: Text::of(alloc, b"GET")?,
        target: Text::of(alloc, b"/y?a=1")?,
        minor: u8::from(minor),
        headers,
        body: Text::of(alloc, body)?,
    })
}

fn ask<O: Origin>(origin: &mut O, alloc: Global, request: &Request) -> Result<Reply, AskFault> {
    origin.ask(alloc, request)
}

const CURL: [(&[u8], &[u8]); 3] = [
    (b"Host", b"a.example"),
    (b"User-Agent", b"curl/8.5.0"),
    (b"Accept", b"*/*"),
];

#[test]
fn an_echo_tells_the_request(rt: HostRuntime) -> Result<(), Fail> {
    let alloc = rt.alloc();
    let sent = request(alloc, true, b"", headers(alloc, &CURL)?)?;
    let reply = ask(&mut EchoOrigin::new(), alloc, &sent).expect(&rt, "a reply");
    assert_eq!(rt; reply.status, 200);
    assert_eq!(rt; reply.headers.len(), 1);
    let first = reply.headers.get(0).expect(&rt, "a header");
    assert_eq!(rt; first.name.bytes(), b"content-type".as_slice());
    assert_eq!(rt; first.value.bytes(), b"text/plain".as_slice());
    let text = b"GET /y?a=1 HTTP/1.1\nHost: a.example\nUser-Agent: curl/8.5.0\nAccept: */*\n";
    assert_eq!(rt; reply.body.bytes(), text.as_slice());
    assert_eq!(rt; reply.body.bytes().len(), 71);
    Ok(())
}

#[test]
fn an_origin_fails_at_its_numbers(rt: HostRuntime) -> Result<(), Fail> {
    let alloc = rt.alloc();
    let sent = request(alloc, false, b"body", Headers::new(alloc))?;
    let mut origin = FailingOrigin::new(Numbers::from_slice(alloc, &[0, 2])?);
    for fails in [true, false, true, false] {
        match ask(&mut origin, alloc, &sent) {
            Ok(reply) => {
                assert!(rt; !fails);
                assert_eq!(rt; reply.body.bytes(), b"GET /y?a=1 HTTP/1.0\nbody".as_slice());
            }
            Err(fault) => assert!(rt; fails && fault == AskFault::Failed),
        }
    }
    Ok(())
}

fn tells<C: Clock>(rt: &impl Abort, clock: &mut C, numbers: &[u64]) {
    for number in numbers {
        assert_eq!(rt; clock.now().get(), *number);
    }
}

#[test]
fn the_last_moment_repeats(rt: HostRuntime) -> Result<(), Fail> {
    let mut clock = ListClock::new(Moments::from_slice(rt.alloc(), &[moment(5)?, moment(3)?])?);
    tells(&rt, &mut clock, &[5, 3, 3, 3]);
    Ok(())
}

fn pass<T: Turnstile, R: Wait>(rt: &R, turnstile: &T) {
    for point in [Point::Took, Point::Answered] {
        turnstile.at(rt, 0, point);
    }
}

#[test]
fn an_open_turnstile_holds_nobody(rt: HostRuntime) {
    pass(&rt, &OpenTurnstile);
}
