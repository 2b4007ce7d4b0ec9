use edge_base::{Addr, Header, Headers, Memory, Moment, Request, Text, TextBuilder};
use rewrite_apply::{Change, Changes, HeaderChange, HeaderChanges, apply, apply_headers, target};
use sqlite_items::Items;
use std::alloc::Global;
use std::process::Abort;
use std::test::Fail;

/// A request for a target.
fn request(alloc: Global, target: &[u8], headers: Headers) -> Result<Request, Memory> {
    let Some(at) = Moment::of(1999) else {
        return Err(Memory);
    };
    Ok(Request {
        at,
        from: Addr::V4(7),
        ssl: true,
        method: Text::of(alloc, b"pUT")?,
        target: Text::of(alloc, target)?,
        minor: 0,
        headers,
        body: Text::of(alloc, b"body\x01")?,
    })
}

/// The target of a request after these changes of its path and query.
fn target_after(
    alloc: Global,
    target: &[u8],
    path: Option<&[u8]>,
    query: Option<&[u8]>,
) -> Result<Text, Memory> {
    let sent = request(alloc, target, Items::new(alloc))?;
    let changes = Changes {
        path: path.map_or(Ok(None), |path| Text::of(alloc, path).map(Some))?,
        query: query.map_or(Ok(None), |query| Text::of(alloc, query).map(Some))?,
        headers: Items::new(alloc),
    };
    let after = apply(alloc, sent, &changes)?;
    after.target.copy(alloc)
}

/// What a row gives of a part: `-` where it doesn't change.
fn part(text: &str) -> Option<&[u8]> {
    if text == "-" {
        None
    } else {
        Some(text.as_bytes())
    }
}

/// A target, a new path and a new query, and the target then.
const TARGETS: &str = "/a?x=1 | - | - | /a?x=1
/a#b c?? | - | - | /a#b c??
http://h/a?x | - | - | http://h/a?x
? | - | - | ?
??a | - | - | ??a
/a?x=1 | /v2/a | - | /v2/a?x=1
/a | /b | - | /b
/a? | /b | - | /b
/a?x?y | /b | - | /b?x?y
??a | /b | - | /b??a
/a?x | b | - | /b?x
/a?x |  | - | /?x
/a | ?x | - | /%3Fx
/a | /a?b | - | /a%3Fb
/a?x | //b#d | - | //b%23d?x
/a | /b c\td\x00\x01\x1f! | - | /b%20c%09d%00%01%1F!
/a | /%41%zz%2f | - | /%41%zz%2f
/a | /~\x7f | - | /~%7F
/a | é | - | /%C3%A9
/a?x | - | y=2 | /a?y=2
/a | - | y=2 | /a?y=2
/a?x | - | ?y | /a?y
/a?x | - | ??y | /a??y
/a | - | ?x?y | /a?x?y
/a?x | - |  | /a
/a?x | - | ? | /a
/a | - | y z#\t\x00\x1f\x7f~! | /a?y%20z%23%09%00%1F%7F~!
/a | - | é+%41%zz&/ | /a?%C3%A9+%41%zz&/
/a?x | /b | y | /b?y
/a?x | b# | ?y# | /b%23?y%23
/a?x | /b |  | /b
http://h/a?x | /b | - | /b?x
http://h/a?x | - | y | /a?y
HTTPS://h | - | y | /?y
http://h?x | - | y | /?y
http://h?x | /b | - | /b?x
* | - | y | *?y
h:443 | /b | - | /b";

fn target_is_as_its_row_says(rt: &impl Abort, alloc: Global, row: &str) -> Result<(), Memory> {
    let mut parts = row.split(" | ");
    let target = parts.next().unwrap_or("");
    let path = part(parts.next().unwrap_or(""));
    let query = part(parts.next().unwrap_or(""));
    let wanted = parts.next().expect(rt, "the target then");
    let after = target_after(alloc, target.as_bytes(), path, query)?;
    assert_eq!(rt; after.bytes(), wanted.as_bytes(), "{row}");
    Ok(())
}

#[test]
fn a_target_has_the_new_path_and_the_new_query(rt: HostRuntime) -> Result<(), Fail> {
    for row in TARGETS.split("\n") {
        target_is_as_its_row_says(&rt, rt.alloc(), row)?;
    }
    Ok(())
}

#[test]
fn bytes_outside_ascii_and_newlines_are_escaped(rt: HostRuntime) -> Result<(), Fail> {
    let after = target_after(
        rt.alloc(),
        b"/a?\xff",
        Some(b"\n\r\x80\xab\xff"),
        Some(b"\n\r\x80\xab\xff"),
    )?;
    assert_eq!(rt;
        after.bytes(),
        b"/%0A%0D%80%AB%FF?%0A%0D%80%AB%FF".as_slice()
    );
    Ok(())
}

#[test]
fn a_target_may_become_empty(rt: HostRuntime) -> Result<(), Fail> {
    let after = target_after(rt.alloc(), b"??a", None, Some(b""))?;
    assert_eq!(rt; after.bytes(), b"".as_slice());
    Ok(())
}

/// The headers that a row gives, each as `NAME:VALUE`.
fn headers_of(alloc: Global, text: &str) -> Result<Headers, Memory> {
    let mut headers = Items::new(alloc);
    if text == "none" {
        return Ok(headers);
    }
    for given in text.split(";") {
        let (name, value) = given.split_once(":").unwrap_or((given, ""));
        headers.push(Header {
            name: Text::of(alloc, name.as_bytes())?,
            value: Text::of(alloc, value.as_bytes())?,
        })?;
    }
    Ok(headers)
}

/// A change as a row gives it: `=NAME:VALUE` sets, `+NAME:VALUE` adds, `-NAME` removes.
fn change_of(alloc: Global, text: &str) -> Result<HeaderChange, Memory> {
    let (change, value) = text.split_once(":").unwrap_or((text, ""));
    let value = Text::of(alloc, value.as_bytes())?;
    let (name, change) = if let Some(name) = change.strip_prefix("=") {
        (name, Change::Set(value))
    } else if let Some(name) = change.strip_prefix("+") {
        (name, Change::Add(value))
    } else {
        (change.strip_prefix("-").unwrap_or(""), Change::Remove)
    };
    Ok(HeaderChange {
        name: Text::of(alloc, name.as_bytes())?,
        change,
    })
}

fn changes_of(alloc: Global, text: &str) -> Result<HeaderChanges, Memory> {
    let mut changes = Items::new(alloc);
    for given in text.split(";") {
        changes.push(change_of(alloc, given)?)?;
    }
    Ok(changes)
}

/// Headers as a row gives them.
fn shown(alloc: Global, headers: &[Header]) -> Result<Text, Memory> {
    if headers.is_empty() {
        return Text::of(alloc, b"none");
    }
    let mut out = TextBuilder::new(alloc);
    let mut mark: &[u8] = b"";
    for header in headers {
        out.push(mark)?;
        out.push(header.name.bytes())?;
        out.push(b":")?;
        out.push(header.value.bytes())?;
        mark = b";";
    }
    Ok(out.into_text())
}

/// Headers, changes of them, and the headers then.
const HEADERS: &str = "A:1;B:2;a:3 | =A:9 | a:9;B:2
A:1;B:2;a:3 | =a:9 | a:9;B:2
B:2;x-TAG:1;C:3;X-Tag:4;x-tag:5 | =X-tAG:9 | B:2;x-tag:9;C:3
B:2 | =X-New:1 | B:2;x-new:1
none | =X:1 | x:1
Ab:1;b:2 | =B:9 | Ab:1;b:9
A:1;B:2 | +A:3 | A:1;B:2;a:3
A:1;a:2 | +a:1 | A:1;a:2;a:1
none | +X-Y:1 | x-y:1
A:1;B:2;a:3 | -A | B:2
A:1;B:2;a:3 | -b | A:1;a:3
A:1;a:2 | -a | none
A:1;Ab:2 | -a | Ab:2
A:1;Ab:2 | -X | A:1;Ab:2
none | -X | none
A:1 | =B:\t1\x00\x1f 2\x7f3\r\t | A:1;b:\t1 23\t
A:1 | +B:\t1\x00\x1f 2\x7f3\r\t | A:1;b:\t1 23\t
A:1 | =A:é~ | a:é~
A:1 | =A:\x01 | a:
A:a\x01b | =C:1 | A:a\x01b;c:1
C:0 | +a:1;+b:2;=c:3 | c:3;a:1;b:2
C:0 | +A:1;=C:3;+a:2 | c:3;a:1;a:2
A:0;B:1 | -A;=B:2;+c:3 | b:2;c:3
A:0 | =A:1;=A:2 | a:2
A:0 | +A:1;-a;+b:2 | b:2";

fn headers_are_as_their_row_says(rt: &impl Abort, alloc: Global, row: &str) -> Result<(), Memory> {
    let mut parts = row.split(" | ");
    let headers = headers_of(alloc, parts.next().unwrap_or(""))?;
    let changes = changes_of(alloc, parts.next().unwrap_or(""))?;
    let wanted = parts.next().expect(rt, "the headers then");
    let after = apply_headers(alloc, headers, &changes)?;
    let after = shown(alloc, after.as_slice())?;
    assert_eq!(rt; after.bytes(), wanted.as_bytes(), "{row}");
    Ok(())
}

#[test]
fn headers_are_set_added_and_removed(rt: HostRuntime) -> Result<(), Fail> {
    for row in HEADERS.split("\n") {
        headers_are_as_their_row_says(&rt, rt.alloc(), row)?;
    }
    Ok(())
}

#[test]
fn newlines_leave_a_new_value(rt: HostRuntime) -> Result<(), Fail> {
    let alloc = rt.alloc();
    let mut changes = Items::new(alloc);
    changes.push(HeaderChange {
        name: Text::of(alloc, b"A")?,
        change: Change::Set(Text::of(alloc, b"1\r\nB: 2\xff")?),
    })?;
    let after = apply_headers(alloc, Items::new(alloc), &changes)?;
    let after = shown(alloc, after.as_slice())?;
    assert_eq!(rt; after.bytes(), b"a:1B: 2\xff".as_slice());
    Ok(())
}

#[test]
fn a_rewrite_leaves_the_rest_of_a_request(rt: HostRuntime) -> Result<(), Fail> {
    let alloc = rt.alloc();
    let sent = request(alloc, b"/a?x=1", headers_of(alloc, "Host:a.example;B:1")?)?;
    let changes = Changes {
        path: Some(Text::of(alloc, b"/v2/a")?),
        query: None,
        headers: changes_of(alloc, "+c:2;=host:b")?,
    };
    let after = apply(alloc, sent, &changes)?;
    assert_eq!(rt; after.at.get(), 1999);
    assert!(rt; after.from == Addr::V4(7) && after.ssl && after.minor == 0);
    assert_eq!(rt; after.method.bytes(), b"pUT".as_slice());
    assert_eq!(rt; after.target.bytes(), b"/v2/a?x=1".as_slice());
    assert_eq!(rt; after.body.bytes(), b"body\x01".as_slice());
    let headers = shown(alloc, after.headers.as_slice())?;
    assert_eq!(rt; headers.bytes(), b"host:b;B:1;c:2".as_slice());
    Ok(())
}

/// A location, whether the query is kept, the target of the request, and where the redirect leads.
const LOCATIONS: &str = "https://b.example/new | keep | /old?k=1 | https://b.example/new?k=1
https://b.example/new | drop | /old?k=1 | https://b.example/new
https://b.example/new | keep | /old | https://b.example/new
https://b.example/new | keep | /old? | https://b.example/new
/new?a | keep | /old?k=1 | /new?a&k=1
/new?a | drop | /old?k=1 | /new?a
/new?a | keep | /old | /new?a
/? | keep | /?k | /?&k
/#a?b | keep | /?k#l | /#a?b&k#l
/n\tx\x00\x01\x7fy\x1f z | drop | / | /nxy z
/n\t | keep | /o?a\tb\x01\x7fc?d e | /n?abc?d e
/n | keep | /o?\t | /n?
/n?\t | keep | /o?k | /n?&k
/n | keep | http://h?k | /n?k
/n | keep | http://h/a | /n
/né#x%20 | drop | / | /né#x%20
 | keep | /?k | ?k";

fn location_is_as_its_row_says(rt: &impl Abort, alloc: Global, row: &str) -> Result<(), Memory> {
    let mut parts = row.split(" | ");
    let location = Text::of(alloc, parts.next().unwrap_or("").as_bytes())?;
    let keeps = parts.next().unwrap_or("") == "keep";
    let sent = parts.next().unwrap_or("");
    let wanted = parts.next().expect(rt, "where it leads");
    let request = request(alloc, sent.as_bytes(), Items::new(alloc))?;
    let found = target(alloc, &location, keeps, &request)?;
    assert_eq!(rt; found.bytes(), wanted.as_bytes(), "{row}");
    Ok(())
}

#[test]
fn a_redirect_leads_where_its_row_says(rt: HostRuntime) -> Result<(), Fail> {
    for row in LOCATIONS.split("\n") {
        location_is_as_its_row_says(&rt, rt.alloc(), row)?;
    }
    Ok(())
}

#[test]
fn newlines_leave_a_location(rt: HostRuntime) -> Result<(), Fail> {
    let alloc = rt.alloc();
    let location = Text::of(alloc, b"/n\r\nA: 1\xff")?;
    let request = request(alloc, b"/?k\r\n\xfe", Items::new(alloc))?;
    let found = target(alloc, &location, true, &request)?;
    assert_eq!(rt; found.bytes(), b"/nA: 1\xff?k\xfe".as_slice());
    Ok(())
}
