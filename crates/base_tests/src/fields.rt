ghost use Rattle.std.specs.Prelude.{IfOk};
ghost use Rattle.edge_fields.specs.Schemes.{AreLists};

use edge_base::{Addr, Header, Headers, Memory, Moment, Reply, Request, Text};
use edge_fields::{
    Basic, FieldId, FunctionId, ListKinds, Scheme, Value, field, field_named, function_named,
};
use sqlite_items::Items;
use std::alloc::Global;
use std::test::Fail;

fn headers(alloc: Global) -> Result<Headers, Memory> {
    let mut headers = Items::new(alloc);
    for (name, value) in [
        (b"X-Tag".as_slice(), b"1".as_slice()),
        (b"hOst", b"A.example:80"),
        (b"Cookie", b"c=1"),
        (b"x-TAG", b"2"),
        (b"Host", b"second"),
        (b"USER-AGENT", b"curl/8"),
    ] {
        headers.push(Header {
            name: Text::of(alloc, name)?,
            value: Text::of(alloc, value)?,
        })?;
    }
    Ok(headers)
}

fn request(alloc: Global, target: &[u8], ssl: bool) -> Result<Request, Memory> {
    let Some(at) = Moment::of(1999) else {
        return Err(Memory);
    };
    Ok(Request {
        at,
        from: Addr::V4(7),
        ssl,
        method: Text::of(alloc, b"get")?,
        target: Text::of(alloc, target)?,
        minor: 0,
        headers: headers(alloc)?,
        body: Text::of(alloc, b"")?,
    })
}

fn reply(alloc: Global) -> Result<Reply, Memory> {
    Ok(Reply {
        status: 404,
        headers: headers(alloc)?,
        body: Text::of(alloc, b"")?,
    })
}

/// Puts each text, with `;` behind it.
fn put_texts(out: &mut Vec<u8>, texts: &[Text]) -> Result<(), Memory> {
    for text in texts {
        out.extend_from_slice(text.bytes())?;
        out.push(b';')?;
    }
    Ok(())
}

/// A value as bytes: of an array each text with `;` behind it, of a map its size and then some keys with their texts.
fn shown(alloc: Global, value: &Value) -> Result<Vec<u8>, Memory> {
    let mut out = Vec::new(alloc);
    match value {
        Value::Text(text) => out.extend_from_slice(text.bytes())?,
        Value::Num(number) => out.extend_from_slice(number.to_string(alloc)?.as_bytes())?,
        Value::Addr(addr) => out.extend_from_slice(if *addr == Addr::V4(7) {
            b"v4 7"
        } else {
            b"other"
        })?,
        Value::Bool(truth) => out.extend_from_slice(if *truth { b"true" } else { b"false" })?,
        Value::Array(values) => {
            for item in values.as_slice() {
                if let Value::Text(text) = item {
                    out.extend_from_slice(text.bytes())?;
                    out.push(b';')?;
                }
            }
        }
        Value::Map(map) => {
            out.extend_from_slice(map.len().to_string(alloc)?.as_bytes())?;
            for key in [b"a".as_slice(), b"", b"host", b"x-tag"] {
                if let Some(texts) = map.get(&Text::of(alloc, key)?) {
                    out.push(b' ')?;
                    out.extend_from_slice(key)?;
                    out.push(b'=')?;
                    put_texts(&mut out, texts.as_slice())?;
                }
            }
        }
    }
    Ok(out)
}

/// A field as bytes, by way of a copy of its value.
fn shown_field(
    alloc: Global,
    target: &[u8],
    reply: Option<&Reply>,
    id: FieldId,
) -> Result<Vec<u8>, Memory> {
    let request = request(alloc, target, true)?;
    match field(alloc, &request, reply, id)? {
        Some(value) => shown(alloc, &value.copy(alloc)?),
        None => Ok(Vec::from_slice(alloc, b"missing")?),
    }
}

/// One list of addresses.
fn office(alloc: Global) -> Result<ListKinds, Memory>
    ensures { IfOk result (λ lists. AreLists lists) }
{
    let mut lists = Items::new(alloc);
    lists.push((Text::of(alloc, b"office")?, Basic::Addr))?;
    Ok(lists)
}

#[test]
fn each_field_is_as_the_table_has_it(rt: HostRuntime) -> Result<(), Fail> {
    let alloc = rt.alloc();
    let reply = reply(alloc)?;
    let odd: &[u8] = b"/p?&&a&a=1&=2&a=b=c";
    for (target, id, want) in [
        (odd, FieldId::Host, b"A.example:80".as_slice()),
        (odd, FieldId::Cookie, b"c=1"),
        (odd, FieldId::Referer, b""),
        (odd, FieldId::UserAgent, b"curl/8"),
        (odd, FieldId::Method, b"get"),
        (odd, FieldId::Version, b"HTTP/1.0"),
        (odd, FieldId::Source, b"v4 7"),
        (odd, FieldId::Ssl, b"true"),
        (odd, FieldId::Timestamp, b"1"),
        (
            odd,
            FieldId::Headers,
            b"4 host=A.example:80;second; x-tag=1;2;",
        ),
        (
            odd,
            FieldId::HeaderNames,
            b"x-tag;host;cookie;x-tag;host;user-agent;",
        ),
        (
            odd,
            FieldId::HeaderValues,
            b"1;A.example:80;c=1;2;second;curl/8;",
        ),
        (odd, FieldId::Args, b"2 a=;1;b=c; =2;"),
        (odd, FieldId::ArgNames, b"a;a;;a;"),
        (odd, FieldId::ArgValues, b";1;2;b=c;"),
        (odd, FieldId::ResponseCode, b"404"),
        (
            odd,
            FieldId::ResponseHeaders,
            b"4 host=A.example:80;second; x-tag=1;2;",
        ),
        (odd, FieldId::Uri, odd),
        (odd, FieldId::Path, b"/p"),
        (odd, FieldId::Query, b"&&a&a=1&=2&a=b=c"),
        (b"/p?a?b", FieldId::FullUri, b"https://A.example:80/p?a?b"),
        (b"/p?a?b", FieldId::Query, b"a?b"),
        (b"http://h", FieldId::Uri, b"/"),
        (b"http://h", FieldId::Path, b"/"),
        (b"http://h", FieldId::Query, b""),
        (b"http://h", FieldId::FullUri, b"https://A.example:80/"),
        (b"HTTPS://h?x", FieldId::Uri, b"/?x"),
        (b"HTTPS://h?x", FieldId::Path, b"/"),
        (b"HTTPS://h?x", FieldId::Query, b"x"),
        (b"HTTPS://h?x", FieldId::FullUri, b"https://A.example:80/?x"),
        (b"hTTp://u@h:1/p?q", FieldId::Uri, b"/p?q"),
        (b"hTTp://u@h:1/p?q", FieldId::Path, b"/p"),
        (b"*", FieldId::Uri, b"*"),
        (b"*", FieldId::Path, b"*"),
        (b"h:443", FieldId::Path, b"h:443"),
    ] {
        let found = shown_field(alloc, target, Some(&reply), id)?;
        assert_eq!(rt; found.as_slice(), want);
    }
    for id in [FieldId::ResponseCode, FieldId::ResponseHeaders] {
        let found = shown_field(alloc, odd, None, id)?;
        assert_eq!(rt; found.as_slice(), b"missing".as_slice());
    }
    Ok(())
}

#[test]
fn names_are_those_of_the_tables(rt: HostRuntime) -> Result<(), Fail> {
    assert!(rt; field_named(b"http.request.headers.names") == Some(FieldId::HeaderNames));
    assert!(rt; field_named(b"ip.src") == Some(FieldId::Source));
    assert!(rt; field_named(b"http.hots") == None);
    assert!(rt; field_named(b"cf.colo.id") == None);
    assert!(rt; function_named(b"remove_bytes") == Some(FunctionId::RemoveBytes));
    assert!(rt; function_named(b"cidr") == None);
    let alloc = rt.alloc();
    let scheme = Scheme::new(alloc, &office(alloc)?)?;
    assert!(rt; scheme.list(b"office") == Some((0, Basic::Addr)));
    assert!(rt; scheme.list(b"offic") == None);
    Ok(())
}
