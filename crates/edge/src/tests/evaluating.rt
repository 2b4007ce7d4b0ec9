//! Expressions as they are evaluated: a table of texts, requests and values.
ghost use Rattle.std.specs.Prelude.{◌≡◌, ◌≤◌, [], IfOk};
ghost use Rattle.edge_fields.specs.Schemes.{AreLists};

use edge_base::{Addr, Expr, Header, Headers, Memory, Moment, Reply, Request, Text, parse_addr};
use edge_fields::{ListKinds, Scheme, Value};
use expr_parser::parse;
use list_store::{ListParts, Lists};
use sqlite_items::Items;
use std::alloc::Global;
use std::process::Abort;
use std::test::Fail;
use tree_eval::{eval, is_met};
use type_check::{Place, TypeFault, Typed, check};

/// Rows of a text, what differs in the request, and the value of the text on it. Two blanks stand between. Where nothing
/// differs, a GET of `/` by HTTP/1.1 came at 0 from 10.0.0.1 without TLS, with the one header `host:a.example`. A text
/// that is asked of a reply is a filter of replies.
pub(super) const ROWS: &str =
    r##"http.host eq "b" or ssl and http.request.method eq "PUT"  ssl=yes headers=host:b  true
not ssl and http.host eq "a" or http.host eq "b"  ssl=yes headers=host:b  true
http.host eq "a" xor ssl and http.request.method eq "PUT"  ssl=yes headers=host:a  true
http.request.headers["x"][0] ne "a"  -  false
not http.request.headers["x"][0] eq "a"  -  true
any(lower(http.request.headers.names[*])[*] contains "x-")  headers=host:a.example,X-Api:1  true
any(lower(http.request.headers.names[*])[*] contains "x-")  headers=  false
http.host wildcard "*.EXAMPLE.com"  headers=host:a.example.com  true
http.host strict wildcard "*.EXAMPLE.com"  headers=host:a.example.com  false
http.host wildcard "*.EXAMPLE.com"  headers=host:example.com  false
wildcard_replace("https://a/b/c","https://*/*","${1}|${2}") eq "a|b/c"  -  true
ip.src in {10.0.0.0/8}  ip=10.255.255.255  true
ip.src in {10.0.0.0/8}  ip=11.0.0.0  false
ip.src in {10.0.0.0/8}  ip=::ffff:10.0.0.1  false
ip.src in {0.0.0.0/0}  ip=255.255.255.255  true
ip.src in {0.0.0.0/0}  ip=::1  false
ip.src in {10.0.0.0..10.0.0.9 ::/0}  -  true
ip.src in {10.0.0.0..10.0.0.9 ::/0}  ip=::1  true
ip.src in {10.0.0.0..10.0.0.9 ::/0}  ip=10.0.0.10  false
ip.src eq 10.0.0.1  -  true
ip.src ne ::ffff:10.0.0.1  -  true
substring("abcdef", -3, -1) eq "de"  -  true
url_decode("a%20b+c%zz") eq "a b c%zz"  -  true
encode_base64("hello world","p") eq "aGVsbG8gd29ybGQ="  -  true
decode_base64("aGVsbG8gd29ybGQ") eq "hello world"  -  true
lookup_json_integer("{\"a\":[1,2]}","a",1) eq 2  -  true
concat("n",2) eq "n2"  -  true
regex_replace("/a/7","/a/([0-9]+)","/b/${1}") eq "/b/7"  -  true
lookup_json_string("{\"a\":1}","a") eq "1"  -  false
not lookup_json_string("{\"a\":1}","a") eq "1"  -  true
all(http.request.headers["x"][*] eq "a")  -  false
all(http.request.headers.names[*] eq "a")  headers=  true
any(http.request.headers.names[*] eq "a")  headers=  false
starts_with(http.request.headers["x"][0], "a")  -  missing
not starts_with(http.request.headers["x"][0], "a")  -  true
starts_with(http.request.headers["x"][0], "a") or ssl  ssl=yes  true
ssl xor ssl xor ssl  ssl=yes  true
ssl xor true xor http.host eq "b"  ssl=yes  false
not (ssl xor true)  ssl=yes  true
ssl or http.host eq "a.example"  -  true
http.host lt "b"  -  true
http.host lt "a"  -  false
http.host gt "a"  -  true
http.request.timestamp.sec eq 1  at=1999  true
http.request.timestamp.sec in {0..0 5..9}  at=5000  true
http.request.timestamp.sec in {0..0 5..9}  at=4999  false
http.request.uri.path eq "/a" and http.request.uri.query eq "b=1"  target=/a?b=1  true
http.request.uri.args["b"][0] eq "1"  target=/a?b=1&b=2  true
http.request.uri.args["b"][1] eq "2"  target=/a?b=1&b=2  true
http.request.uri.args["b"][2] ne "2"  target=/a?b=1&b=2  false
any(http.request.uri.args["b"][*] eq "2")  target=/a?b=1&b=2  true
all(http.request.uri.args["b"][*] eq "2")  target=/a?b=1&b=2  false
len(http.request.uri.args["b"]) eq 2  target=/a?b=1&b=2  true
len(http.request.uri.args["c"]) eq 0  target=/a?b=1&b=2  false
has_key(http.request.headers, "host")  -  true
has_key(http.request.headers, "Host")  headers=Host:a.example  false
has_value(http.request.headers.values, "a.example")  -  true
join(http.request.headers.names, ",") eq "host,x-a"  headers=Host:a.example,X-A:1  true
any(concat(http.request.headers.names[*], "!")[*] eq "host!")  -  true
all(concat(http.request.headers.names[*], http.request.headers["x"][0])[*] eq "z")  -  true
any(concat(http.request.headers.names[*], http.request.headers["x"][0])[*] eq "z")  -  false
all(lower(http.request.headers["x"][*])[*] eq "a")  -  false
any(decode_base64(http.request.headers["x"][*])[*] eq "abc")  headers=x:?,x:YWJj  true
len(decode_base64(http.request.headers["x"][*])) eq 1  headers=x:?,x:YWJj  true
all(starts_with(http.request.headers.names[*], "x"))  headers=x-a:1,x-b:2  true
http.host matches "^a[.]"  -  true
http.host ~ "z"  -  false
http.host contains "exa"  -  true
http.host contains ""  -  true
http.host in {"b" "a.example"}  -  true
any(http.request.headers.values[*] in {"1" "2"})  headers=host:a.example,x:2  true
http.request.version eq "HTTP/1.0"  version=1.0  true
http.request.full_uri eq "https://a.example/x"  ssl=yes target=/x  true
http.request.headers.names[0] eq "host"  -  true
http.request.headers.names[1] eq "host"  -  false
to_string(ip.src) eq "10.0.0.1"  -  true
http.response.code eq 200  reply=200  true
http.response.headers["x"][0] eq "a"  reply=200,x:a  true
http.response.headers["x"][0] eq "a"  reply=200  false"##;

/// What a row says of a part of the request.
pub(super) fn said<'r>(words: &'r str, name: &str) -> Option<&'r str> {
    for word in words.split(" ") {
        if let Some((part, value)) = word.split_once("=") {
            if part == name {
                return Some(value);
            }
        }
    }
    None
}

/// Whether a row says this of a part of the request.
pub(super) fn is_said(words: &str, name: &str, wanted: &str) -> bool {
    match said(words, name) {
        None => false,
        Some(value) => value == wanted,
    }
}

/// The header that `NAME:VALUE` stands for, if it is one.
fn header_of(alloc: Global, text: &str) -> Result<Option<Header>, Memory> {
    match text.split_once(":") {
        None => Ok(None),
        Some((name, value)) => Ok(Some(Header {
            name: Text::of(alloc, name.as_bytes())?,
            value: Text::of(alloc, value.as_bytes())?,
        })),
    }
}

/// The headers that stand in a text, with commas between.
fn headers_of(alloc: Global, text: &str) -> Result<Headers, Memory> {
    let mut headers = Items::new(alloc);
    for one in text.split(",") {
        if let Some(header) = header_of(alloc, one)? {
            headers.push(header)?;
        }
    }
    Ok(headers)
}

fn moment_of(words: &str) -> Option<Moment> {
    match said(words, "at") {
        None => Moment::of(0),
        Some(at) => Moment::of(at.parse::<u64>().ok()?),
    }
}

fn peer_of(words: &str) -> Option<Addr> {
    parse_addr(said(words, "ip").unwrap_or("10.0.0.1").as_bytes())
}

fn minor_of(words: &str) -> u8
    ensures { result ≤ 1 }
{
    if is_said(words, "version", "1.0") {
        0
    } else {
        1
    }
}

/// The request of a row; no memory where the row can't be read.
fn request_of(alloc: Global, words: &str) -> Result<Request, Memory> {
    let Some(at) = moment_of(words) else {
        return Err(Memory);
    };
    let Some(from) = peer_of(words) else {
        return Err(Memory);
    };
    let method = said(words, "method").unwrap_or("GET");
    let target = said(words, "target").unwrap_or("/");
    let headers = said(words, "headers").unwrap_or("host:a.example");
    Ok(Request {
        at,
        from,
        ssl: is_said(words, "ssl", "yes"),
        method: Text::of(alloc, method.as_bytes())?,
        target: Text::of(alloc, target.as_bytes())?,
        minor: minor_of(words),
        headers: headers_of(alloc, headers)?,
        body: Text::of(alloc, b"")?,
    })
}

/// The reply of a row, `STATUS` or `STATUS,NAME:VALUE`, if the row has one; no memory where it can't be read.
fn reply_of(alloc: Global, words: &str) -> Result<Option<Reply>, Memory> {
    let Some(text) = said(words, "reply") else {
        return Ok(None);
    };
    let (status, headers) = text.split_once(",").unwrap_or((text, ""));
    let Ok(status) = status.parse::<u16>() else {
        return Err(Memory);
    };
    Ok(Some(Reply {
        status,
        headers: headers_of(alloc, headers)?,
        body: Text::of(alloc, b"")?,
    }))
}

fn no_lists(alloc: Global) -> ListKinds
    ensures none { result ≡ [] }
    ensures distinct { AreLists result }
{
    Items::new(alloc)
}

/// The expression that a text is.
fn tree_of(alloc: Global, text: &str) -> Result<Expr, Memory> {
    match parse(alloc, text.as_bytes()) {
        Ok(tree) => Ok(tree),
        Err(_) => Err(Memory),
    }
}

/// A scheme in which no list has a name.
fn scheme_of_none(alloc: Global) -> Result<Scheme, Memory>
    ensures { IfOk result (λ scheme. scheme ≡ []) }
{
    Scheme::new(alloc, &no_lists(alloc))
}

/// A checked expression, under a scheme.
fn typed_in(alloc: Global, scheme: &Scheme, tree: &Expr, place: Place) -> Result<Typed, Memory>
    ensures { IfOk result (λ typed. typed.lists ≡ scheme.now) }
{
    match check(alloc, scheme, tree, place) {
        Ok(typed) => Ok(typed),
        Err(TypeFault::Memory) => Err(Memory),
        Err(TypeFault::Bad { .. }) => Err(Memory),
    }
}

/// A checked expression, where no list has a name.
fn typed_of(alloc: Global, tree: &Expr, place: Place) -> Result<Typed, Memory>
    ensures { IfOk result (λ typed. typed.lists ≡ []) }
{
    let scheme = scheme_of_none(alloc)?;
    typed_in(alloc, &scheme, tree, place)
}

/// The store of no lists.
fn store(alloc: Global) -> Result<Lists, Memory>
    ensures { IfOk result (λ lists. lists ≡ []) }
{
    match Lists::build(alloc, ListParts::new(alloc)) {
        Ok(lists) => Ok(lists),
        Err(_) => Err(Memory),
    }
}

/// A value as the rows write it.
fn shown(value: &Option<Value>) -> &'static str {
    match value {
        None => "missing",
        Some(Value::Bool(true)) => "true",
        Some(Value::Bool(false)) => "false",
        Some(_) => "no truth value",
    }
}

/// The value of a checked expression, as the rows write it.
fn value_of(
    alloc: Global,
    typed: &Typed,
    request: &Request,
    reply: Option<&Reply>,
) -> Result<&'static str, Memory>
    requires { typed.now.lists ≡ [] }
{
    let lists = store(alloc)?;
    let value = eval(alloc, typed, request, reply, &lists)?;
    Ok(shown(&value))
}

/// Whether it is met.
fn truth_of(
    alloc: Global,
    typed: &Typed,
    request: &Request,
    reply: Option<&Reply>,
) -> Result<bool, Memory>
    requires { typed.now.lists ≡ [] }
{
    let lists = store(alloc)?;
    is_met(alloc, typed, request, reply, &lists)
}

fn check_value(
    rt: &impl Abort,
    alloc: Global,
    typed: &Typed,
    words: &str,
    wanted: &str,
) -> Result<(), Memory>
    requires { typed.now.lists ≡ [] }
{
    let request = request_of(alloc, words)?;
    let reply = reply_of(alloc, words)?;
    let value = value_of(alloc, typed, &request, reply.as_ref())?;
    assert!(rt; value == wanted);
    let is_true = truth_of(alloc, typed, &request, reply.as_ref())?;
    assert!(rt; is_true == (wanted == "true"));
    Ok(())
}

/// The place of a row: it tells of a reply where its request has one.
fn place_of(words: &str) -> Place {
    match said(words, "reply") {
        None => Place::Filter,
        Some(_) => Place::ReplyFilter,
    }
}

fn check_tree(
    rt: &impl Abort,
    alloc: Global,
    tree: &Expr,
    words: &str,
    wanted: &str,
) -> Result<(), Memory> {
    let typed = typed_of(alloc, tree, place_of(words))?;
    check_value(rt, alloc, &typed, words, wanted)
}

fn check_text(
    rt: &impl Abort,
    alloc: Global,
    text: &str,
    words: &str,
    wanted: &str,
) -> Result<(), Memory> {
    let tree = tree_of(alloc, text)?;
    check_tree(rt, alloc, &tree, words, wanted)
}

fn check_row(rt: &impl Abort, alloc: Global, row: &str) -> Result<(), Memory> {
    let mut parts = row.split("  ");
    let text = parts.next().unwrap_or("");
    let words = parts.next().unwrap_or("");
    let wanted = parts.next().unwrap_or("");
    check_text(rt, alloc, text, words, wanted)
}

#[test]
fn each_expression_has_its_value(rt: HostRuntime) -> Result<(), Fail> {
    let alloc = rt.alloc();
    for row in ROWS.split("\n") {
        check_row(&rt, alloc, row)?;
    }
    Ok(())
}
