//! Expressions as they are read and checked: a table of texts, places and answers.

use super::office;
use edge_base::{Expr, Memory};
use edge_fields::Scheme;
use expr_parser::parse;
use std::alloc::Global;
use std::process::Abort;
use std::test::Fail;
use type_check::{Place, TypeCause, TypeFault, check};

/// Rows of a text, the place at which it stands, and the answer: `ok`, or the node of the fault and its cause. Two blanks
/// stand between. The list `office` has addresses.
const ROWS: &str = r##"http.host eq "a"  Filter  ok
http.hots eq "a"  Filter  1 UnknownField
nosuch(http.host) eq "a"  Filter  1 UnknownFunction
nosuch in $x  Filter  0 UnknownList
http.host in $x  Filter  0 UnknownList
http.response.code eq 200  Filter  1 ResponseField
http.response.code eq 200  Count  ok
http.response.code eq 200  ReplyFilter  ok
http.response.headers["a"][0]  ReplyValue  ok
http.response.headers["a"][0]  Value  2 ResponseField
http.host  Filter  0 Mismatch
ssl  Value  0 Mismatch
ssl  Filter  ok
ip.src lt 10.0.0.1  Filter  0 Mismatch
ip.src eq 10.0.0.1  Filter  ok
true eq 1  Filter  0 Mismatch
ip.src in {10.0.0.0/33}  Filter  0 BadPrefix
ip.src in {10.0.0.9..10.0.0.1}  Filter  0 BadRange
ip.src in {10.0.0.1..::1}  Filter  0 BadRange
http.request.timestamp.sec in {9..3}  Filter  0 BadRange
http.request.timestamp.sec in {3..3}  Filter  ok
http.host in {1}  Filter  0 Mismatch
http.host in {10.0.0.0/33}  Filter  0 Mismatch
nosuch in {10.0.0.0/33}  Filter  0 BadPrefix
any(nosuch[*] in {10.0.0.0/33})  Filter  1 BadPrefix
http.host wildcard "a**b"  Filter  0 BadWildcard
http.host matches "("  Filter  0 PatternSyntax
nosuch matches "("  Filter  0 PatternSyntax
len(http.host matches "(") eq 1  Filter  1 Mismatch
any(lower(http.request.headers.names[*])[*] contains "x-")  Filter  ok
len(http.request.headers.names[*])  Value  1 Misplaced
any(not http.request.headers.names[*] eq "a")  Filter  3 Misplaced
split(http.request.headers.names[*], ",")  Value  0 Mismatch
concat(regex_replace(http.host,"a","b"),regex_replace(http.host,"a","b"))  Value  5 Misplaced
wildcard_replace(nosuch,"a**b","x")  Value  0 BadWildcard
wildcard_replace(http.host,"a*b","x","")  Value  0 Mismatch
encode_base64(http.host,"")  Value  ok
lookup_json_string(http.host,-1)  Value  0 Mismatch
cf.colo.id  Characteristic  ok
cf.colo.id  Value  0 UnknownField
ssl  Characteristic  0 Mismatch
len(http.host) eq 1  Filter  ok
len(http.request.headers.names) eq 1  Filter  ok
len(ip.src) eq 1  Filter  1 Mismatch
len(nosuch) eq 1  Filter  2 UnknownField
concat(1,1,1,1,1,1,1,1,1,1,1,1,1,1,1,1)  Value  ok
concat(1,1,1,1,1,1,1,1,1,1,1,1,1,1,1,1,1)  Value  0 Mismatch
concat("a", ip.src, 1, true)  Value  ok
concat(http.request.headers.names)  Value  0 Mismatch
concat(http.host, http.request.headers.names[*])  Value  2 Misplaced
lower(1)  Value  0 Mismatch
upper(http.host)  Value  ok
remove_bytes(http.host, http.host)  Value  0 Mismatch
remove_bytes(http.host, "a")  Value  ok
substring(http.host, 1)  Value  ok
substring(http.host, 1, 2, 3)  Value  0 Mismatch
substring(http.host, "1")  Value  0 Mismatch
substring(http.host)  Value  0 Mismatch
starts_with(http.host, "a")  Filter  ok
starts_with(http.host)  Filter  0 Mismatch
any(http.request.headers.names)  Filter  0 Mismatch
any(ssl)  Filter  0 Mismatch
any(http.request.headers.names[*] eq "a")  Filter  ok
any((http.request.headers.names[*] eq "a"))  Filter  ok
all(http.request.uri.args["a"][*] eq "1")  Filter  ok
any(http.request.headers.names[*])  Filter  1 Misplaced
any(http.request.headers.names[*] eq "a" and ssl)  Filter  3 Misplaced
any(http.request.headers["a"][*][*] eq "a")  Filter  3 Misplaced
any(starts_with(http.request.headers.names[*], "x"))  Filter  ok
lower(http.request.headers.names[*])[0]  Value  ok
http.request.headers.names[*] eq "a"  Filter  1 Misplaced
http.request.headers.names[0] eq "a"  Filter  ok
http.host[0] eq "a"  Filter  1 Mismatch
http.request.headers[0] eq "a"  Filter  1 Mismatch
http.request.headers["a"] eq "a"  Filter  0 Mismatch
http.request.headers["a"][0] eq "a"  Filter  ok
http.request.headers.names["a"][0] eq "a"  Filter  2 Mismatch
not ssl  Filter  ok
not http.host  Filter  0 Mismatch
not nosuch(http.host)  Filter  1 UnknownFunction
ssl and http.host  Filter  0 Mismatch
ssl or nosuch  Filter  2 UnknownField
ssl xor ssl  Filter  ok
nosuch and nosuch_too  Filter  1 UnknownField
ip.src contains "a"  Filter  0 Mismatch
ip.src matches "a"  Filter  0 Mismatch
ip.src wildcard "a"  Filter  0 Mismatch
ip.src strict wildcard "a"  Filter  0 Mismatch
ssl eq 1  Filter  0 Mismatch
http.host lt "b"  Filter  ok
http.request.timestamp.sec ge 1  Filter  ok
http.host wildcard "a\\b"  Filter  0 BadWildcard
http.host ~ "("  Filter  0 PatternSyntax
http.host in {"a" "b"}  Filter  ok
http.host in {"a" 1}  Filter  0 Mismatch
ip.src in {10.0.0.0/32 ::/128}  Filter  ok
ip.src in {::/129}  Filter  0 BadPrefix
http.request.timestamp.sec in {1..2 5}  Filter  ok
http.request.timestamp.sec in {10.0.0.1}  Filter  0 Mismatch
ssl in {1}  Filter  0 Mismatch
ip.src in $office  Filter  ok
http.host in $office  Filter  0 Mismatch
http.request.timestamp.sec in $office  Filter  0 Mismatch
any(http.request.headers.values[*] in $office)  Filter  1 Mismatch
nosuch in $office  Filter  1 UnknownField
has_key(http.request.headers, "a")  Filter  ok
has_key(http.request.headers.names, "a")  Filter  0 Mismatch
has_key(http.request.headers.names[*], "a")  Filter  1 Misplaced
has_value(http.request.headers.names, "a")  Filter  ok
has_value(http.request.headers, "a")  Filter  0 Mismatch
has_value(http.request.headers.names, 1)  Filter  0 Mismatch
join(http.request.headers.names, ",")  Value  ok
join(http.host, ",")  Value  0 Mismatch
join(split(http.host, ","), "-")  Value  ok
split(http.host, http.host)  Value  0 Mismatch
lookup_json_string(http.host, "a", 0)  Value  ok
lookup_json_string(http.host)  Value  0 Mismatch
lookup_json_string(http.host, http.host)  Value  0 Mismatch
lookup_json_string(http.host,1,2,3,4,5,6,7,8,9)  Value  0 Mismatch
lookup_json_integer(http.host,"a") eq 1  Filter  ok
encode_base64(http.host,"x")  Value  0 Mismatch
encode_base64(http.host,"pu")  Value  ok
encode_base64(http.host,"pp")  Value  0 Mismatch
decode_base64(http.host)  Value  ok
url_decode(http.host)  Value  ok
wildcard_replace(http.host,"a*","${1}","s")  Value  ok
wildcard_replace(http.host,"a*","${1}","t")  Value  0 Mismatch
wildcard_replace(http.host,http.host,"x")  Value  0 Mismatch
regex_replace(http.host,"a","x")  Value  ok
regex_replace(http.host,"(","x")  Value  0 PatternSyntax
regex_replace(regex_replace(http.host,"a","b"),"a","b")  Value  1 Misplaced
to_string(http.host)  Value  0 Mismatch
to_string(ip.src)  Value  ok
"a"  Value  ok
"a"  Filter  0 Mismatch
1  Value  0 Mismatch
http.response.code in {200..299}  ReplyFilter  ok
http.response.code  ReplyValue  0 Mismatch
http.response.code  Count  0 Mismatch
http.host  Characteristic  ok
ip.src  Characteristic  ok
http.request.headers["a"]  Characteristic  ok
http.request.uri.args["a"][0]  Characteristic  ok
http.request.headers  Characteristic  0 Mismatch
http.request.headers.names  Characteristic  0 Mismatch
http.request.headers.names[0]  Characteristic  0 Mismatch
lower(http.host)  Characteristic  0 Mismatch
http.response.code  Characteristic  0 ResponseField
nosuch  Characteristic  0 UnknownField
"a"  Characteristic  0 Mismatch"##;

fn place_of(name: &str) -> Option<Place> {
    match name {
        "Filter" => Some(Place::Filter),
        "Value" => Some(Place::Value),
        "Count" => Some(Place::Count),
        "ReplyFilter" => Some(Place::ReplyFilter),
        "ReplyValue" => Some(Place::ReplyValue),
        "Characteristic" => Some(Place::Characteristic),
        _ => None,
    }
}

fn name_of(cause: TypeCause) -> &'static str {
    match cause {
        TypeCause::UnknownField => "UnknownField",
        TypeCause::UnknownFunction => "UnknownFunction",
        TypeCause::UnknownList => "UnknownList",
        TypeCause::ResponseField => "ResponseField",
        TypeCause::Misplaced => "Misplaced",
        TypeCause::Mismatch => "Mismatch",
        TypeCause::BadPrefix => "BadPrefix",
        TypeCause::BadRange => "BadRange",
        TypeCause::BadWildcard => "BadWildcard",
        TypeCause::PatternSyntax => "PatternSyntax",
        TypeCause::PatternSize => "PatternSize",
    }
}

/// The fault of an expression at a place, if it has one.
fn fault_of(
    alloc: Global,
    scheme: &Scheme,
    expr: &Expr,
    place: Place,
) -> Result<Option<(u32, TypeCause)>, Memory> {
    match check(alloc, scheme, expr, place) {
        Ok(_) => Ok(None),
        Err(TypeFault::Bad { node, cause }) => Ok(Some((node, cause))),
        Err(TypeFault::Memory) => Err(Memory),
    }
}

/// The same of a text that is an expression.
fn fault_in(
    alloc: Global,
    scheme: &Scheme,
    text: &str,
    place: Place,
) -> Result<Option<(u32, TypeCause)>, Memory> {
    match parse(alloc, text.as_bytes()) {
        Ok(expr) => fault_of(alloc, scheme, &expr, place),
        Err(_) => Err(Memory),
    }
}

/// A fault as the rows write it.
fn shown(alloc: Global, fault: Option<(u32, TypeCause)>) -> Result<String, Fail> {
    match fault {
        None => Ok(format!(in alloc; "ok")?),
        Some((node, cause)) => {
            let name = name_of(cause);
            Ok(format!(in alloc; "{node} {name}")?)
        }
    }
}

fn check_row(rt: &impl Abort, alloc: Global, scheme: &Scheme, row: &str) -> Result<(), Fail> {
    let mut parts = row.split("  ");
    let text = parts.next().unwrap_or("");
    let place = place_of(parts.next().unwrap_or(""));
    let wanted = parts.next().unwrap_or("");
    assert!(rt; place.is_some());
    let fault = fault_in(alloc, scheme, text, place.unwrap_or(Place::Filter))?;
    let answer = shown(alloc, fault)?;
    assert!(rt; answer.as_str() == wanted);
    Ok(())
}

#[test]
fn each_expression_is_answered_by_its_lowest_fault(rt: HostRuntime) -> Result<(), Fail> {
    let alloc = rt.alloc();
    let scheme = Scheme::new(alloc, &office(alloc)?)?;
    for row in ROWS.split("\n") {
        check_row(&rt, alloc, &scheme, row)?;
    }
    Ok(())
}
