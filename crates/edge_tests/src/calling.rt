use edge_base::{Addr, Memory, Text, TextBuilder, print_addr};
use edge_fields::{FunctionId, TextMap, Value, Values, function_named};
use func_lib::call;
use serde_json::Value as Json;
use sqlite_items::Items;
use std::alloc::Global;
use std::process::Abort;
use std::test::Fail;

/// Calls, a line each: the arguments are JSON, where `null` is a map of `a` and the empty key, and what a call gives
/// is written as JSON, but without escapes.
const TEXTS: &str = r#"lower("AZ[É@z") = "az[É@z"
lower(1) = missing
lower("a","b") = missing
upper("az{é`Z") = "AZ{é`Z"
len("é") = 2
len("") = 0
len(["é","b","c"]) = 3
len([]) = 0
len(null) = missing
substring("abcdef",-3,-1) = "de"
substring("abcdef",0) = "abcdef"
substring("abcdef",2) = "cdef"
substring("abcdef",-2) = "ef"
substring("abcdef",6) = ""
substring("abcdef",-9,2) = "ab"
substring("abcdef",1,99) = "bcdef"
substring("abcdef",4,2) = ""
substring("abcdef",2,2) = ""
substring("abcdef",-1,0) = ""
substring("abcdef",0,-6) = ""
substring("",0,1) = ""
substring("abcdef",-9223372036854775808,9223372036854775807) = "abcdef"
substring("abcdef",9223372036854775807,-9223372036854775808) = ""
substring("abcdef") = missing
substring("abcdef",0,"1") = missing
remove_bytes("banana","an") = "b"
remove_bytes("banana","") = "banana"
remove_bytes("","a") = ""
starts_with("abc","") = true
starts_with("abc","ab") = true
starts_with("abc","bc") = false
starts_with("ab","abc") = false
ends_with("","") = true
ends_with("abc","bc") = true
ends_with("abc","ab") = false
ends_with("bc","abc") = false
concat("n",2) = "n2"
concat(true,"-",-9223372036854775808) = "true--9223372036854775808"
concat("") = ""
concat() = missing
concat("a",["b"]) = missing
concat(1,2,3,4,5,6,7,8,9,0,1,2,3,4,5,6) = "1234567890123456"
concat(1,2,3,4,5,6,7,8,9,0,1,2,3,4,5,6,7) = missing
to_string(9223372036854775807) = "9223372036854775807"
to_string(0) = "0"
to_string(-1) = "-1"
to_string(false) = "false"
to_string("a") = missing"#;

const ARRAYS: &str = r#"any([false,true]) = true
any([false]) = false
any([]) = false
any(true) = missing
any([true,"a"]) = missing
all([true,true]) = true
all([true,false]) = false
all([]) = true
has_key(null,"a") = true
has_key(null,"") = true
has_key(null,"A") = false
has_key(["a"],"a") = missing
has_value(["a","b"],"b") = true
has_value(["ab"],"b") = false
has_value([1,-2],-2) = true
has_value([],1) = false
has_value([1],"1") = missing
has_value(null,"1") = missing
split("a,b,,c,",",") = ["a","b","","c",""]
split("",",") = [""]
split("abc","") = ["abc"]
split("abc","x") = ["abc"]
split("abc","abc") = ["",""]
split("aaa","aa") = ["","a"]
split("aaaa","aa") = ["","",""]
split("ababa","aba") = ["","ba"]
split("a",1) = missing
join(["a","b","c"],"-") = "a-b-c"
join(["a","b"],"") = "ab"
join(["a"],"-") = "a"
join(["",""],"-") = "-"
join([],"-") = ""
join(["a",1],"-") = missing"#;

const JSON: &str = r#"lookup_json_integer("{\"a\":[1,2]}","a",1) = 2
lookup_json_string("{\"a\":{\"b\":\"\\u00e9é\"}}","a","b") = "éé"
lookup_json_integer("{\"a\":1,\"a\":2}","a") = 2
lookup_json_integer(" [ 7 ] ",0) = 7
lookup_json_integer("[7] x",0) = missing
lookup_json_integer("[9223372036854775807]",0) = 9223372036854775807
lookup_json_integer("[9223372036854775808]",0) = missing
lookup_json_integer("[-9223372036854775808]",0) = -9223372036854775808
lookup_json_integer("[1.0,-0,1e2]",0) = missing
lookup_json_integer("[1.0,-0,1e2]",1) = missing
lookup_json_integer("[1,1e400]",0) = missing
lookup_json_integer("[\"1\"]",0) = missing
lookup_json_string("[1]",0) = missing
lookup_json_string("[\"a\"]","0") = missing
lookup_json_string("{\"0\":\"a\"}",0) = missing
lookup_json_string("[\"a\"]",1) = missing
lookup_json_string("[\"a\"]",-1) = missing
lookup_json_string("[\"a\"]",true) = missing
lookup_json_string("\"a\"") = missing
lookup_json_string("","a") = missing
lookup_json_integer("[[[[[[[[3]]]]]]]]",0,0,0,0,0,0,0,0) = 3
lookup_json_integer("[[[[[[[[[3]]]]]]]]]",0,0,0,0,0,0,0,0,0) = missing"#;

const ENCODINGS: &str = r#"encode_base64("","p") = ""
encode_base64("f","p") = "Zg=="
encode_base64("fo","p") = "Zm8="
encode_base64("foo","p") = "Zm9v"
encode_base64("foob","p") = "Zm9vYg=="
encode_base64("fooba","p") = "Zm9vYmE="
encode_base64("foobar","p") = "Zm9vYmFy"
encode_base64("hello world","p") = "aGVsbG8gd29ybGQ="
encode_base64("fo") = "Zm8"
encode_base64("fo","") = "Zm8"
encode_base64(">>>?") = "Pj4+Pw"
encode_base64(">>>?","u") = "Pj4-Pw"
encode_base64(">>>?","up") = "Pj4-Pw=="
encode_base64(">>>?","pu") = "Pj4-Pw=="
encode_base64(">>>?","pp") = missing
encode_base64(">>>?","x") = missing
decode_base64("aGVsbG8gd29ybGQ") = "hello world"
decode_base64("") = ""
decode_base64("Zg==") = "f"
decode_base64("Zg") = "f"
decode_base64("Zg=") = missing
decode_base64("Zm9v=") = missing
decode_base64("Zh") = missing
decode_base64("Pj4-") = missing
decode_base64("Zm9v\n") = missing
url_decode("a%20b+c%zz") = "a b c%zz"
url_decode("") = ""
url_decode("%252b") = "%2b"
url_decode("%2B") = "+"
url_decode("%41%6a%C3%a9") = "Ajé"
url_decode("%%41") = "%A"
url_decode("%+1") = "% 1"
url_decode("%4") = "%4"
url_decode("+%") = " %""#;

const REPLACEMENTS: &str = r#"wildcard_replace("https://a/b/c","https://*/*","${2}@${1}") = "b/c@a"
wildcard_replace("abc","x*","y") = "abc"
wildcard_replace("AbC","a*c","<${1}>") = "<b>"
wildcard_replace("AbC","a*c","<${1}>","s") = "AbC"
wildcard_replace("abc","a*c","<${1}>","s") = "<b>"
wildcard_replace("ababc","*ab*","${1}|${2}") = "|abc"
wildcard_replace("ab","*","${0}${9}$1$$${1}${2}") = "${0}${9}$1$$ab"
wildcard_replace("","","x") = "x"
wildcard_replace("a","a**","x") = missing
wildcard_replace("a","a\\b","x") = missing
wildcard_replace("a","a","x","") = missing
wildcard_replace("a","a","x","ss") = missing
regex_replace("/a/7","/a/([0-9]+)","/b/${1}") = "/b/7"
regex_replace("aa","a","b") = "ba"
regex_replace("x","a","b") = "x"
regex_replace("a","(b)?a","<${1}${2}>") = "<>"
regex_replace("ab","","-") = "-ab"
regex_replace("ab","b","${0}$1") = "a${0}$1"
regex_replace("ab","b") = missing"#;

/// A map of two keys.
fn map(alloc: Global) -> Result<TextMap, Memory> {
    let mut map = TextMap::new(alloc);
    map.add(alloc, Text::of(alloc, b"a")?, Text::of(alloc, b"1")?)?;
    map.add(alloc, Text::of(alloc, b"")?, Text::of(alloc, b"2")?)?;
    Ok(map)
}

/// The value that a JSON text, number or truth value stands for; others stand for the map.
fn simple(alloc: Global, json: &Json) -> Result<Value, Memory> {
    match json {
        Json::String(text) => Ok(Value::Text(Text::of(alloc, text.as_bytes())?)),
        Json::Number(number) => Ok(Value::Num(number.as_i64().unwrap_or(0))),
        Json::Bool(truth) => Ok(Value::Bool(*truth)),
        _ => Ok(Value::Map(map(alloc)?)),
    }
}

/// The values that some JSON values stand for.
fn simples(alloc: Global, items: &[Json]) -> Result<Values, Memory> {
    let mut values = Items::new(alloc);
    for item in items {
        values.push(simple(alloc, item)?)?;
    }
    Ok(values)
}

/// The value that a JSON value stands for.
fn argument(alloc: Global, json: &Json) -> Result<Value, Memory> {
    match json {
        Json::Array(items) => Ok(Value::Array(simples(alloc, items.as_slice())?)),
        _ => simple(alloc, json),
    }
}

/// The arguments that the elements of a JSON array stand for.
fn arguments(alloc: Global, text: &str) -> Result<Values, Memory> {
    let mut array = String::from_str(alloc, "[")?;
    array.push_str(text)?;
    array.push_str("]")?;
    let Ok(Json::Array(items)) = Json::from_str(alloc, array.as_str()) else {
        return Err(Memory);
    };
    let mut values = Items::new(alloc);
    for item in items.as_slice() {
        values.push(argument(alloc, item)?)?;
    }
    Ok(values)
}

/// Shows a text in quotes, or a number, an address or a truth value.
fn show_simple(alloc: Global, out: &mut TextBuilder, value: &Value) -> Result<(), Memory> {
    match value {
        Value::Text(text) => {
            out.push(b"\"")?;
            out.push(text.bytes())?;
            out.push(b"\"")
        }
        Value::Num(number) => out.push(number.to_string(alloc)?.as_bytes()),
        Value::Addr(addr) => out.push(print_addr(alloc, *addr)?.bytes()),
        Value::Bool(truth) => out.push(if *truth { b"true" } else { b"false" }),
        Value::Array(_) | Value::Map(_) => out.push(b"?"),
    }
}

/// Shows values with commas between them.
fn show_list(alloc: Global, out: &mut TextBuilder, values: &[Value]) -> Result<(), Memory> {
    let mut separator = b"".as_slice();
    for value in values {
        out.push(separator)?;
        show_simple(alloc, out, value)?;
        separator = b",";
    }
    Ok(())
}

/// What a call gave, as it is written.
fn shown(alloc: Global, found: Option<&Value>) -> Result<Text, Memory> {
    let mut out = TextBuilder::new(alloc);
    match found {
        None => out.push(b"missing")?,
        Some(Value::Array(values)) => {
            out.push(b"[")?;
            show_list(alloc, &mut out, values.as_slice())?;
            out.push(b"]")?;
        }
        Some(value) => show_simple(alloc, &mut out, value)?,
    }
    Ok(out.into_text())
}

/// What a function gives of some arguments, as it is written.
fn given(alloc: Global, id: FunctionId, args: &[Value]) -> Result<Text, Memory> {
    let found = call(alloc, id, args)?;
    shown(alloc, found.as_ref())
}

/// Calls a function as a line says, and looks at what it gives.
fn gives_what_the_line_says(rt: &impl Abort, alloc: Global, line: &str) -> Result<(), Memory> {
    let (called, wanted) = line
        .split_once(") = ")
        .expect(rt, "a call and what it gives");
    let (name, args) = called.split_once("(").expect(rt, "a name and arguments");
    let id = function_named(name.as_bytes()).expect(rt, "a function");
    let args = arguments(alloc, args)?;
    let found = given(alloc, id, args.as_slice())?;
    assert_eq!(rt; found.bytes(), wanted.as_bytes(), "{line}");
    Ok(())
}

#[test]
fn each_call_gives_what_its_line_says(rt: HostRuntime) -> Result<(), Fail> {
    for table in [TEXTS, ARRAYS, JSON, ENCODINGS, REPLACEMENTS] {
        for line in table.lines() {
            gives_what_the_line_says(&rt, rt.alloc(), line)?;
        }
    }
    Ok(())
}

#[test]
fn addresses_are_written(rt: HostRuntime) -> Result<(), Fail> {
    let alloc = rt.alloc();
    let v4 = given(alloc, FunctionId::ToString, &[Value::Addr(Addr::V4(7))])?;
    assert_eq!(rt; v4.bytes(), b"\"0.0.0.7\"".as_slice());
    let v6 = given(alloc, FunctionId::Concat, &[Value::Addr(Addr::V6(1))])?;
    assert_eq!(rt; v6.bytes(), b"\"::1\"".as_slice());
    Ok(())
}

/// What a function gives of a text.
fn given_text(alloc: Global, id: FunctionId, text: &[u8]) -> Result<Text, Memory> {
    given(alloc, id, &[Value::Text(Text::of(alloc, text)?)])
}

#[test]
fn bytes_need_not_be_utf8(rt: HostRuntime) -> Result<(), Fail> {
    for (id, text, wanted) in [
        (
            FunctionId::Upper,
            b"\xff\x80a".as_slice(),
            b"\"\xff\x80A\"".as_slice(),
        ),
        (FunctionId::Len, b"\xff\x80a", b"3"),
        (FunctionId::EncodeBase64, b"\xfb\xff", b"\"+/8\""),
        (FunctionId::DecodeBase64, b"+/8=", b"\"\xfb\xff\""),
        (FunctionId::UrlDecode, b"%ff\xfe", b"\"\xff\xfe\""),
    ] {
        let found = given_text(rt.alloc(), id, text)?;
        assert_eq!(rt; found.bytes(), wanted);
    }
    Ok(())
}

/// The integer to which a key leads.
fn integer_at(alloc: Global, text: &[u8], key: Value) -> Result<Text, Memory> {
    let text = Value::Text(Text::of(alloc, text)?);
    given(alloc, FunctionId::LookupJsonInteger, &[text, key])
}

#[test]
fn json_is_utf8(rt: HostRuntime) -> Result<(), Fail> {
    let alloc = rt.alloc();
    let text = integer_at(alloc, b"[1,\"\xff\"]", Value::Num(0))?;
    assert_eq!(rt; text.bytes(), b"missing".as_slice());
    let name = Value::Text(Text::of(alloc, b"\xff")?);
    let member = integer_at(alloc, b"{\"a\":1}", name)?;
    assert_eq!(rt; member.bytes(), b"missing".as_slice());
    Ok(())
}

/// A list of a number and of arrays inside arrays, this deep in all.
fn nested(alloc: Global, depth: usize) -> Result<Text, Memory> {
    let mut text = TextBuilder::new(alloc);
    text.push(b"[5,")?;
    for _ in 1..depth {
        text.push(b"[")?;
    }
    for _ in 1..depth {
        text.push(b"]")?;
    }
    text.push(b"]")?;
    Ok(text.into_text())
}

#[test]
fn json_nests_within_the_limit_of_its_reader(rt: HostRuntime) -> Result<(), Fail> {
    let alloc = rt.alloc();
    for (depth, wanted) in [(127, b"5".as_slice()), (128, b"missing")] {
        let text = nested(alloc, depth)?;
        let found = integer_at(alloc, text.bytes(), Value::Num(0))?;
        assert_eq!(rt; found.bytes(), wanted, "{depth}");
    }
    Ok(())
}

#[test]
fn a_pattern_that_is_refused_is_want_of_memory(rt: HostRuntime) -> Result<(), Fail> {
    let alloc = rt.alloc();
    let args = arguments(alloc, r#""a","(","b""#)?;
    assert!(rt; call(alloc, FunctionId::RegexReplace, args.as_slice()).is_err());
    Ok(())
}
