use expr_parser::{ParseFault, parse, print};
use std::alloc::Global;
use std::process::Abort;
use std::test::Fail;

/// The tree of a text has this print, and so has the tree of the print.
fn is_printed(rt: &impl Abort, alloc: Global, text: &str, want: &str) -> Result<(), Fail> {
    let tree = parse(alloc, text.as_bytes())?;
    let printed = print(alloc, &tree)?;
    assert_eq!(rt; printed.bytes(), want.as_bytes(), "{text}");
    let again = parse(alloc, printed.bytes())?;
    assert_eq!(rt; print(alloc, &again)?, printed, "{text}");
    Ok(())
}

/// A tree is shown by its print: where parentheses stand in it, a chain is a member of a chain.
#[test]
fn texts_have_these_trees(rt: HostRuntime) -> Result<(), Fail> {
    for (text, want) in [
        ("ssl", "ssl"),
        (
            "http.host == \"a\" && !(ssl)",
            "http.host eq \"a\" and not ssl",
        ),
        ("a != \"b\"", "a ne \"b\""),
        ("a < 1", "a lt 1"),
        ("a<=1", "a le 1"),
        ("a > -1", "a gt -1"),
        ("a>=0", "a ge 0"),
        ("(ssl or ssl) or ssl", "(ssl or ssl) or ssl"),
        ("ssl or ssl or ssl", "ssl or ssl or ssl"),
        ("ssl or (ssl or ssl)", "ssl or (ssl or ssl)"),
        ("a or b and c", "a or b and c"),
        ("a and b or c", "a and b or c"),
        ("(a or b) and c", "(a or b) and c"),
        ("a and (b and c)", "a and (b and c)"),
        ("a xor b and c", "a xor b and c"),
        ("(a xor b) and c", "(a xor b) and c"),
        ("a or b xor c", "a or b xor c"),
        ("(a or b) xor c", "(a or b) xor c"),
        ("a xor (b xor c)", "a xor (b xor c)"),
        ("a || b ^^ c", "a or b xor c"),
        ("(a and b) or c", "a and b or c"),
        ("((a))", "a"),
        ("not a and b", "not a and b"),
        ("not (a and b)", "not (a and b)"),
        ("!(!a)", "not not a"),
        ("not a eq \"x\"", "not a eq \"x\""),
        ("\"a\"", "\"a\""),
        ("r\"a\\b\"", "\"a\\\\b\""),
        ("r#\"a \"b\"\"#", "\"a \\\"b\\\"\""),
        ("-7", "-7"),
        ("-9223372036854775808", "-9223372036854775808"),
        ("10.0.0.1", "10.0.0.1"),
        ("2001:DB8::1", "2001:db8::1"),
        ("true", "true"),
        ("false eq 1", "false eq 1"),
        ("a [ 0 ] [ \"k\" ] [ * ]", "a[0][\"k\"][*]"),
        ("a[r\"k\"]", "a[\"k\"]"),
        ("f ( a , \"b\" , 1 )", "f(a, \"b\", 1)"),
        ("f((a or b), (c))", "f(a or b, c)"),
        (
            "f(g(a)[*])[0] contains \"x\"",
            "f(g(a)[*])[0] contains \"x\"",
        ),
        ("a matches r\"^a\"", "a matches \"^a\""),
        ("a ~ \"b\"", "a matches \"b\""),
        ("a wildcard \"*\"", "a wildcard \"*\""),
        ("a strict\n wildcard \"*\"", "a strict wildcard \"*\""),
        ("a in $office_1", "a in $office_1"),
        ("ip.src in {10.0.0.0/8}", "ip.src in { 10.0.0.0/8 }"),
        (
            "a in{10.0.0.1..10.0.0.9 ::1/128}",
            "a in { 10.0.0.1..10.0.0.9 ::1/128 }",
        ),
        (
            "a in {1 -3..5 \"x\" r\"y\"}",
            "a in { 1 -3..5 \"x\" \"y\" }",
        ),
        (
            "not ssl and a eq \"a\" or a eq \"b\"",
            "not ssl and a eq \"a\" or a eq \"b\"",
        ),
        ("not (a or b) xor (not c)", "not (a or b) xor not c"),
    ] {
        is_printed(&rt, rt.alloc(), text, want)?;
    }
    Ok(())
}

#[test]
fn texts_have_these_faults(rt: HostRuntime) {
    for (text, want) in [
        ("", ParseFault::Syntax { at: 0 }),
        ("ssl or", ParseFault::Syntax { at: 6 }),
        ("ssl)", ParseFault::Syntax { at: 3 }),
        ("ssl or  ", ParseFault::Syntax { at: 8 }),
        ("\"a", ParseFault::Lex { at: 0 }),
        (") \"a", ParseFault::Lex { at: 2 }),
        ("10.0.0.300", ParseFault::Lex { at: 0 }),
        ("true[0]", ParseFault::Syntax { at: 4 }),
        ("(\"a\")", ParseFault::Syntax { at: 1 }),
        ("\"a\" eq \"b\"", ParseFault::Syntax { at: 4 }),
        ("f()", ParseFault::Syntax { at: 2 }),
        ("f(a,)", ParseFault::Syntax { at: 4 }),
        ("a in {}", ParseFault::Syntax { at: 6 }),
        ("a in {1..}", ParseFault::Syntax { at: 9 }),
        ("a in {1..10.0.0.1}", ParseFault::Syntax { at: 9 }),
        ("a[-1]", ParseFault::Syntax { at: 2 }),
        ("a b", ParseFault::Syntax { at: 2 }),
        ("a eq b", ParseFault::Syntax { at: 5 }),
        ("a strict \"x\"", ParseFault::Syntax { at: 9 }),
        ("a contains 1", ParseFault::Syntax { at: 11 }),
        ("a and \"x\"", ParseFault::Syntax { at: 6 }),
        ("(a, b)", ParseFault::Syntax { at: 2 }),
    ] {
        assert_eq!(rt;
            parse(rt.alloc(), text.as_bytes()).err(),
            Some(want),
            "{text}"
        );
    }
}

/// A text of these pieces, the middle one so many times.
fn repeated(
    rt: &HostRuntime,
    first: &str,
    piece: &str,
    times: usize,
    last: &str,
) -> Result<Vec<u8>, Fail> {
    let mut text = Vec::from_slice(rt.alloc(), first.as_bytes())?;
    for _ in 0..times {
        text.extend_from_slice(piece.as_bytes())?;
    }
    text.extend_from_slice(last.as_bytes())?;
    Ok(text)
}

#[test]
fn limits_are_exact(rt: HostRuntime) -> Result<(), Fail> {
    for (first, piece, times, last, want) in [
        ("http.host eq \"", "a", 4081, "\"", None),
        (
            "http.host eq \"",
            "a",
            4082,
            "\"",
            Some(ParseFault::TooLong),
        ),
        ("", "!", 32, "a", None),
        ("", "!", 33, "a", Some(ParseFault::TooDeep)),
        ("", "!", 4095, "a", Some(ParseFault::TooDeep)),
        ("", "!", 4095, "", Some(ParseFault::Syntax { at: 4095 })),
        ("", "(", 1000, "a", Some(ParseFault::Syntax { at: 1001 })),
        ("a", "[0]", 1365, "", None),
    ] {
        let text = repeated(&rt, first, piece, times, last)?;
        assert_eq!(rt;
            parse(rt.alloc(), text.as_slice()).err(),
            want,
            "{times} {piece}"
        );
    }
    let mut nested = repeated(&rt, "", "(", 32, "ssl")?;
    nested.extend_from_slice(repeated(&rt, "", ")", 32, "")?.as_slice())?;
    assert!(rt; parse(rt.alloc(), nested.as_slice()).is_ok());
    nested.insert(0, b'(')?;
    nested.push(b')')?;
    assert_eq!(rt;
        parse(rt.alloc(), nested.as_slice()).err(),
        Some(ParseFault::TooDeep)
    );
    Ok(())
}
