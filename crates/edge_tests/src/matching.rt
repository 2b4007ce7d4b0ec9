use edge_base::{Memory, Text, TextBuilder};
use std::alloc::Global;
use std::process::Abort;
use std::test::Fail;
use text_match::{
    Pattern, PatternFault, Wild, WildFault, fill, patterns_are_shared, wildcards_are_shared,
};

/// What the stars of a wildcard stand for, each in brackets, or why there is nothing to show.
fn takes_of(alloc: Global, pattern: &str, text: &str, strict: bool) -> Result<Text, Memory> {
    let wild = match Wild::build(alloc, pattern.as_bytes()) {
        Ok(wild) => wild,
        Err(WildFault::DoubleStar) => return Text::of(alloc, b"two stars"),
        Err(WildFault::BadEscape) => return Text::of(alloc, b"bad escape"),
        Err(WildFault::Memory) => return Err(Memory),
    };
    let mut shown = TextBuilder::new(alloc);
    match wild.takes(alloc, text.as_bytes(), strict)? {
        None => shown.push(b"no")?,
        Some(takes) => {
            shown.push(b"yes")?;
            for taken in takes.as_slice() {
                shown.push(b"<")?;
                shown.push(taken.bytes())?;
                shown.push(b">")?;
            }
        }
    }
    Ok(shown.into_text())
}

/// A wildcard, a text, and what is shown of their match.
type Case = (&'static str, &'static str, &'static str);

fn shows_cases(rt: &impl Abort, alloc: Global, strict: bool, cases: &[Case]) -> Result<(), Memory> {
    for &(pattern, text, wanted) in cases {
        let shown = takes_of(alloc, pattern, text, strict)?;
        assert_eq!(rt; shown.bytes(), wanted.as_bytes(), "{pattern:?} on {text:?}");
    }
    Ok(())
}

#[test]
fn wildcards_match_whole_texts_where_case_counts(rt: HostRuntime) -> Result<(), Fail> {
    let cases = [
        ("", "", "yes"),
        ("", "a", "no"),
        ("a", "", "no"),
        ("a", "a", "yes"),
        ("a", "ab", "no"),
        ("b", "ab", "no"),
        ("*", "", "yes<>"),
        ("*", "abc", "yes<abc>"),
        ("*.EXAMPLE.com", "a.example.com", "no"),
        ("*.example.com", "example.com", "no"),
        ("https://*/*", "https://a/b/c", "yes<a><b/c>"),
        ("*a*", "banana", "yes<b><nana>"),
        ("a*a", "a", "no"),
        ("a*a", "aa", "yes<>"),
        ("*ab", "abab", "yes<ab>"),
        ("*ab*ab", "abab", "yes<><>"),
        ("*a*b", "aabb", "yes<><ab>"),
        ("*aab", "aaab", "yes<a>"),
        ("*a*a*a*b", "aaaaaaaa", "no"),
        ("*a*a*a*b", "aaaab", "yes<><><><a>"),
        (r"\*", "*", "yes"),
        (r"\*", "a", "no"),
        (r"\\", r"\", "yes"),
        (r"*\**", "a*b*c", "yes<a><b*c>"),
        (r"\**", "*", "yes<>"),
        (r"*\\*", r"a\b", "yes<a><b>"),
        ("é*", "éà", "yes<à>"),
        ("*\u{ff}", "ÿÿ", "yes<ÿ>"),
    ];
    shows_cases(&rt, rt.alloc(), true, &cases)?;
    Ok(())
}

#[test]
fn wildcards_match_whole_texts_where_case_is_ignored(rt: HostRuntime) -> Result<(), Fail> {
    let cases = [
        ("*.EXAMPLE.com", "a.example.com", "yes<a>"),
        ("*.EXAMPLE.com", "example.com", "no"),
        ("A*B", "aXb", "yes<X>"),
        ("*Ab*", "xxaBAB", "yes<xx><AB>"),
        ("*aa*", "AAA", "yes<><A>"),
        ("*aab*", "xaAAb", "yes<xa><>"),
        ("*abac*", "ABABAC!", "yes<AB><!>"),
        ("*abab*", "abaabaB", "yes<aba><>"),
        ("*abab*", "abaabaAB", "no"),
        ("É", "é", "no"),
        ("[*", "{a", "no"),
        ("/a", "/A", "yes"),
        ("a**b", "a", "two stars"),
        ("**\\a", "a", "two stars"),
        ("\\a**", "a", "bad escape"),
        ("a\\b", "a", "bad escape"),
        ("a\\", "a", "bad escape"),
        ("*\\", "a", "bad escape"),
    ];
    shows_cases(&rt, rt.alloc(), false, &cases)?;
    Ok(())
}

#[test]
fn matches_agrees_with_takes(rt: HostRuntime) -> Result<(), Fail> {
    let wild = Wild::build(rt.alloc(), b"*.EXAMPLE.com")?;
    assert!(rt; wild.matches(b"a.example.com", false));
    assert!(rt; !wild.matches(b"a.example.com", true));
    assert!(rt; !wild.matches(b"example.com", false));
    assert!(rt; wild.matches(b"\xff.EXAMPLE.com", true));
    wildcards_are_shared(&wild);
    Ok(())
}

#[test]
fn patterns_match_anywhere_and_replace_once(rt: HostRuntime) -> Result<(), Fail> {
    let alloc = rt.alloc();
    let start = Pattern::build(alloc, b"^a")?;
    assert!(rt; start.is_match(alloc, b"a.example")?);
    assert!(rt; !start.is_match(alloc, b"b.a")?);
    patterns_are_shared(&start);
    let number = Pattern::build(alloc, b"/a/([0-9]+)(x)?")?;
    for (text, replacement, wanted) in [
        ("/a/7", "/b/${1}", "/b/7"),
        ("-/a/7/a/8", "${1}", "-7/a/8"),
        ("/a/", "/b/${1}", "/a/"),
        ("/a/7", "<${2}${3}${8}>", "<>"),
        ("/a/7x", "${2}${1}", "x7"),
        ("/a/7", "${0}${9}$1$$${10}${1", "${0}${9}$1$$${10}${1"),
        ("/a/7", "$${1}}", "$7}"),
    ] {
        let replaced = number.replace_first(alloc, text.as_bytes(), replacement.as_bytes())?;
        assert_eq!(rt;
            replaced.bytes(),
            wanted.as_bytes(),
            "{replacement:?} in {text:?}"
        );
    }
    for text in ["(", "a{2,1}", "\\", "*"] {
        assert_eq!(rt;
            Pattern::build(alloc, text.as_bytes()).err(),
            Some(PatternFault::Syntax)
        );
    }
    Ok(())
}

#[test]
fn takes_fill_a_replacement(rt: HostRuntime) -> Result<(), Fail> {
    let alloc = rt.alloc();
    let wild = Wild::build(alloc, b"https://*/*")?;
    let takes = wild
        .takes(alloc, b"https://a/b/c", false)?
        .ok_or("no match")?;
    let filled = fill(alloc, b"${1}|${2}", takes.as_slice())?;
    assert_eq!(rt; filled.bytes(), b"a|b/c".as_slice());
    Ok(())
}

/// So many letters `a`.
fn repeated(alloc: Global, count: usize) -> Result<Vec<u8>, Fail> {
    Ok(Vec::from_elem(alloc, b'a', count)?)
}

#[test]
fn a_pattern_of_200_bytes_is_built(rt: HostRuntime) -> Result<(), Fail> {
    let alloc = rt.alloc();
    let long = Pattern::build(alloc, repeated(alloc, 200)?.as_slice())?;
    assert!(rt; long.is_match(alloc, repeated(alloc, 201)?.as_slice())?);
    assert!(rt; !long.is_match(alloc, repeated(alloc, 199)?.as_slice())?);
    Ok(())
}
