use expr_lexer::{LexFault, Token, TokenKind, lex};
use std::alloc::Global;

/// A text, and beneath each of its bytes what it is: a capital letter at the first byte of a token, the same in lower
/// case at its others, and `-` at a blank.
type Row = (&'static str, &'static str);

const CUTS: [Row; 66] = [
    ("", ""),
    (" \t\r\n", "----"),
    ("ssl", "Nnn"),
    ("_a1.b2", "Nnnnnn"),
    ("a.b_c[0]", "NnnnnSDS"),
    ("a[*]", "NSSS"),
    ("a..b", "NSsN"),
    ("0", "D"),
    ("-1", "Dd"),
    ("3-1", "DDd"),
    ("9223372036854775807", "Ddddddddddddddddddd"),
    ("-9223372036854775808", "Dddddddddddddddddddd"),
    ("1..2", "DSsD"),
    ("{1..2,\"b\"}", "SDSsDSTttS"),
    ("255.255.255.255", "Aaaaaaaaaaaaaaa"),
    ("10.0.0.1..10.0.0.9", "AaaaaaaaSsAaaaaaaa"),
    ("::", "Aa"),
    ("face::1", "Aaaaaaa"),
    ("cafe::", "Aaaaaa"),
    ("::ffff:1.2.3.4", "Aaaaaaaaaaaaaa"),
    ("2001:DB8::A", "Aaaaaaaaaaa"),
    ("10.0.0.0/8", "Bbbbbbbbbb"),
    ("10.0.0.0/0", "Bbbbbbbbbb"),
    ("10.0.0.0/999", "Bbbbbbbbbbbb"),
    ("::1/128", "Bbbbbbb"),
    ("\"\"", "Tt"),
    ("\"a b\"", "Ttttt"),
    ("\"\\\"\\\\\"", "Tttttt"),
    ("\"é\n\"", "Ttttt"),
    ("\"a\"eq", "TttRr"),
    ("r\"\"", "Www"),
    ("r\"a\\\"", "Wwwww"),
    ("r#\"x\"y\"#", "Wwwwwwww"),
    ("r#\"a\"#\"b\"", "WwwwwwTtt"),
    ("r########\"x\"########", "Wwwwwwwwwwwwwwwwwwww"),
    ("r", "N"),
    ("r.a", "Nnn"),
    ("$a", "Ll"),
    ("$1_b", "Llll"),
    ("in $office", "Rr-Lllllll"),
    ("()[]{},*", "SSSSSSSS"),
    (".. ! && ^^ || ==", "Ss-S-Ss-Ss-Ss-Ss"),
    ("!= < <= > >= ~", "Ss-S-Ss-S-Ss-S"),
    ("!!=", "SSs"),
    ("not nota", "Rrr-Nnnn"),
    ("and and_", "Rrr-Nnnn"),
    ("xor xor1", "Rrr-Nnnn"),
    ("or ora", "Rr-Nnn"),
    ("eq eqx", "Rr-Nnn"),
    ("ne net", "Rr-Nnn"),
    ("lt lts", "Rr-Nnn"),
    ("le len", "Rr-Nnn"),
    ("gt gt2", "Rr-Nnn"),
    ("ge get", "Rr-Nnn"),
    ("contains contains_", "Rrrrrrrr-Nnnnnnnnn"),
    ("matches matchess", "Rrrrrrr-Nnnnnnnn"),
    ("in in_x", "Rr-Nnnn"),
    ("wildcard wildcards", "Rrrrrrrr-Nnnnnnnnn"),
    ("strict strictly", "Rrrrrr-Nnnnnnnn"),
    ("true truest", "Rrrr-Nnnnnn"),
    ("false falsehood", "Rrrrr-Nnnnnnnnn"),
    ("not.a", "Nnnnn"),
    ("eq10", "Nnnn"),
    ("strict wildcard", "Rrrrrr-Rrrrrrrr"),
    ("len(a)eq 1", "NnnSNSRr-D"),
    ("http.host == \"a\" && !(ssl)", "Nnnnnnnnn-Ss-Ttt-Ss-SSNnnS"),
];

/// A text, and its first place of fault.
const FAULTS: [(&'static str, u32); 42] = [
    ("\"a", 0),
    ("\"\\n\"", 0),
    ("10.0.0.300", 0),
    ("10.0.0", 2),
    ("10.0.0.0/", 8),
    ("10.0.0.0/08", 0),
    ("10.0.0.0/012", 0),
    ("10.0.0.0/1000", 0),
    ("10.0.0.1x", 0),
    ("1.2.3.4.5", 7),
    ("face::1g", 0),
    ("::1/129/8", 7),
    ("1:2:3", 1),
    (":", 0),
    ("007", 0),
    ("00", 0),
    ("-0", 0),
    ("-01", 0),
    ("-", 0),
    ("0x1", 0),
    ("1a", 0),
    ("1.5", 1),
    ("1...2", 3),
    ("9223372036854775808", 0),
    ("-9223372036854775809", 0),
    ("$A", 0),
    ("$", 0),
    ("$aB", 0),
    ("a=b", 1),
    ("a & b", 2),
    ("!==", 2),
    ("<==", 2),
    ("http.Host", 4),
    ("httpX", 0),
    ("eqX", 2),
    ("a.", 1),
    ("r\"a", 1),
    ("r#\"a\"", 1),
    ("r#########\"x\"#########", 1),
    ("a\x0cb", 1),
    ("  é", 2),
    ("ssl \\", 4),
];

fn letter(kind: TokenKind) -> u8 {
    match kind {
        TokenKind::Name => b'N',
        TokenKind::Reserved => b'R',
        TokenKind::Number => b'D',
        TokenKind::Address => b'A',
        TokenKind::Block => b'B',
        TokenKind::Text => b'T',
        TokenKind::RawText => b'W',
        TokenKind::ListName => b'L',
        TokenKind::Symbol => b'S',
    }
}

/// What stands beneath the byte at this place.
fn mark_at(tokens: &[Token], at: u32) -> u8 {
    for token in tokens {
        if token.start == at {
            return letter(token.kind);
        }
        if token.start < at && at < token.end {
            return letter(token.kind).to_ascii_lowercase();
        }
    }
    b'-'
}

fn has_marks(tokens: &[Token], marks: &[u8]) -> bool {
    let mut at: u32 = 0;
    for &mark in marks {
        if mark_at(tokens, at) != mark {
            return false;
        }
        at = at.wrapping_add(1);
    }
    true
}

fn is_cut_as(alloc: Global, text: &[u8], marks: &[u8]) -> bool {
    if 4096 < text.len() || text.len() != marks.len() {
        return false;
    }
    match lex(alloc, text) {
        Ok(tokens) => has_marks(tokens.as_slice(), marks),
        Err(_) => false,
    }
}

fn is_refused_at(alloc: Global, text: &[u8], at: u32) -> bool {
    if 4096 < text.len() {
        return false;
    }
    match lex(alloc, text) {
        Err(LexFault::Lex { at: place }) => place == at,
        _ => false,
    }
}

#[test]
fn texts_are_cut_as_marked(rt: HostRuntime) {
    for (text, marks) in CUTS {
        assert!(rt;
            is_cut_as(rt.alloc(), text.as_bytes(), marks.as_bytes()),
            "{text}"
        );
    }
}

#[test]
fn faults_stand_at_their_first_place(rt: HostRuntime) {
    for (text, at) in FAULTS {
        assert!(rt; is_refused_at(rt.alloc(), text.as_bytes(), at), "{text}");
    }
}
