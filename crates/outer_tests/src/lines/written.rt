use edge_base::{
    Addr, Header, Headers, Memory, Moment, Request, RuleName, RuleNames, Text, TextBuilder,
};
use rate_plain::{Answer, Counted, Counts};
use ruleset_model::{Response, Verdict, VerdictKind};
use std::alloc::Global;
use std::test::Fail;
use trace_form::{LineParts, line_of};

/// A verdict, the rules that were noted, the target, the position of the first step, a letter for what each step was told,
/// until when, and the line that is written.
type Answered = (
    &'static str,
    &'static str,
    &'static str,
    u64,
    &'static str,
    u64,
    &'static str,
);

const ANSWERED: [Answered; 13] = [
    ("pass", "", "/", 0, "", 0, "1 v1 pass - / -\n"),
    (
        "pass",
        "",
        "/a b%,\x7f",
        0,
        "",
        0,
        "1 v1 pass - /a%20b%25%2C%7F -\n",
    ),
    ("pass", "", "", 0, "", 0, "1 v1 pass -  -\n"),
    (
        "block",
        "",
        "/admin",
        0,
        "",
        0,
        "1 v1 block:403 fw/r1 /admin -\n",
    ),
    (
        "challenge",
        "a1,z1,a1",
        "/",
        0,
        "",
        0,
        "1 v1 challenge fw/r1 / - log=fw/a1,fw/z1,fw/a1\n",
    ),
    (
        "redirect",
        "",
        "/old?k=1",
        0,
        "",
        0,
        "1 v1 redirect:301 fw/r1 /old?k=1 - to=https://b.example/new?k=1%2C%202\n",
    ),
    ("pass", "", "/", 0, "p", 0, "1 v1 pass - / 0:pass\n"),
    (
        "limit",
        "",
        "/",
        2,
        "o",
        62_000,
        "1 v1 block:429 fw/r1 / 2:over@62000\n",
    ),
    (
        "pass",
        "",
        "/login",
        0,
        "pp",
        0,
        "1 v1 pass - /login 0:pass,1:pass\n",
    ),
    (
        "pass",
        "",
        "/login",
        2,
        "po",
        61_000,
        "1 v1 pass - /login 2:pass,3:over@61000\n",
    ),
    (
        "pass",
        "",
        "/",
        9,
        "fp",
        0,
        "1 v1 pass - / 9:full,10:pass\n",
    ),
    (
        "limit",
        "",
        "/",
        1,
        "o",
        9_007_199_254_800_992,
        "1 v1 block:429 fw/r1 / 1:over@9007199254800992\n",
    ),
    (
        "block",
        "a1",
        "/",
        7,
        "p",
        0,
        "1 v1 block:403 fw/r1 / 7:pass log=fw/a1\n",
    ),
];

/// The headers that came and the headers as they were judged, those of the reply before and after, and what is written
/// behind the steps. Headers stand after each other by `|`, a reply has a `>` between its two.
type Rewritten = (&'static str, &'static str, &'static str, &'static str);

const REWRITTEN: [Rewritten; 11] = [
    ("", "", "", ""),
    ("host:a", "host:a", "", ""),
    (
        "host:a.example",
        "host:a.example|x-tag:a b",
        "",
        " req=host:a.example,x-tag:a%20b",
    ),
    ("host:a", "", "", " req=-"),
    ("X-Tag:a", "x-tag:a", "", " req=x-tag:a"),
    ("a:1|b:2", "b:2|a:1", "", " req=b:2,a:1"),
    ("", "a:x:y%,\t", "", " req=a:x:y%25%2C%09"),
    ("", "", "Server:x>", " rep=-"),
    ("", "", "Server:x>Server:x", ""),
    ("", "a:", ">b:2", " req=a: rep=b:2"),
    ("a:1", "a:1", "a:1>a:2|c:", " rep=a:2,c:"),
];

fn header_of(alloc: Global, text: &str) -> Result<Header, Memory> {
    let (name, value) = text.split_once(':').ok_or(Memory)?;
    Ok(Header {
        name: Text::of(alloc, name.as_bytes())?,
        value: Text::of(alloc, value.as_bytes())?,
    })
}

fn headers_of(alloc: Global, text: &str) -> Result<Headers, Memory> {
    let mut headers = Headers::new(alloc);
    for header in text.split("|") {
        if !header.is_empty() {
            headers.push(header_of(alloc, header)?)?;
        }
    }
    Ok(headers)
}

fn name(alloc: Global, rule: &str) -> Result<RuleName, Memory> {
    Ok(RuleName {
        set_id: Text::of(alloc, b"fw")?,
        rule: Text::of(alloc, rule.as_bytes())?,
    })
}

fn rule_of(alloc: Global, kind: &str) -> Result<Option<RuleName>, Memory> {
    if kind == "pass" {
        Ok(None)
    } else {
        Ok(Some(name(alloc, "r1")?))
    }
}

fn noted_of(alloc: Global, rules: &str) -> Result<RuleNames, Memory> {
    let mut names = RuleNames::new(alloc);
    for rule in rules.split(",") {
        if !rule.is_empty() {
            names.push(name(alloc, rule)?)?;
        }
    }
    Ok(names)
}

fn response(alloc: Global, status_code: u16) -> Result<Response, Memory> {
    Ok(Response {
        status_code,
        content: Text::of(alloc, b"blocked\n")?,
        content_type: Text::of(alloc, b"text/plain")?,
    })
}

fn kind_of(alloc: Global, kind: &str) -> Result<VerdictKind, Memory> {
    match kind {
        "block" => Ok(VerdictKind::Block(response(alloc, 403)?)),
        "limit" => Ok(VerdictKind::Block(response(alloc, 429)?)),
        "challenge" => Ok(VerdictKind::Challenge),
        "redirect" => Ok(VerdictKind::Redirect {
            status: 301,
            target: Text::of(alloc, b"https://b.example/new?k=1, 2")?,
        }),
        _ => Ok(VerdictKind::Pass),
    }
}

fn verdict_of(alloc: Global, kind: &str, noted: &str) -> Result<Verdict, Memory> {
    let verdict = Verdict {
        kind: kind_of(alloc, kind)?,
        rule: rule_of(alloc, kind)?,
        noted: noted_of(alloc, noted)?,
    };
    verdict.copy(alloc)
}

fn request_for(alloc: Global, target: &str, headers: &str) -> Result<Request, Memory> {
    Ok(Request {
        at: Moment::of(0).ok_or(Memory)?,
        from: Addr::V4(0),
        ssl: false,
        method: Text::of(alloc, b"GET")?,
        target: Text::of(alloc, target.as_bytes())?,
        minor: 1,
        headers: headers_of(alloc, headers)?,
        body: Text::of(alloc, b"")?,
    })
}

fn answer_of(letter: u8, until: u64) -> Answer {
    match letter {
        b'o' => Answer::Over { until },
        b'f' => Answer::Full,
        _ => Answer::Pass,
    }
}

fn counts_from(alloc: Global, first: u64, letters: &str, until: u64) -> Result<Counts, Memory> {
    let mut counts = Counts::new(alloc);
    let mut position = first;
    for &letter in letters.as_bytes() {
        let answer = answer_of(letter, until);
        counts.push(Counted { position, answer })?;
        position = position.wrapping_add(1);
    }
    Ok(counts)
}

/// The parts of a line of this verdict, target and steps.
fn answered_parts(alloc: Global, row: &Answered) -> Result<LineParts, Memory> {
    let (kind, noted, target, first, letters, until, _) = row;
    Ok(LineParts {
        number: 1,
        version: 1,
        verdict: verdict_of(alloc, kind, noted)?,
        request: request_for(alloc, target, "")?,
        came: Headers::new(alloc),
        counts: counts_from(alloc, *first, letters, *until)?,
        reply: None,
    })
}

#[test]
fn requests_are_answered(rt: HostRuntime) -> Result<(), Fail> {
    let alloc = rt.alloc();
    for row in &ANSWERED {
        let parts = answered_parts(alloc, row)?;
        let text = line_of(alloc, &parts)?;
        assert!(rt; text.bytes() == row.6.as_bytes(), "{}", row.6);
    }
    Ok(())
}

fn reply_of(alloc: Global, reply: &str) -> Result<Option<(Headers, Headers)>, Memory> {
    match reply.split_once('>') {
        Some((before, after)) => {
            let before = headers_of(alloc, before)?;
            let after = headers_of(alloc, after)?;
            Ok(Some((before, after)))
        }
        None => Ok(None),
    }
}

/// The parts of a line of these headers.
fn rewritten_parts(alloc: Global, row: &Rewritten) -> Result<LineParts, Memory> {
    let (came, now, reply, _) = row;
    Ok(LineParts {
        number: 12,
        version: 3,
        verdict: verdict_of(alloc, "pass", "")?,
        request: request_for(alloc, "/", now)?,
        came: headers_of(alloc, came)?,
        counts: Counts::new(alloc),
        reply: reply_of(alloc, reply)?,
    })
}

/// The line of these headers, with what is told of them.
fn rewritten_line(alloc: Global, told: &str) -> Result<Text, Memory> {
    let mut line = TextBuilder::new(alloc);
    line.push(b"12 v3 pass - / -")?;
    line.push(told.as_bytes())?;
    line.push(b"\n")?;
    Ok(line.into_text())
}

#[test]
fn changed_headers_are_told(rt: HostRuntime) -> Result<(), Fail> {
    let alloc = rt.alloc();
    for row in &REWRITTEN {
        let parts = rewritten_parts(alloc, row)?;
        let text = line_of(alloc, &parts)?;
        let line = rewritten_line(alloc, row.3)?;
        assert!(rt; text.bytes() == line.bytes(), "{}", row.3);
    }
    Ok(())
}
