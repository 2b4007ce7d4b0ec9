//! `make`: the lines that it writes, the words that it takes, and each write failing in turn.

use super::{Case, check, check_write, run, steady};
use edge_main::{Status, lane_hashers};
use std::test::Fail;

const DEPLOYED: &str =
    r#"{"deploy":{"rulesets":[{"id":"fw","kind":"zone","phase":"http_request_firewall_custom","rules":[{"id":"b1","expression":"http.request.uri.path eq \"/p7\"","action":"block"}]},{"id":"rl","kind":"zone","phase":"http_ratelimit","rules":[{"id":"l1","expression":"true","action":"block","ratelimit":{"characteristics":["ip.src"],"period":10,"requests_per_period":5,"mitigation_timeout":10}}]}]}}
"#;

const MADE: &str =
    r#"{"deploy":{"rulesets":[{"id":"fw","kind":"zone","phase":"http_request_firewall_custom","rules":[{"id":"b1","expression":"http.request.uri.path eq \"/p7\"","action":"block"}]},{"id":"rl","kind":"zone","phase":"http_ratelimit","rules":[{"id":"l1","expression":"true","action":"block","ratelimit":{"characteristics":["ip.src"],"period":10,"requests_per_period":5,"mitigation_timeout":10}}]}]}}
{"at":728,"ip":"10.0.0.14","method":"GET","target":"/p5","headers":[["host","a.example"]]}
"#;

#[test]
fn requests_are_made_from_a_seed(rt: HostRuntime) -> Result<(), Fail> {
    let alloc = rt.alloc();
    let cases: [(&[&str], &str); 5] = [
        (&["make", "7", "0"], DEPLOYED),
        (&["make", "18446744073709551615", "0"], DEPLOYED),
        (&["make", "7", "1"], MADE),
        (&["--", "make", "7", "1"], MADE),
        (&["make", "7", "--", "1"], MADE),
    ];
    for (words, out) in cases {
        let ran = run(
            alloc,
            lane_hashers(&rt, alloc)?,
            words,
            "",
            steady(alloc, 64),
        )?;
        check(&rt, &ran, Status::Done, out.as_bytes(), b"");
    }
    Ok(())
}

#[test]
fn other_words_behind_make_are_no_command(rt: HostRuntime) -> Result<(), Fail> {
    let alloc = rt.alloc();
    let cases: [&[&str]; 17] = [
        &["make"],
        &["make", "7"],
        &["make", "7", "1", "2"],
        &["make", "7", "10000001"],
        &["make", "18446744073709551616", "1"],
        &["make", "07", "1"],
        &["make", "+7", "1"],
        &["make", "-7", "1"],
        &["make", "", "1"],
        &["make", "7", "1x"],
        &["make", "7", "1", "--run", "--run"],
        &["make", "7", "1", "--", "--run"],
        &["make", "7", "--run"],
        &["check", "--run"],
        &["make", "7", "--", "1", "--"],
        &["check", "7", "1"],
        &["--", "--", "check"],
    ];
    for words in cases {
        let ran = run(
            alloc,
            lane_hashers(&rt, alloc)?,
            words,
            "",
            steady(alloc, 64),
        )?;
        check(&rt, &ran, Status::Usage, b"", b"edge: usage\n");
    }
    Ok(())
}

#[test]
fn each_write_of_made_lines_may_fail(rt: HostRuntime) -> Result<(), Fail> {
    let case = Case {
        words: &["make", "7", "1"],
        input: "",
        whole: MADE,
    };
    for k in 0..10u16 {
        let written = usize::from(k).saturating_mul(64);
        check_write(&rt, &case, 64, k, written)?;
    }
    Ok(())
}
