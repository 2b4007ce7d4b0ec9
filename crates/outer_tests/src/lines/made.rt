use std::test::Fail;
use trace_form::{Made, made_line};

const DEPLOYMENT: &str =
    r#"{"deploy":{"rulesets":[{"id":"fw","kind":"zone","phase":"http_request_firewall_custom","rules":[{"id":"b1","expression":"http.request.uri.path eq \"/p7\"","action":"block"}]},{"id":"rl","kind":"zone","phase":"http_ratelimit","rules":[{"id":"l1","expression":"true","action":"block","ratelimit":{"characteristics":["ip.src"],"period":10,"requests_per_period":5,"mitigation_timeout":10}}]}]}}
"#;

const REQUEST: &str =
    r#"{"at":728,"ip":"10.0.0.14","method":"GET","target":"/p5","headers":[["host","a.example"]]}
"#;

const LATER: &str =
    r#"{"at":2034,"ip":"10.0.0.15","method":"GET","target":"/p3","headers":[["host","a.example"]]}
"#;

#[test]
fn the_first_three_lines_are_made(rt: HostRuntime) -> Result<(), Fail> {
    let alloc = rt.alloc();
    let mut state = Made::new(7);
    let deployment = made_line(alloc, 7, 0, &mut state)?;
    let request = made_line(alloc, 7, 1, &mut state)?;
    let later = made_line(alloc, 7, 2, &mut state)?;
    assert_eq!(rt; deployment.bytes(), DEPLOYMENT.as_bytes());
    assert_eq!(rt; request.bytes(), REQUEST.as_bytes());
    assert_eq!(rt; later.bytes(), LATER.as_bytes());
    Ok(())
}
