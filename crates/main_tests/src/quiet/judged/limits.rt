//! Limits: what is asked, what is counted and what is told.

use super::{Row, judges};
use std::test::Fail;

const ROWS: [Row; 15] = [
    Row {
        name: "a limit",
        config: r#"{"rulesets":[
{"id":"rl","kind":"zone","phase":"http_ratelimit","rules":[
  {"id":"r","expression":"true","action":"block","ratelimit":{"characteristics":["ip.src"],"period":10,"requests_per_period":2,"mitigation_timeout":60}}]}]}"#,
        requests: r#"{"at":0,"ip":"10.0.0.1","method":"GET","target":"/","headers":[["host","a.example"]]}
{"at":1000,"ip":"10.0.0.1","method":"GET","target":"/","headers":[["host","a.example"]]}
{"at":2000,"ip":"10.0.0.1","method":"GET","target":"/","headers":[["host","a.example"]]}
{"at":61999,"ip":"10.0.0.1","method":"GET","target":"/","headers":[["host","a.example"]]}
{"at":62000,"ip":"10.0.0.1","method":"GET","target":"/","headers":[["host","a.example"]]}
"#,
        wanted: "1 v1 pass - / 0:pass
2 v1 pass - / 1:pass
3 v1 block:429 rl/r / 2:over@62000
4 v1 block:429 rl/r / 3:over@62000
5 v1 pass - / 4:pass
",
    },
    Row {
        name: "a limit's log and challenge",
        config: r#"{"rulesets":[
{"id":"rl","kind":"zone","phase":"http_ratelimit","rules":[
  {"id":"l","expression":"true","action":"log","ratelimit":{"characteristics":["ip.src"],"period":10,"requests_per_period":1,"mitigation_timeout":60}},
  {"id":"c","expression":"true","action":"challenge","ratelimit":{"characteristics":["ip.src"],"period":10,"requests_per_period":1,"mitigation_timeout":0}}]}]}"#,
        requests: r#"{"at":0,"ip":"10.0.0.1","method":"GET","target":"/","headers":[["host","a.example"]]}
{"at":0,"ip":"10.0.0.1","method":"GET","target":"/","headers":[["host","a.example"]]}
"#,
        wanted: "1 v1 pass - / 0:pass,1:pass
2 v1 challenge rl/c / 2:over@60000,3:over@0 log=rl/l
",
    },
    Row {
        name: "a limit's own response",
        config: r#"{"rulesets":[
{"id":"rl","kind":"zone","phase":"http_ratelimit","rules":[
  {"id":"r","expression":"true","action":"block","action_parameters":{"response":{"status_code":430}},"ratelimit":{"characteristics":["ip.src"],"period":10,"requests_per_period":1,"mitigation_timeout":60}}]}]}"#,
        requests: r#"{"at":0,"ip":"10.0.0.1","method":"GET","target":"/","headers":[["host","a.example"]]}
{"at":0,"ip":"10.0.0.1","method":"GET","target":"/","headers":[["host","a.example"]]}
"#,
        wanted: "1 v1 pass - / 0:pass
2 v1 block:430 rl/r / 1:over@60000
",
    },
    Row {
        name: "a false condition asks nothing",
        config: r#"{"rulesets":[
{"id":"rl","kind":"zone","phase":"http_ratelimit","rules":[
  {"id":"r","expression":"ssl","action":"block","ratelimit":{"characteristics":["ip.src"],"period":10,"requests_per_period":1,"mitigation_timeout":60}}]}]}"#,
        requests: r#"{"at":0,"ip":"10.0.0.1","method":"GET","target":"/","headers":[["host","a.example"]]}
{"at":0,"ip":"10.0.0.1","method":"GET","target":"/","headers":[["host","a.example"]],"ssl":true}
{"at":0,"ip":"10.0.0.1","method":"GET","target":"/","headers":[["host","a.example"]]}
{"at":0,"ip":"10.0.0.1","method":"GET","target":"/","headers":[["host","a.example"]],"ssl":true}
"#,
        wanted: "1 v1 pass - / -
2 v1 pass - / 0:pass
3 v1 pass - / -
4 v1 block:429 rl/r / 1:over@60000
",
    },
    Row {
        name: "a false condition that is counted asks and doesn't act",
        config: r#"{"rulesets":[
{"id":"rl","kind":"zone","phase":"http_ratelimit","rules":[
  {"id":"r","expression":"ssl","action":"block","ratelimit":{"characteristics":["ip.src"],"period":10,"requests_per_period":1,"mitigation_timeout":60,"counting_expression":"true"}}]}]}"#,
        requests: r#"{"at":0,"ip":"10.0.0.1","method":"GET","target":"/","headers":[["host","a.example"]]}
{"at":0,"ip":"10.0.0.1","method":"GET","target":"/","headers":[["host","a.example"]]}
{"at":0,"ip":"10.0.0.1","method":"GET","target":"/","headers":[["host","a.example"]],"ssl":true}
"#,
        wanted: "1 v1 pass - / 0:pass
2 v1 pass - / 1:over@60000
3 v1 block:429 rl/r / 2:over@60000
",
    },
    Row {
        name: "a true condition that isn't counted asks and doesn't add",
        config: r#"{"rulesets":[
{"id":"rl","kind":"zone","phase":"http_ratelimit","rules":[
  {"id":"r","expression":"true","action":"block","ratelimit":{"characteristics":["ip.src"],"period":10,"requests_per_period":1,"mitigation_timeout":60,"counting_expression":"ssl"}}]}]}"#,
        requests: r#"{"at":0,"ip":"10.0.0.1","method":"GET","target":"/","headers":[["host","a.example"]]}
{"at":0,"ip":"10.0.0.1","method":"GET","target":"/","headers":[["host","a.example"]]}
{"at":0,"ip":"10.0.0.1","method":"GET","target":"/","headers":[["host","a.example"]],"ssl":true}
{"at":0,"ip":"10.0.0.1","method":"GET","target":"/","headers":[["host","a.example"]]}
{"at":0,"ip":"10.0.0.1","method":"GET","target":"/","headers":[["host","a.example"]],"ssl":true}
{"at":0,"ip":"10.0.0.1","method":"GET","target":"/","headers":[["host","a.example"]]}
"#,
        wanted: "1 v1 pass - / 0:pass
2 v1 pass - / 1:pass
3 v1 pass - / 2:pass
4 v1 pass - / 3:pass
5 v1 block:429 rl/r / 4:over@60000
6 v1 block:429 rl/r / 5:over@60000
",
    },
    Row {
        name: "a rule that counts by the reply is kept",
        config: r#"{"rulesets":[
{"id":"rl","kind":"zone","phase":"http_ratelimit","rules":[
  {"id":"r","expression":"ssl","action":"block","ratelimit":{"characteristics":["ip.src"],"period":10,"requests_per_period":1,"mitigation_timeout":60,"counting_expression":"http.response.code eq 404"}}]}]}"#,
        requests: r#"{"at":0,"ip":"10.0.0.1","method":"GET","target":"/","headers":[["host","a.example"]]}
{"at":0,"ip":"10.0.0.1","method":"GET","target":"/","headers":[["host","a.example"]],"ssl":true}
"#,
        wanted: "1 v1 pass - / -
2 v1 pass - / 0:pass
",
    },
    Row {
        name: "kept whatever is skipped later",
        config: r#"{"rulesets":[
{"id":"rl","kind":"zone","phase":"http_ratelimit","rules":[
  {"id":"r","expression":"true","action":"block","ratelimit":{"characteristics":["ip.src"],"period":10,"requests_per_period":1,"mitigation_timeout":60,"counting_expression":"http.response.code eq 404"}}]},
{"id":"fm","kind":"zone","phase":"http_request_firewall_managed","rules":[
  {"id":"s","expression":"true","action":"skip","action_parameters":{"rules":{"rl":["r"]}}}]}]}"#,
        requests: r#"{"at":0,"ip":"10.0.0.1","method":"GET","target":"/","headers":[["host","a.example"]]}
"#,
        wanted: "1 v1 pass - / 0:pass
",
    },
    Row {
        name: "not kept where it is disabled or skipped",
        config: r#"{"rulesets":[
{"id":"fw","kind":"zone","phase":"http_request_firewall_custom","rules":[
  {"id":"s","expression":"true","action":"skip","action_parameters":{"rules":{"rl":["q"]}}}]},
{"id":"rl","kind":"zone","phase":"http_ratelimit","rules":[
  {"id":"r","expression":"true","action":"block","enabled":false,"ratelimit":{"characteristics":["ip.src"],"period":10,"requests_per_period":1,"mitigation_timeout":60,"counting_expression":"http.response.code eq 404"}},
  {"id":"q","expression":"true","action":"block","ratelimit":{"characteristics":["ip.src"],"period":10,"requests_per_period":1,"mitigation_timeout":60,"counting_expression":"http.response.code eq 404"}}]}]}"#,
        requests: r#"{"at":0,"ip":"10.0.0.1","method":"GET","target":"/","headers":[["host","a.example"]]}
"#,
        wanted: "1 v1 pass - / -
",
    },
    Row {
        name: "characteristics part the counts",
        config: r#"{"rulesets":[
{"id":"rl","kind":"zone","phase":"http_ratelimit","rules":[
  {"id":"r","expression":"true","action":"block","ratelimit":{"characteristics":["ip.src","http.request.headers[\"k\"]","cf.colo.id"],"period":10,"requests_per_period":1,"mitigation_timeout":60}}]}]}"#,
        requests: r#"{"at":0,"ip":"10.0.0.1","method":"GET","target":"/","headers":[["host","a.example"]]}
{"at":0,"ip":"10.0.0.2","method":"GET","target":"/","headers":[["host","a.example"]]}
{"at":0,"ip":"10.0.0.1","method":"GET","target":"/","headers":[["k","1"]]}
{"at":0,"ip":"10.0.0.1","method":"GET","target":"/","headers":[["K","1"]]}
{"at":0,"ip":"10.0.0.1","method":"GET","target":"/","headers":[["k","1"],["k","2"]]}
{"at":0,"ip":"10.0.0.1","method":"GET","target":"/","headers":[["host","a.example"]]}
"#,
        wanted: "1 v1 pass - / 0:pass
2 v1 pass - / 1:pass
3 v1 pass - / 2:pass
4 v1 block:429 rl/r / 3:over@60000
5 v1 pass - / 4:pass
6 v1 block:429 rl/r / 5:over@60000
",
    },
    Row {
        name: "characteristics see the phase's beginning",
        config: r#"{"rulesets":[
{"id":"tr","kind":"zone","phase":"http_request_transform","rules":[
  {"id":"t","expression":"http.request.uri.path eq \"/a\"","action":"rewrite","action_parameters":{"uri":{"path":{"value":"/b"}}}}]},
{"id":"rl","kind":"zone","phase":"http_ratelimit","rules":[
  {"id":"r","expression":"true","action":"block","ratelimit":{"characteristics":["http.request.uri.path"],"period":10,"requests_per_period":1,"mitigation_timeout":60}}]}]}"#,
        requests: r#"{"at":0,"ip":"10.0.0.1","method":"GET","target":"/a","headers":[["host","a.example"]]}
{"at":0,"ip":"10.0.0.1","method":"GET","target":"/b","headers":[["host","a.example"]]}
"#,
        wanted: "1 v1 pass - /b 0:pass
2 v1 block:429 rl/r /b 1:over@60000
",
    },
    Row {
        name: "two limits in order; the second isn't asked behind an end",
        config: r#"{"rulesets":[
{"id":"rl","kind":"zone","phase":"http_ratelimit","rules":[
  {"id":"r","expression":"true","action":"block","ratelimit":{"characteristics":["ip.src"],"period":10,"requests_per_period":1,"mitigation_timeout":60}},
  {"id":"s","expression":"true","action":"block","ratelimit":{"characteristics":["ip.src"],"period":20,"requests_per_period":1,"mitigation_timeout":60}}]}]}"#,
        requests: r#"{"at":0,"ip":"10.0.0.1","method":"GET","target":"/","headers":[["host","a.example"]]}
{"at":0,"ip":"10.0.0.1","method":"GET","target":"/","headers":[["host","a.example"]]}
"#,
        wanted: "1 v1 pass - / 0:pass,1:pass
2 v1 block:429 rl/r / 2:over@60000
",
    },
    Row {
        name: "a limit in an executed ruleset, twice",
        config: r#"{"rulesets":[
{"id":"cl","kind":"managed","phase":"http_ratelimit","rules":[
  {"id":"a","expression":"true","action":"log","ratelimit":{"characteristics":["ip.src"],"period":10,"requests_per_period":1,"mitigation_timeout":60}}]},
{"id":"rl","kind":"zone","phase":"http_ratelimit","rules":[
  {"id":"e","expression":"true","action":"execute","action_parameters":{"id":"cl"}},
  {"id":"f","expression":"true","action":"execute","action_parameters":{"id":"cl","overrides":{"action":"challenge"}}}]}]}"#,
        requests: r#"{"at":0,"ip":"10.0.0.1","method":"GET","target":"/","headers":[["host","a.example"]]}
"#,
        wanted: "1 v1 challenge cl/a / 0:pass,1:over@60000
",
    },
    Row {
        name: "behind an answer the walk goes on in its place",
        config: r#"{"rulesets":[
{"id":"cl","kind":"custom","phase":"http_ratelimit","rules":[
  {"id":"a","expression":"true","action":"log","ratelimit":{"characteristics":["ip.src"],"period":10,"requests_per_period":1,"mitigation_timeout":60}},
  {"id":"b","expression":"true","action":"log","ratelimit":{"characteristics":["ip.src"],"period":20,"requests_per_period":1,"mitigation_timeout":60}}]},
{"id":"rl","kind":"zone","phase":"http_ratelimit","rules":[
  {"id":"x","expression":"true","action":"log","ratelimit":{"characteristics":["ip.src"],"period":30,"requests_per_period":1,"mitigation_timeout":60}},
  {"id":"e","expression":"true","action":"execute","action_parameters":{"id":"cl"}},
  {"id":"y","expression":"true","action":"log","ratelimit":{"characteristics":["ip.src"],"period":40,"requests_per_period":1,"mitigation_timeout":60}}]},
{"id":"lt","kind":"zone","phase":"http_request_late_transform","rules":[
  {"id":"h","expression":"true","action":"rewrite","action_parameters":{"headers":{"A":{"operation":"set","value":"1"}}}}]}]}"#,
        requests: r#"{"at":0,"ip":"10.0.0.1","method":"GET","target":"/","headers":[]}
{"at":0,"ip":"10.0.0.1","method":"GET","target":"/","headers":[]}
"#,
        wanted: "1 v1 pass - / 0:pass,1:pass,2:pass,3:pass req=a:1
2 v1 pass - / 4:over@60000,5:over@60000,6:over@60000,7:over@60000 log=rl/x,cl/a,cl/b,rl/y req=a:1
",
    },
    Row {
        name: "skips hold behind answers",
        config: r#"{"rulesets":[
{"id":"fw","kind":"zone","phase":"http_request_firewall_custom","rules":[
  {"id":"s","expression":"true","action":"skip","action_parameters":{"rules":{"rl":["q"]},"rulesets":["fm"]}}]},
{"id":"rl","kind":"zone","phase":"http_ratelimit","rules":[
  {"id":"r","expression":"true","action":"log","ratelimit":{"characteristics":["ip.src"],"period":10,"requests_per_period":5,"mitigation_timeout":60}},
  {"id":"q","expression":"true","action":"block","ratelimit":{"characteristics":["ip.src"],"period":10,"requests_per_period":1,"mitigation_timeout":60}}]},
{"id":"fm","kind":"zone","phase":"http_request_firewall_managed","rules":[
  {"id":"b","expression":"true","action":"block"}]}]}"#,
        requests: r#"{"at":0,"ip":"10.0.0.1","method":"GET","target":"/","headers":[["host","a.example"]]}
{"at":0,"ip":"10.0.0.1","method":"GET","target":"/","headers":[["host","a.example"]]}
"#,
        wanted: "1 v1 pass - / 0:pass
2 v1 pass - / 1:pass
",
    },
];

#[test]
fn limits_are_told(rt: HostRuntime) -> Result<(), Fail> {
    for row in &ROWS {
        judges(&rt, rt.alloc(), row)?;
    }
    Ok(())
}
