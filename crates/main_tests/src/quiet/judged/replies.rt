//! Replies: rules of their phase, and rules that count by the reply.

use super::{Row, judges};
use std::test::Fail;

const ROWS: [Row; 16] = [
    Row {
        name: "a reply without rules",
        config: r#"{"rulesets":[]}"#,
        requests: r#"{"at":0,"ip":"10.0.0.1","method":"GET","target":"/","headers":[["host","a.example"]],"reply":{"status":200,"headers":[["a","1"]]}}
"#,
        wanted: "1 v1 pass - / -
",
    },
    Row {
        name: "a reply's headers",
        config: r#"{"rulesets":[
{"id":"rh","kind":"zone","phase":"http_response_headers_transform","rules":[
  {"id":"h","expression":"true","action":"rewrite","action_parameters":{"headers":{"X-A":{"operation":"set","value":"1"},"B":{"operation":"remove"},"C":{"operation":"add","value":"2"}}}}]}]}"#,
        requests: r#"{"at":0,"ip":"10.0.0.1","method":"GET","target":"/","headers":[["host","a.example"]],"reply":{"status":200,"headers":[["x-a","0"],["B","1"],["X-A","2"]]}}
{"at":0,"ip":"10.0.0.1","method":"GET","target":"/","headers":[["host","a.example"]],"reply":{"status":200}}
{"at":0,"ip":"10.0.0.1","method":"GET","target":"/","headers":[["host","a.example"]]}
"#,
        wanted: "1 v1 pass - / - rep=x-a:1,c:2
2 v1 pass - / - rep=c:2,x-a:1
3 v1 pass - / -
",
    },
    Row {
        name: "conditions and values of a reply",
        config: r#"{"rulesets":[
{"id":"rh","kind":"zone","phase":"http_response_headers_transform","rules":[
  {"id":"h","expression":"http.response.code eq 404","action":"rewrite","action_parameters":{"headers":{"A":{"operation":"set","value":"1"}}}},
  {"id":"i","expression":"true","action":"rewrite","action_parameters":{"headers":{"B":{"operation":"set","expression":"http.response.headers[\"x\"][0]"}}}},
  {"id":"j","expression":"http.request.uri.path eq \"/p\"","action":"rewrite","action_parameters":{"headers":{"C":{"operation":"set","value":"1"}}}}]}]}"#,
        requests: r#"{"at":0,"ip":"10.0.0.1","method":"GET","target":"/","headers":[["host","a.example"]],"reply":{"status":404}}
{"at":0,"ip":"10.0.0.1","method":"GET","target":"/p","headers":[["host","a.example"]],"reply":{"status":200,"headers":[["X","y"]]}}
"#,
        wanted: "1 v1 pass - / - rep=a:1
2 v1 pass - /p - rep=X:y,b:y,c:1
",
    },
    Row {
        name: "a reply isn't judged behind an end",
        config: r#"{"rulesets":[
{"id":"fw","kind":"zone","phase":"http_request_firewall_custom","rules":[
  {"id":"b","expression":"true","action":"block"}]},
{"id":"rh","kind":"zone","phase":"http_response_headers_transform","rules":[
  {"id":"h","expression":"true","action":"rewrite","action_parameters":{"headers":{"A":{"operation":"set","value":"1"}}}}]}]}"#,
        requests: r#"{"at":0,"ip":"10.0.0.1","method":"GET","target":"/","headers":[["host","a.example"]],"reply":{"status":200}}
"#,
        wanted: "1 v1 block:403 fw/b / -
",
    },
    Row {
        name: "a reply sees the request as it was rewritten",
        config: r#"{"rulesets":[
{"id":"tr","kind":"zone","phase":"http_request_transform","rules":[
  {"id":"t","expression":"true","action":"rewrite","action_parameters":{"uri":{"path":{"value":"/b"}}}}]},
{"id":"rh","kind":"zone","phase":"http_response_headers_transform","rules":[
  {"id":"h","expression":"http.request.uri.path eq \"/b\"","action":"rewrite","action_parameters":{"headers":{"A":{"operation":"set","value":"1"}}}}]}]}"#,
        requests: r#"{"at":0,"ip":"10.0.0.1","method":"GET","target":"/a","headers":[["host","a.example"]],"reply":{"status":200}}
"#,
        wanted: "1 v1 pass - /b - rep=a:1
",
    },
    Row {
        name: "rules of an executed ruleset on a reply",
        config: r#"{"rulesets":[
{"id":"ch","kind":"custom","phase":"http_response_headers_transform","rules":[
  {"id":"h","expression":"true","action":"rewrite","action_parameters":{"headers":{"A":{"operation":"set","value":"1"}}}},
  {"id":"i","expression":"true","action":"rewrite","action_parameters":{"headers":{"B":{"operation":"set","value":"1"}}}}]},
{"id":"rh","kind":"zone","phase":"http_response_headers_transform","rules":[
  {"id":"e","expression":"true","action":"execute","action_parameters":{"id":"ch","overrides":{"rules":[{"id":"i","enabled":false}]}}},
  {"id":"j","expression":"true","action":"rewrite","action_parameters":{"headers":{"C":{"operation":"set","value":"1"}}}}]}]}"#,
        requests: r#"{"at":0,"ip":"10.0.0.1","method":"GET","target":"/","headers":[["host","a.example"]],"reply":{"status":200}}
"#,
        wanted: "1 v1 pass - / - rep=a:1,c:1
",
    },
    Row {
        name: "the phase of a reply is skipped",
        config: r#"{"rulesets":[
{"id":"fw","kind":"zone","phase":"http_request_firewall_custom","rules":[
  {"id":"s","expression":"http.request.uri.path eq \"/s\"","action":"skip","action_parameters":{"phases":["http_response_headers_transform"]}}]},
{"id":"rh","kind":"zone","phase":"http_response_headers_transform","rules":[
  {"id":"h","expression":"true","action":"rewrite","action_parameters":{"headers":{"A":{"operation":"set","value":"1"}}}}]}]}"#,
        requests: r#"{"at":0,"ip":"10.0.0.1","method":"GET","target":"/s","headers":[["host","a.example"]],"reply":{"status":200}}
{"at":0,"ip":"10.0.0.1","method":"GET","target":"/","headers":[["host","a.example"]],"reply":{"status":200}}
"#,
        wanted: "1 v1 pass - /s -
2 v1 pass - / - rep=a:1
",
    },
    Row {
        name: "the ruleset of a reply is skipped",
        config: r#"{"rulesets":[
{"id":"fw","kind":"zone","phase":"http_request_firewall_custom","rules":[
  {"id":"s","expression":"true","action":"skip","action_parameters":{"rulesets":["rh"]}}]},
{"id":"rh","kind":"zone","phase":"http_response_headers_transform","rules":[
  {"id":"h","expression":"true","action":"rewrite","action_parameters":{"headers":{"A":{"operation":"set","value":"1"}}}}]}]}"#,
        requests: r#"{"at":0,"ip":"10.0.0.1","method":"GET","target":"/","headers":[["host","a.example"]],"reply":{"status":200}}
"#,
        wanted: "1 v1 pass - / -
",
    },
    Row {
        name: "a rule of a reply is skipped",
        config: r#"{"rulesets":[
{"id":"fw","kind":"zone","phase":"http_request_firewall_custom","rules":[
  {"id":"s","expression":"true","action":"skip","action_parameters":{"rules":{"rh":["h"]}}}]},
{"id":"rh","kind":"zone","phase":"http_response_headers_transform","rules":[
  {"id":"h","expression":"true","action":"rewrite","action_parameters":{"headers":{"A":{"operation":"set","value":"1"}}}},
  {"id":"i","expression":"true","action":"rewrite","action_parameters":{"headers":{"B":{"operation":"set","value":"1"}}}}]}]}"#,
        requests: r#"{"at":0,"ip":"10.0.0.1","method":"GET","target":"/","headers":[["host","a.example"]],"reply":{"status":200}}
"#,
        wanted: "1 v1 pass - / - rep=b:1
",
    },
    Row {
        name: "a rule counts by the reply",
        config: r#"{"rulesets":[
{"id":"rl","kind":"zone","phase":"http_ratelimit","rules":[
  {"id":"r","expression":"true","action":"block","ratelimit":{"characteristics":["ip.src"],"period":10,"requests_per_period":1,"mitigation_timeout":60,"counting_expression":"http.response.code eq 404"}}]}]}"#,
        requests: r#"{"at":0,"ip":"10.0.0.1","method":"GET","target":"/","headers":[["host","a.example"]],"reply":{"status":404,"at":50}}
{"at":100,"ip":"10.0.0.1","method":"GET","target":"/","headers":[["host","a.example"]],"reply":{"status":404}}
{"at":200,"ip":"10.0.0.1","method":"GET","target":"/","headers":[["host","a.example"]],"reply":{"status":404}}
"#,
        wanted: "1 v1 pass - / 0:pass,1:pass
2 v1 pass - / 2:pass,3:over@60100
3 v1 block:429 rl/r / 4:over@60100
",
    },
    Row {
        name: "a reply that isn't counted",
        config: r#"{"rulesets":[
{"id":"rl","kind":"zone","phase":"http_ratelimit","rules":[
  {"id":"r","expression":"true","action":"block","ratelimit":{"characteristics":["ip.src"],"period":10,"requests_per_period":1,"mitigation_timeout":60,"counting_expression":"http.response.code eq 404"}}]}]}"#,
        requests: r#"{"at":0,"ip":"10.0.0.1","method":"GET","target":"/","headers":[["host","a.example"]],"reply":{"status":200}}
{"at":0,"ip":"10.0.0.1","method":"GET","target":"/","headers":[["host","a.example"]],"reply":{"status":404}}
"#,
        wanted: "1 v1 pass - / 0:pass
2 v1 pass - / 1:pass,2:pass
",
    },
    Row {
        name: "kept rules ask in the order reached, before the phase",
        config: r#"{"rulesets":[
{"id":"rl","kind":"zone","phase":"http_ratelimit","rules":[
  {"id":"r","expression":"true","action":"block","ratelimit":{"characteristics":["ip.src"],"period":10,"requests_per_period":1,"mitigation_timeout":60,"counting_expression":"http.response.code eq 404"}},
  {"id":"s","expression":"ssl","action":"block","ratelimit":{"characteristics":["ip.src"],"period":10,"requests_per_period":2,"mitigation_timeout":60,"counting_expression":"http.response.code eq 404"}}]},
{"id":"rh","kind":"zone","phase":"http_response_headers_transform","rules":[
  {"id":"h","expression":"true","action":"rewrite","action_parameters":{"headers":{"A":{"operation":"set","value":"1"}}}}]}]}"#,
        requests: r#"{"at":0,"ip":"10.0.0.1","method":"GET","target":"/","headers":[["host","a.example"]],"reply":{"status":404}}
{"at":20000,"ip":"10.0.0.1","method":"GET","target":"/","headers":[["host","a.example"]],"reply":{"status":404,"at":20001}}
"#,
        wanted: "1 v1 pass - / 0:pass,1:pass,2:pass rep=a:1
2 v1 pass - / 3:pass,4:pass,5:pass rep=a:1
",
    },
    Row {
        name: "an answer over to a reply changes nothing",
        config: r#"{"rulesets":[
{"id":"rl","kind":"zone","phase":"http_ratelimit","rules":[
  {"id":"r","expression":"ssl","action":"block","ratelimit":{"characteristics":["ip.src"],"period":10,"requests_per_period":1,"mitigation_timeout":60,"counting_expression":"http.response.code eq 404"}}]}]}"#,
        requests: r#"{"at":0,"ip":"10.0.0.1","method":"GET","target":"/","headers":[["host","a.example"]],"reply":{"status":404}}
{"at":0,"ip":"10.0.0.1","method":"GET","target":"/","headers":[["host","a.example"]],"reply":{"status":404}}
"#,
        wanted: "1 v1 pass - / 0:pass
2 v1 pass - / 1:over@60000
",
    },
    Row {
        name: "a rule that was kept counts although it is skipped later",
        config: r#"{"rulesets":[
{"id":"rl","kind":"zone","phase":"http_ratelimit","rules":[
  {"id":"r","expression":"true","action":"block","ratelimit":{"characteristics":["ip.src"],"period":10,"requests_per_period":1,"mitigation_timeout":60,"counting_expression":"http.response.code eq 404"}}]},
{"id":"fm","kind":"zone","phase":"http_request_firewall_managed","rules":[
  {"id":"s","expression":"true","action":"skip","action_parameters":{"rules":{"rl":["r"]},"rulesets":["rl"]}}]}]}"#,
        requests: r#"{"at":0,"ip":"10.0.0.1","method":"GET","target":"/","headers":[["host","a.example"]],"reply":{"status":404}}
"#,
        wanted: "1 v1 pass - / 0:pass,1:pass
",
    },
    Row {
        name: "a reply is counted as it came",
        config: r#"{"rulesets":[
{"id":"rl","kind":"zone","phase":"http_ratelimit","rules":[
  {"id":"r","expression":"true","action":"block","ratelimit":{"characteristics":["ip.src"],"period":10,"requests_per_period":1,"mitigation_timeout":60,"counting_expression":"http.response.headers[\"x\"][0] eq \"1\""}}]},
{"id":"rh","kind":"zone","phase":"http_response_headers_transform","rules":[
  {"id":"h","expression":"true","action":"rewrite","action_parameters":{"headers":{"X":{"operation":"set","value":"2"}}}}]}]}"#,
        requests: r#"{"at":0,"ip":"10.0.0.1","method":"GET","target":"/","headers":[["host","a.example"]],"reply":{"status":200,"headers":[["X","1"]]}}
{"at":0,"ip":"10.0.0.1","method":"GET","target":"/","headers":[["host","a.example"]],"reply":{"status":200,"headers":[["X","2"]]}}
{"at":1,"ip":"10.0.0.1","method":"GET","target":"/","headers":[["host","a.example"]],"reply":{"status":200,"headers":[["x","1"]]}}
{"at":2,"ip":"10.0.0.1","method":"GET","target":"/","headers":[["host","a.example"]]}
"#,
        wanted: "1 v1 pass - / 0:pass,1:pass rep=x:2
2 v1 pass - / 2:pass rep=x:2
3 v1 pass - / 3:pass,4:over@60001 rep=x:2
4 v1 block:429 rl/r / 5:over@60001
",
    },
    Row {
        name: "a reply is counted on the request as it was rewritten",
        config: r#"{"rulesets":[
{"id":"tr","kind":"zone","phase":"http_request_transform","rules":[
  {"id":"t","expression":"true","action":"rewrite","action_parameters":{"uri":{"path":{"value":"/b"}}}}]},
{"id":"rl","kind":"zone","phase":"http_ratelimit","rules":[
  {"id":"r","expression":"true","action":"block","ratelimit":{"characteristics":["ip.src"],"period":10,"requests_per_period":1,"mitigation_timeout":60,"counting_expression":"http.response.code eq 200 and http.request.uri.path eq \"/c\""}}]},
{"id":"lt","kind":"zone","phase":"http_request_late_transform","rules":[
  {"id":"h","expression":"true","action":"rewrite","action_parameters":{"headers":{"A":{"operation":"set","value":"1"}}}}]}]}"#,
        requests: r#"{"at":0,"ip":"10.0.0.1","method":"GET","target":"/c","headers":[],"reply":{"status":200}}
"#,
        wanted: "1 v1 pass - /b 0:pass req=a:1
",
    },
];

#[test]
fn replies_are_judged(rt: HostRuntime) -> Result<(), Fail> {
    for row in &ROWS {
        judges(&rt, rt.alloc(), row)?;
    }
    Ok(())
}
