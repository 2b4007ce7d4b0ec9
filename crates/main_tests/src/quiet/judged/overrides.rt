//! Overrides of an execution: by rule, by tag and as a whole, each part alone and both.

use super::{Row, judges};
use std::test::Fail;

const ROWS: [Row; 25] = [
    Row {
        name: "no overrides",
        config: r#"{"rulesets":[
{"id":"mn","kind":"managed","phase":"http_request_firewall_managed","rules":[
  {"id":"a","expression":"true","action":"log","categories":["x"]},
  {"id":"b","expression":"true","action":"log","categories":["x","y"]},
  {"id":"c","expression":"true","action":"log","enabled":false,"categories":["y"]}]},
{"id":"fm","kind":"zone","phase":"http_request_firewall_managed","rules":[
  {"id":"e","expression":"true","action":"execute","action_parameters":{"id":"mn"}}]}]}"#,
        requests: r#"{"at":0,"ip":"10.0.0.1","method":"GET","target":"/","headers":[["host","a.example"]]}
"#,
        wanted: "1 v1 pass - / - log=mn/a,mn/b
",
    },
    Row {
        name: "the whole's enabled",
        config: r#"{"rulesets":[
{"id":"mn","kind":"managed","phase":"http_request_firewall_managed","rules":[
  {"id":"a","expression":"true","action":"log","categories":["x"]},
  {"id":"b","expression":"true","action":"log","categories":["x","y"]},
  {"id":"c","expression":"true","action":"log","enabled":false,"categories":["y"]}]},
{"id":"fm","kind":"zone","phase":"http_request_firewall_managed","rules":[
  {"id":"e","expression":"true","action":"execute","action_parameters":{"id":"mn","overrides":{"enabled":true}}}]}]}"#,
        requests: r#"{"at":0,"ip":"10.0.0.1","method":"GET","target":"/","headers":[["host","a.example"]]}
"#,
        wanted: "1 v1 pass - / - log=mn/a,mn/b,mn/c
",
    },
    Row {
        name: "the whole isn't enabled",
        config: r#"{"rulesets":[
{"id":"mn","kind":"managed","phase":"http_request_firewall_managed","rules":[
  {"id":"a","expression":"true","action":"log","categories":["x"]},
  {"id":"b","expression":"true","action":"log","categories":["x","y"]},
  {"id":"c","expression":"true","action":"log","enabled":false,"categories":["y"]}]},
{"id":"fm","kind":"zone","phase":"http_request_firewall_managed","rules":[
  {"id":"e","expression":"true","action":"execute","action_parameters":{"id":"mn","overrides":{"enabled":false}}}]}]}"#,
        requests: r#"{"at":0,"ip":"10.0.0.1","method":"GET","target":"/","headers":[["host","a.example"]]}
"#,
        wanted: "1 v1 pass - / -
",
    },
    Row {
        name: "the whole's action",
        config: r#"{"rulesets":[
{"id":"mn","kind":"managed","phase":"http_request_firewall_managed","rules":[
  {"id":"a","expression":"ssl","action":"log"},
  {"id":"b","expression":"true","action":"managed_challenge"},
  {"id":"c","expression":"true","action":"block","enabled":false}]},
{"id":"fm","kind":"zone","phase":"http_request_firewall_managed","rules":[
  {"id":"e","expression":"true","action":"execute","action_parameters":{"id":"mn","overrides":{"action":"log"}}}]}]}"#,
        requests: r#"{"at":0,"ip":"10.0.0.1","method":"GET","target":"/","headers":[["host","a.example"]]}
"#,
        wanted: "1 v1 pass - / - log=mn/b
",
    },
    Row {
        name: "the whole's both",
        config: r#"{"rulesets":[
{"id":"mn","kind":"managed","phase":"http_request_firewall_managed","rules":[
  {"id":"a","expression":"true","action":"log","categories":["x"]},
  {"id":"b","expression":"true","action":"log","categories":["x","y"]},
  {"id":"c","expression":"true","action":"log","enabled":false,"categories":["y"]}]},
{"id":"fm","kind":"zone","phase":"http_request_firewall_managed","rules":[
  {"id":"e","expression":"true","action":"execute","action_parameters":{"id":"mn","overrides":{"enabled":true,"action":"block"}}}]}]}"#,
        requests: r#"{"at":0,"ip":"10.0.0.1","method":"GET","target":"/","headers":[["host","a.example"]]}
"#,
        wanted: "1 v1 block:403 mn/a / -
",
    },
    Row {
        name: "a tag's enabled",
        config: r#"{"rulesets":[
{"id":"mn","kind":"managed","phase":"http_request_firewall_managed","rules":[
  {"id":"a","expression":"true","action":"log","categories":["x"]},
  {"id":"b","expression":"true","action":"log","categories":["x","y"]},
  {"id":"c","expression":"true","action":"log","enabled":false,"categories":["y"]}]},
{"id":"fm","kind":"zone","phase":"http_request_firewall_managed","rules":[
  {"id":"e","expression":"true","action":"execute","action_parameters":{"id":"mn","overrides":{"categories":[{"category":"y","enabled":true}]}}}]}]}"#,
        requests: r#"{"at":0,"ip":"10.0.0.1","method":"GET","target":"/","headers":[["host","a.example"]]}
"#,
        wanted: "1 v1 pass - / - log=mn/a,mn/b,mn/c
",
    },
    Row {
        name: "a tag isn't enabled",
        config: r#"{"rulesets":[
{"id":"mn","kind":"managed","phase":"http_request_firewall_managed","rules":[
  {"id":"a","expression":"true","action":"log","categories":["x"]},
  {"id":"b","expression":"true","action":"log","categories":["x","y"]},
  {"id":"c","expression":"true","action":"log","enabled":false,"categories":["y"]}]},
{"id":"fm","kind":"zone","phase":"http_request_firewall_managed","rules":[
  {"id":"e","expression":"true","action":"execute","action_parameters":{"id":"mn","overrides":{"categories":[{"category":"x","enabled":false}]}}}]}]}"#,
        requests: r#"{"at":0,"ip":"10.0.0.1","method":"GET","target":"/","headers":[["host","a.example"]]}
"#,
        wanted: "1 v1 pass - / -
",
    },
    Row {
        name: "a tag's action",
        config: r#"{"rulesets":[
{"id":"mn","kind":"managed","phase":"http_request_firewall_managed","rules":[
  {"id":"a","expression":"true","action":"log","categories":["x"]},
  {"id":"b","expression":"true","action":"log","categories":["x","y"]},
  {"id":"c","expression":"true","action":"log","enabled":false,"categories":["y"]}]},
{"id":"fm","kind":"zone","phase":"http_request_firewall_managed","rules":[
  {"id":"e","expression":"true","action":"execute","action_parameters":{"id":"mn","overrides":{"categories":[{"category":"y","action":"block"}]}}}]}]}"#,
        requests: r#"{"at":0,"ip":"10.0.0.1","method":"GET","target":"/","headers":[["host","a.example"]]}
"#,
        wanted: "1 v1 block:403 mn/b / - log=mn/a
",
    },
    Row {
        name: "a tag's both",
        config: r#"{"rulesets":[
{"id":"mn","kind":"managed","phase":"http_request_firewall_managed","rules":[
  {"id":"a","expression":"true","action":"log","categories":["x"]},
  {"id":"b","expression":"true","action":"log","categories":["x","y"]},
  {"id":"c","expression":"true","action":"log","enabled":false,"categories":["y"]}]},
{"id":"fm","kind":"zone","phase":"http_request_firewall_managed","rules":[
  {"id":"e","expression":"true","action":"execute","action_parameters":{"id":"mn","overrides":{"categories":[{"category":"y","enabled":true,"action":"js_challenge"},{"category":"x","enabled":false}]}}}]}]}"#,
        requests: r#"{"at":0,"ip":"10.0.0.1","method":"GET","target":"/","headers":[["host","a.example"]]}
"#,
        wanted: "1 v1 challenge mn/c / -
",
    },
    Row {
        name: "a rule's enabled",
        config: r#"{"rulesets":[
{"id":"mn","kind":"managed","phase":"http_request_firewall_managed","rules":[
  {"id":"a","expression":"true","action":"log","categories":["x"]},
  {"id":"b","expression":"true","action":"log","categories":["x","y"]},
  {"id":"c","expression":"true","action":"log","enabled":false,"categories":["y"]}]},
{"id":"fm","kind":"zone","phase":"http_request_firewall_managed","rules":[
  {"id":"e","expression":"true","action":"execute","action_parameters":{"id":"mn","overrides":{"rules":[{"id":"a","enabled":false},{"id":"c","enabled":true}]}}}]}]}"#,
        requests: r#"{"at":0,"ip":"10.0.0.1","method":"GET","target":"/","headers":[["host","a.example"]]}
"#,
        wanted: "1 v1 pass - / - log=mn/b,mn/c
",
    },
    Row {
        name: "a rule's action",
        config: r#"{"rulesets":[
{"id":"mn","kind":"managed","phase":"http_request_firewall_managed","rules":[
  {"id":"a","expression":"true","action":"log","categories":["x"]},
  {"id":"b","expression":"true","action":"log","categories":["x","y"]},
  {"id":"c","expression":"true","action":"log","enabled":false,"categories":["y"]}]},
{"id":"fm","kind":"zone","phase":"http_request_firewall_managed","rules":[
  {"id":"e","expression":"true","action":"execute","action_parameters":{"id":"mn","overrides":{"rules":[{"id":"b","action":"challenge"}]}}}]}]}"#,
        requests: r#"{"at":0,"ip":"10.0.0.1","method":"GET","target":"/","headers":[["host","a.example"]]}
"#,
        wanted: "1 v1 challenge mn/b / - log=mn/a
",
    },
    Row {
        name: "a rule's both",
        config: r#"{"rulesets":[
{"id":"mn","kind":"managed","phase":"http_request_firewall_managed","rules":[
  {"id":"a","expression":"true","action":"log","categories":["x"]},
  {"id":"b","expression":"true","action":"log","categories":["x","y"]},
  {"id":"c","expression":"true","action":"log","enabled":false,"categories":["y"]}]},
{"id":"fm","kind":"zone","phase":"http_request_firewall_managed","rules":[
  {"id":"e","expression":"true","action":"execute","action_parameters":{"id":"mn","overrides":{"rules":[{"id":"c","enabled":true,"action":"block"}]}}}]}]}"#,
        requests: r#"{"at":0,"ip":"10.0.0.1","method":"GET","target":"/","headers":[["host","a.example"]]}
"#,
        wanted: "1 v1 block:403 mn/c / - log=mn/a,mn/b
",
    },
    Row {
        name: "a rule beats a tag, a tag beats the whole",
        config: r#"{"rulesets":[
{"id":"mn","kind":"managed","phase":"http_request_firewall_managed","rules":[
  {"id":"a","expression":"true","action":"log","categories":["x"]},
  {"id":"b","expression":"true","action":"log","categories":["x","y"]},
  {"id":"c","expression":"true","action":"log","enabled":false,"categories":["y"]}]},
{"id":"fm","kind":"zone","phase":"http_request_firewall_managed","rules":[
  {"id":"e","expression":"true","action":"execute","action_parameters":{"id":"mn","overrides":{"enabled":false,"categories":[{"category":"x","enabled":true}],"rules":[{"id":"b","enabled":false}]}}}]}]}"#,
        requests: r#"{"at":0,"ip":"10.0.0.1","method":"GET","target":"/","headers":[["host","a.example"]]}
"#,
        wanted: "1 v1 pass - / - log=mn/a
",
    },
    Row {
        name: "the last entry that gives the part",
        config: r#"{"rulesets":[
{"id":"mn","kind":"managed","phase":"http_request_firewall_managed","rules":[
  {"id":"a","expression":"true","action":"log","categories":["x"]},
  {"id":"b","expression":"true","action":"log","categories":["x","y"]},
  {"id":"c","expression":"true","action":"log","enabled":false,"categories":["y"]}]},
{"id":"fm","kind":"zone","phase":"http_request_firewall_managed","rules":[
  {"id":"e","expression":"true","action":"execute","action_parameters":{"id":"mn","overrides":{"rules":[{"id":"a","action":"log"},{"id":"a","enabled":true},{"id":"b","action":"log"},{"id":"b","action":"block"},{"id":"b"}],"action":"challenge"}}}]}]}"#,
        requests: r#"{"at":0,"ip":"10.0.0.1","method":"GET","target":"/","headers":[["host","a.example"]]}
"#,
        wanted: "1 v1 block:403 mn/b / - log=mn/a
",
    },
    Row {
        name: "the last tag that gives the part",
        config: r#"{"rulesets":[
{"id":"mn","kind":"managed","phase":"http_request_firewall_managed","rules":[
  {"id":"a","expression":"true","action":"log","categories":["x"]},
  {"id":"b","expression":"true","action":"log","categories":["x","y"]},
  {"id":"c","expression":"true","action":"log","enabled":false,"categories":["y"]}]},
{"id":"fm","kind":"zone","phase":"http_request_firewall_managed","rules":[
  {"id":"e","expression":"true","action":"execute","action_parameters":{"id":"mn","overrides":{"categories":[{"category":"x","action":"block"},{"category":"y","action":"log"},{"category":"x"}]}}}]}]}"#,
        requests: r#"{"at":0,"ip":"10.0.0.1","method":"GET","target":"/","headers":[["host","a.example"]]}
"#,
        wanted: "1 v1 block:403 mn/a / -
",
    },
    Row {
        name: "the parts apart by different speakers",
        config: r#"{"rulesets":[
{"id":"mn","kind":"managed","phase":"http_request_firewall_managed","rules":[
  {"id":"a","expression":"true","action":"log","categories":["x"]},
  {"id":"b","expression":"true","action":"log","categories":["x","y"]},
  {"id":"c","expression":"true","action":"log","enabled":false,"categories":["y"]}]},
{"id":"fm","kind":"zone","phase":"http_request_firewall_managed","rules":[
  {"id":"e","expression":"true","action":"execute","action_parameters":{"id":"mn","overrides":{"action":"block","categories":[{"category":"y","action":"log"}],"rules":[{"id":"a","enabled":false},{"id":"c","enabled":true}]}}}]}]}"#,
        requests: r#"{"at":0,"ip":"10.0.0.1","method":"GET","target":"/","headers":[["host","a.example"]]}
"#,
        wanted: "1 v1 pass - / - log=mn/b,mn/c
",
    },
    Row {
        name: "an action over a rule that skips",
        config: r#"{"rulesets":[
{"id":"mn","kind":"managed","phase":"http_request_firewall_managed","rules":[
  {"id":"s","expression":"true","action":"skip","action_parameters":{"phases":["http_request_late_transform"]}},
  {"id":"l","expression":"true","action":"log"}]},
{"id":"fm","kind":"zone","phase":"http_request_firewall_managed","rules":[
  {"id":"e","expression":"true","action":"execute","action_parameters":{"id":"mn","overrides":{"action":"block"}}}]},
{"id":"lt","kind":"zone","phase":"http_request_late_transform","rules":[
  {"id":"h","expression":"true","action":"rewrite","action_parameters":{"headers":{"A":{"operation":"set","value":"1"}}}}]}]}"#,
        requests: r#"{"at":0,"ip":"10.0.0.1","method":"GET","target":"/","headers":[["host","a.example"]]}
"#,
        wanted: "1 v1 block:403 mn/l / -
",
    },
    Row {
        name: "a rule that skips isn't enabled",
        config: r#"{"rulesets":[
{"id":"mn","kind":"managed","phase":"http_request_firewall_managed","rules":[
  {"id":"s","expression":"true","action":"skip","action_parameters":{"ruleset":"current"}},
  {"id":"l","expression":"true","action":"log"}]},
{"id":"fm","kind":"zone","phase":"http_request_firewall_managed","rules":[
  {"id":"e","expression":"true","action":"execute","action_parameters":{"id":"mn","overrides":{"rules":[{"id":"s","enabled":false,"action":"log"}]}}}]}]}"#,
        requests: r#"{"at":0,"ip":"10.0.0.1","method":"GET","target":"/","headers":[["host","a.example"]]}
"#,
        wanted: "1 v1 pass - / - log=mn/l
",
    },
    Row {
        name: "an action over a redirect and over a rewrite",
        config: r#"{"rulesets":[
{"id":"cd","kind":"custom","phase":"http_request_dynamic_redirect","rules":[
  {"id":"d","expression":"http.request.uri.path eq \"/a\"","action":"redirect","action_parameters":{"from_value":{"target_url":{"value":"/x"}}}},
  {"id":"f","expression":"http.request.uri.path eq \"/b\"","action":"redirect","action_parameters":{"from_value":{"target_url":{"value":"/y"}}},"enabled":false}]},
{"id":"dr","kind":"zone","phase":"http_request_dynamic_redirect","rules":[
  {"id":"e","expression":"true","action":"execute","action_parameters":{"id":"cd","overrides":{"action":"block","enabled":true}}}]},
{"id":"ct","kind":"custom","phase":"http_request_transform","rules":[
  {"id":"t","expression":"true","action":"rewrite","action_parameters":{"uri":{"path":{"value":"/t"}}}}]},
{"id":"tr","kind":"zone","phase":"http_request_transform","rules":[
  {"id":"e","expression":"true","action":"execute","action_parameters":{"id":"ct","overrides":{"action":"block"}}}]}]}"#,
        requests: r#"{"at":0,"ip":"10.0.0.1","method":"GET","target":"/a","headers":[["host","a.example"]]}
{"at":0,"ip":"10.0.0.1","method":"GET","target":"/b","headers":[["host","a.example"]]}
{"at":0,"ip":"10.0.0.1","method":"GET","target":"/c","headers":[["host","a.example"]]}
"#,
        wanted: "1 v1 redirect:302 cd/d /a - to=/x
2 v1 redirect:302 cd/f /b - to=/y
3 v1 pass - /t -
",
    },
    Row {
        name: "an own response under an override",
        config: r#"{"rulesets":[
{"id":"mn","kind":"managed","phase":"http_request_firewall_managed","rules":[
  {"id":"a","expression":"true","action":"block","action_parameters":{"response":{"status_code":451}}}]},
{"id":"fm","kind":"zone","phase":"http_request_firewall_managed","rules":[
  {"id":"e","expression":"true","action":"execute","action_parameters":{"id":"mn","overrides":{"action":"block"}}}]}]}"#,
        requests: r#"{"at":0,"ip":"10.0.0.1","method":"GET","target":"/","headers":[["host","a.example"]]}
"#,
        wanted: "1 v1 block:451 mn/a / -
",
    },
    Row {
        name: "an own response isn't sent where the rule logs",
        config: r#"{"rulesets":[
{"id":"mn","kind":"managed","phase":"http_request_firewall_managed","rules":[
  {"id":"a","expression":"true","action":"block","action_parameters":{"response":{"status_code":451}}},
  {"id":"b","expression":"true","action":"log"}]},
{"id":"fm","kind":"zone","phase":"http_request_firewall_managed","rules":[
  {"id":"e","expression":"true","action":"execute","action_parameters":{"id":"mn","overrides":{"action":"log"}}}]}]}"#,
        requests: r#"{"at":0,"ip":"10.0.0.1","method":"GET","target":"/","headers":[["host","a.example"]]}
"#,
        wanted: "1 v1 pass - / - log=mn/a,mn/b
",
    },
    Row {
        name: "a default response under an override",
        config: r#"{"rulesets":[
{"id":"mn","kind":"managed","phase":"http_request_firewall_managed","rules":[
  {"id":"a","expression":"true","action":"log"}]},
{"id":"fm","kind":"zone","phase":"http_request_firewall_managed","rules":[
  {"id":"e","expression":"true","action":"execute","action_parameters":{"id":"mn","overrides":{"action":"block"}}}]}]}"#,
        requests: r#"{"at":0,"ip":"10.0.0.1","method":"GET","target":"/","headers":[["host","a.example"]]}
"#,
        wanted: "1 v1 block:403 mn/a / -
",
    },
    Row {
        name: "a default response in the phase of limits",
        config: r#"{"rulesets":[
{"id":"cl","kind":"custom","phase":"http_ratelimit","rules":[
  {"id":"a","expression":"true","action":"log","ratelimit":{"characteristics":["ip.src"],"period":10,"requests_per_period":1,"mitigation_timeout":60}}]},
{"id":"rl","kind":"zone","phase":"http_ratelimit","rules":[
  {"id":"e","expression":"true","action":"execute","action_parameters":{"id":"cl","overrides":{"action":"block"}}}]}]}"#,
        requests: r#"{"at":0,"ip":"10.0.0.1","method":"GET","target":"/","headers":[["host","a.example"]]}
{"at":0,"ip":"10.0.0.1","method":"GET","target":"/","headers":[["host","a.example"]]}
"#,
        wanted: "1 v1 pass - / 0:pass
2 v1 block:429 cl/a / 1:over@60000
",
    },
    Row {
        name: "overrides of one execute don't reach the next",
        config: r#"{"rulesets":[
{"id":"mn","kind":"managed","phase":"http_request_firewall_managed","rules":[
  {"id":"a","expression":"true","action":"log","categories":["x"]},
  {"id":"b","expression":"true","action":"log","categories":["x","y"]},
  {"id":"c","expression":"true","action":"log","enabled":false,"categories":["y"]}]},
{"id":"fm","kind":"zone","phase":"http_request_firewall_managed","rules":[
  {"id":"e","expression":"true","action":"execute","action_parameters":{"id":"mn","overrides":{"enabled":false}}},
  {"id":"f","expression":"true","action":"execute","action_parameters":{"id":"mn"}},
  {"id":"g","expression":"true","action":"execute","action_parameters":{"id":"mn","overrides":{"action":"block"}}}]}]}"#,
        requests: r#"{"at":0,"ip":"10.0.0.1","method":"GET","target":"/","headers":[["host","a.example"]]}
"#,
        wanted: "1 v1 block:403 mn/a / - log=mn/a,mn/b
",
    },
    Row {
        name: "overrides don't reach the entry point",
        config: r#"{"rulesets":[
{"id":"mn","kind":"managed","phase":"http_request_firewall_managed","rules":[
  {"id":"a","expression":"true","action":"log","categories":["x"]},
  {"id":"b","expression":"true","action":"log","categories":["x","y"]},
  {"id":"c","expression":"true","action":"log","enabled":false,"categories":["y"]}]},
{"id":"fm","kind":"zone","phase":"http_request_firewall_managed","rules":[
  {"id":"e","expression":"true","action":"execute","action_parameters":{"id":"mn","overrides":{"enabled":false,"action":"block"}}},
  {"id":"a","expression":"true","action":"log"}]}]}"#,
        requests: r#"{"at":0,"ip":"10.0.0.1","method":"GET","target":"/","headers":[["host","a.example"]]}
"#,
        wanted: "1 v1 pass - / - log=fm/a
",
    },
];

#[test]
fn overrides_hold_for_one_execution(rt: HostRuntime) -> Result<(), Fail> {
    for row in &ROWS {
        judges(&rt, rt.alloc(), row)?;
    }
    Ok(())
}
