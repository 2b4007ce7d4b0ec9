//! What is skipped before, during and after what it names.

use super::{Row, judges};
use std::test::Fail;

const ROWS: [Row; 23] = [
    Row {
        name: "current ends the entry point",
        config: r#"{"rulesets":[
{"id":"fw","kind":"zone","phase":"http_request_firewall_custom","rules":[
  {"id":"s","expression":"true","action":"skip","action_parameters":{"ruleset":"current"}},
  {"id":"b","expression":"true","action":"block"}]},
{"id":"fm","kind":"zone","phase":"http_request_firewall_managed","rules":[
  {"id":"l","expression":"true","action":"log"}]}]}"#,
        requests: r#"{"at":0,"ip":"10.0.0.1","method":"GET","target":"/","headers":[["host","a.example"]]}
"#,
        wanted: "1 v1 pass - / - log=fm/l
",
    },
    Row {
        name: "current ends the executed ruleset alone",
        config: r#"{"rulesets":[
{"id":"cs","kind":"custom","phase":"http_request_firewall_custom","rules":[
  {"id":"s","expression":"true","action":"skip","action_parameters":{"ruleset":"current"}},
  {"id":"b","expression":"true","action":"block"}]},
{"id":"fw","kind":"zone","phase":"http_request_firewall_custom","rules":[
  {"id":"e","expression":"true","action":"execute","action_parameters":{"id":"cs"}},
  {"id":"l","expression":"true","action":"log"}]}]}"#,
        requests: r#"{"at":0,"ip":"10.0.0.1","method":"GET","target":"/","headers":[["host","a.example"]]}
"#,
        wanted: "1 v1 pass - / - log=fw/l
",
    },
    Row {
        name: "a skip without current goes on",
        config: r#"{"rulesets":[
{"id":"fw","kind":"zone","phase":"http_request_firewall_custom","rules":[
  {"id":"s","expression":"true","action":"skip","action_parameters":{}},
  {"id":"b","expression":"true","action":"block"}]}]}"#,
        requests: r#"{"at":0,"ip":"10.0.0.1","method":"GET","target":"/","headers":[["host","a.example"]]}
"#,
        wanted: "1 v1 block:403 fw/b / -
",
    },
    Row {
        name: "current makes the phase's changes",
        config: r#"{"rulesets":[
{"id":"tr","kind":"zone","phase":"http_request_transform","rules":[
  {"id":"t","expression":"true","action":"rewrite","action_parameters":{"uri":{"path":{"value":"/b"}}}}]},
{"id":"fw","kind":"zone","phase":"http_request_firewall_custom","rules":[
  {"id":"s","expression":"true","action":"skip","action_parameters":{"ruleset":"current"}},
  {"id":"b","expression":"true","action":"block"}]}]}"#,
        requests: r#"{"at":0,"ip":"10.0.0.1","method":"GET","target":"/a","headers":[["host","a.example"]]}
"#,
        wanted: "1 v1 pass - /b -
",
    },
    Row {
        name: "a phase is skipped before it begins",
        config: r#"{"rulesets":[
{"id":"fw","kind":"zone","phase":"http_request_firewall_custom","rules":[
  {"id":"s","expression":"true","action":"skip","action_parameters":{"phases":["http_request_firewall_managed"]}}]},
{"id":"fm","kind":"zone","phase":"http_request_firewall_managed","rules":[
  {"id":"b","expression":"true","action":"block"}]}]}"#,
        requests: r#"{"at":0,"ip":"10.0.0.1","method":"GET","target":"/","headers":[["host","a.example"]]}
"#,
        wanted: "1 v1 pass - / -
",
    },
    Row {
        name: "a skip of the phase under way does nothing",
        config: r#"{"rulesets":[
{"id":"fw","kind":"zone","phase":"http_request_firewall_custom","rules":[
  {"id":"s","expression":"true","action":"skip","action_parameters":{"phases":["http_request_firewall_custom"]}},
  {"id":"b","expression":"true","action":"block"}]}]}"#,
        requests: r#"{"at":0,"ip":"10.0.0.1","method":"GET","target":"/","headers":[["host","a.example"]]}
"#,
        wanted: "1 v1 block:403 fw/b / -
",
    },
    Row {
        name: "a skip of a phase that is over does nothing",
        config: r#"{"rulesets":[
{"id":"tr","kind":"zone","phase":"http_request_transform","rules":[
  {"id":"t","expression":"true","action":"rewrite","action_parameters":{"uri":{"path":{"value":"/b"}}}}]},
{"id":"fw","kind":"zone","phase":"http_request_firewall_custom","rules":[
  {"id":"s","expression":"true","action":"skip","action_parameters":{"phases":["http_request_transform","http_request_dynamic_redirect"]}}]}]}"#,
        requests: r#"{"at":0,"ip":"10.0.0.1","method":"GET","target":"/a","headers":[["host","a.example"]]}
"#,
        wanted: "1 v1 pass - /b -
",
    },
    Row {
        name: "a phase is skipped from an executed ruleset",
        config: r#"{"rulesets":[
{"id":"cs","kind":"custom","phase":"http_request_firewall_custom","rules":[
  {"id":"s","expression":"true","action":"skip","action_parameters":{"phases":["http_request_firewall_managed","http_request_late_transform"],"ruleset":"current"}}]},
{"id":"fw","kind":"zone","phase":"http_request_firewall_custom","rules":[
  {"id":"e","expression":"true","action":"execute","action_parameters":{"id":"cs"}},
  {"id":"l","expression":"true","action":"log"}]},
{"id":"fm","kind":"zone","phase":"http_request_firewall_managed","rules":[
  {"id":"b","expression":"true","action":"block"}]},
{"id":"lt","kind":"zone","phase":"http_request_late_transform","rules":[
  {"id":"h","expression":"true","action":"rewrite","action_parameters":{"headers":{"A":{"operation":"set","value":"1"}}}}]}]}"#,
        requests: r#"{"at":0,"ip":"10.0.0.1","method":"GET","target":"/","headers":[["host","a.example"]]}
"#,
        wanted: "1 v1 pass - / - log=fw/l
",
    },
    Row {
        name: "a skip of the reply's phase is kept",
        config: r#"{"rulesets":[
{"id":"fw","kind":"zone","phase":"http_request_firewall_custom","rules":[
  {"id":"s","expression":"true","action":"skip","action_parameters":{"phases":["http_response_headers_transform"]}}]}]}"#,
        requests: r#"{"at":0,"ip":"10.0.0.1","method":"GET","target":"/","headers":[["host","a.example"]]}
"#,
        wanted: "1 v1 pass - / -
",
    },
    Row {
        name: "the phase of limits is skipped",
        config: r#"{"rulesets":[
{"id":"fw","kind":"zone","phase":"http_request_firewall_custom","rules":[
  {"id":"s","expression":"http.request.uri.path eq \"/free\"","action":"skip","action_parameters":{"phases":["http_ratelimit"]}}]},
{"id":"rl","kind":"zone","phase":"http_ratelimit","rules":[
  {"id":"r","expression":"true","action":"block","ratelimit":{"characteristics":["ip.src"],"period":10,"requests_per_period":1,"mitigation_timeout":60}}]}]}"#,
        requests: r#"{"at":0,"ip":"10.0.0.1","method":"GET","target":"/free","headers":[["host","a.example"]]}
{"at":0,"ip":"10.0.0.1","method":"GET","target":"/","headers":[["host","a.example"]]}
{"at":0,"ip":"10.0.0.1","method":"GET","target":"/free","headers":[["host","a.example"]]}
{"at":0,"ip":"10.0.0.1","method":"GET","target":"/","headers":[["host","a.example"]]}
"#,
        wanted: "1 v1 pass - /free -
2 v1 pass - / 0:pass
3 v1 pass - /free -
4 v1 block:429 rl/r / 1:over@60000
",
    },
    Row {
        name: "an entry point is skipped before it begins",
        config: r#"{"rulesets":[
{"id":"fw","kind":"zone","phase":"http_request_firewall_custom","rules":[
  {"id":"s","expression":"true","action":"skip","action_parameters":{"rulesets":["fm","nobody"]}}]},
{"id":"fm","kind":"zone","phase":"http_request_firewall_managed","rules":[
  {"id":"b","expression":"true","action":"block"}]}]}"#,
        requests: r#"{"at":0,"ip":"10.0.0.1","method":"GET","target":"/","headers":[["host","a.example"]]}
"#,
        wanted: "1 v1 pass - / -
",
    },
    Row {
        name: "a skip of the ruleset under way does nothing",
        config: r#"{"rulesets":[
{"id":"fw","kind":"zone","phase":"http_request_firewall_custom","rules":[
  {"id":"s","expression":"true","action":"skip","action_parameters":{"rulesets":["fw"]}},
  {"id":"b","expression":"true","action":"block"}]}]}"#,
        requests: r#"{"at":0,"ip":"10.0.0.1","method":"GET","target":"/","headers":[["host","a.example"]]}
"#,
        wanted: "1 v1 block:403 fw/b / -
",
    },
    Row {
        name: "a judging of a ruleset is skipped, a later one too",
        config: r#"{"rulesets":[
{"id":"cs","kind":"custom","phase":"http_request_firewall_custom","rules":[
  {"id":"l","expression":"true","action":"log"}]},
{"id":"fw","kind":"zone","phase":"http_request_firewall_custom","rules":[
  {"id":"e","expression":"true","action":"execute","action_parameters":{"id":"cs"}},
  {"id":"s","expression":"true","action":"skip","action_parameters":{"rulesets":["cs"]}},
  {"id":"f","expression":"true","action":"execute","action_parameters":{"id":"cs"}},
  {"id":"z","expression":"true","action":"log"},
  {"id":"g","expression":"true","action":"execute","action_parameters":{"id":"cs"}}]}]}"#,
        requests: r#"{"at":0,"ip":"10.0.0.1","method":"GET","target":"/","headers":[["host","a.example"]]}
"#,
        wanted: "1 v1 pass - / - log=cs/l,fw/z
",
    },
    Row {
        name: "a skip of the executed ruleset under way holds for its next judging",
        config: r#"{"rulesets":[
{"id":"cs","kind":"custom","phase":"http_request_firewall_custom","rules":[
  {"id":"s","expression":"true","action":"skip","action_parameters":{"rulesets":["cs"]}},
  {"id":"l","expression":"true","action":"log"}]},
{"id":"fw","kind":"zone","phase":"http_request_firewall_custom","rules":[
  {"id":"e","expression":"true","action":"execute","action_parameters":{"id":"cs"}},
  {"id":"f","expression":"true","action":"execute","action_parameters":{"id":"cs"}}]}]}"#,
        requests: r#"{"at":0,"ip":"10.0.0.1","method":"GET","target":"/","headers":[["host","a.example"]]}
"#,
        wanted: "1 v1 pass - / - log=cs/l
",
    },
    Row {
        name: "a skip of the executing ruleset lets it go on",
        config: r#"{"rulesets":[
{"id":"cs","kind":"custom","phase":"http_request_firewall_custom","rules":[
  {"id":"s","expression":"true","action":"skip","action_parameters":{"rulesets":["fw"]}}]},
{"id":"fw","kind":"zone","phase":"http_request_firewall_custom","rules":[
  {"id":"e","expression":"true","action":"execute","action_parameters":{"id":"cs"}},
  {"id":"b","expression":"true","action":"block"}]}]}"#,
        requests: r#"{"at":0,"ip":"10.0.0.1","method":"GET","target":"/","headers":[["host","a.example"]]}
"#,
        wanted: "1 v1 block:403 fw/b / -
",
    },
    Row {
        name: "a rule is skipped where it is reached later",
        config: r#"{"rulesets":[
{"id":"fw","kind":"zone","phase":"http_request_firewall_custom","rules":[
  {"id":"s","expression":"true","action":"skip","action_parameters":{"rules":{"fw":["b"]}}},
  {"id":"b","expression":"true","action":"block"},
  {"id":"z","expression":"true","action":"log"}]}]}"#,
        requests: r#"{"at":0,"ip":"10.0.0.1","method":"GET","target":"/","headers":[["host","a.example"]]}
"#,
        wanted: "1 v1 pass - / - log=fw/z
",
    },
    Row {
        name: "a skip of a rule that was reached does nothing",
        config: r#"{"rulesets":[
{"id":"fw","kind":"zone","phase":"http_request_firewall_custom","rules":[
  {"id":"l","expression":"true","action":"log"},
  {"id":"s","expression":"true","action":"skip","action_parameters":{"rules":{"fw":["l","s"]}}},
  {"id":"z","expression":"true","action":"log"}]}]}"#,
        requests: r#"{"at":0,"ip":"10.0.0.1","method":"GET","target":"/","headers":[["host","a.example"]]}
"#,
        wanted: "1 v1 pass - / - log=fw/l,fw/z
",
    },
    Row {
        name: "a rule is skipped in its ruleset alone",
        config: r#"{"rulesets":[
{"id":"fw","kind":"zone","phase":"http_request_firewall_custom","rules":[
  {"id":"s","expression":"true","action":"skip","action_parameters":{"rules":{"fm":["b"]}}},
  {"id":"b","expression":"ssl","action":"managed_challenge"}]},
{"id":"fm","kind":"zone","phase":"http_request_firewall_managed","rules":[
  {"id":"a","expression":"true","action":"log"},
  {"id":"b","expression":"true","action":"block"}]}]}"#,
        requests: r#"{"at":0,"ip":"10.0.0.1","method":"GET","target":"/","headers":[["host","a.example"]]}
{"at":0,"ip":"10.0.0.1","method":"GET","target":"/","headers":[["host","a.example"]],"ssl":true}
"#,
        wanted: "1 v1 pass - / - log=fm/a
2 v1 challenge fw/b / -
",
    },
    Row {
        name: "a rule of an executed ruleset is skipped",
        config: r#"{"rulesets":[
{"id":"cs","kind":"custom","phase":"http_request_firewall_custom","rules":[
  {"id":"l","expression":"true","action":"log"},
  {"id":"b","expression":"true","action":"block"}]},
{"id":"fw","kind":"zone","phase":"http_request_firewall_custom","rules":[
  {"id":"s","expression":"true","action":"skip","action_parameters":{"rules":{"cs":["b","nobody"],"a":["x"]}}},
  {"id":"e","expression":"true","action":"execute","action_parameters":{"id":"cs"}}]}]}"#,
        requests: r#"{"at":0,"ip":"10.0.0.1","method":"GET","target":"/","headers":[["host","a.example"]]}
"#,
        wanted: "1 v1 pass - / - log=cs/l
",
    },
    Row {
        name: "the executing rule is skipped",
        config: r#"{"rulesets":[
{"id":"cs","kind":"custom","phase":"http_request_firewall_custom","rules":[
  {"id":"b","expression":"true","action":"block"}]},
{"id":"fw","kind":"zone","phase":"http_request_firewall_custom","rules":[
  {"id":"s","expression":"true","action":"skip","action_parameters":{"rules":{"fw":["e"]}}},
  {"id":"e","expression":"true","action":"execute","action_parameters":{"id":"cs"}},
  {"id":"z","expression":"true","action":"log"}]}]}"#,
        requests: r#"{"at":0,"ip":"10.0.0.1","method":"GET","target":"/","headers":[["host","a.example"]]}
"#,
        wanted: "1 v1 pass - / - log=fw/z
",
    },
    Row {
        name: "a rule that skips itself when it ran once",
        config: r#"{"rulesets":[
{"id":"cs","kind":"custom","phase":"http_request_firewall_custom","rules":[
  {"id":"s","expression":"true","action":"skip","action_parameters":{"rules":{"cs":["s"]}}},
  {"id":"l","expression":"true","action":"log"}]},
{"id":"fw","kind":"zone","phase":"http_request_firewall_custom","rules":[
  {"id":"e","expression":"true","action":"execute","action_parameters":{"id":"cs"}},
  {"id":"f","expression":"true","action":"execute","action_parameters":{"id":"cs"}}]}]}"#,
        requests: r#"{"at":0,"ip":"10.0.0.1","method":"GET","target":"/","headers":[["host","a.example"]]}
"#,
        wanted: "1 v1 pass - / - log=cs/l,cs/l
",
    },
    Row {
        name: "skips of several rules are joined in byte order",
        config: r#"{"rulesets":[
{"id":"fw","kind":"zone","phase":"http_request_firewall_custom","rules":[
  {"id":"s","expression":"true","action":"skip","action_parameters":{"rules":{"b":["1"],"c":["2"]},"phases":["http_request_late_transform"]}},
  {"id":"t","expression":"true","action":"skip","action_parameters":{"rules":{"a":["3"],"b":["4"]},"rulesets":["x"],"phases":["http_request_dynamic_redirect"]}}]}]}"#,
        requests: r#"{"at":0,"ip":"10.0.0.1","method":"GET","target":"/","headers":[["host","a.example"]]}
"#,
        wanted: "1 v1 pass - / -
",
    },
    Row {
        name: "a skip with a limit's rule",
        config: r#"{"rulesets":[
{"id":"fw","kind":"zone","phase":"http_request_firewall_custom","rules":[
  {"id":"s","expression":"http.request.uri.path eq \"/free\"","action":"skip","action_parameters":{"rules":{"rl":["r"]}}}]},
{"id":"rl","kind":"zone","phase":"http_ratelimit","rules":[
  {"id":"r","expression":"true","action":"block","ratelimit":{"characteristics":["ip.src"],"period":10,"requests_per_period":1,"mitigation_timeout":60}},
  {"id":"l","expression":"true","action":"log","ratelimit":{"characteristics":["ip.src"],"period":10,"requests_per_period":5,"mitigation_timeout":60}}]}]}"#,
        requests: r#"{"at":0,"ip":"10.0.0.1","method":"GET","target":"/free","headers":[["host","a.example"]]}
{"at":0,"ip":"10.0.0.1","method":"GET","target":"/","headers":[["host","a.example"]]}
"#,
        wanted: "1 v1 pass - /free 0:pass
2 v1 pass - / 1:pass,2:pass
",
    },
];

#[test]
fn what_is_skipped_is_passed_over(rt: HostRuntime) -> Result<(), Fail> {
    for row in &ROWS {
        judges(&rt, rt.alloc(), row)?;
    }
    Ok(())
}
