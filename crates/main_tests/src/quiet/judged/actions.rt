//! What each action does, in each phase where it may stand.

use super::{Row, judges};
use std::test::Fail;

const ROWS: [Row; 28] = [
    Row {
        name: "nothing is judged",
        config: r#"{"rulesets":[]}"#,
        requests: r#"{"at":0,"ip":"10.0.0.1","method":"GET","target":"/a?b","headers":[["host","a.example"]]}
"#,
        wanted: "1 v1 pass - /a?b -
",
    },
    Row {
        name: "a ruleset without rules",
        config: r#"{"rulesets":[
{"id":"fw","kind":"zone","phase":"http_request_firewall_custom","rules":[]}]}"#,
        requests: r#"{"at":0,"ip":"10.0.0.1","method":"GET","target":"/","headers":[["host","a.example"]]}
"#,
        wanted: "1 v1 pass - / -
",
    },
    Row {
        name: "block in the custom firewall",
        config: r#"{"rulesets":[
{"id":"fw","kind":"zone","phase":"http_request_firewall_custom","rules":[
  {"id":"b","expression":"true","action":"block"}]}]}"#,
        requests: r#"{"at":0,"ip":"10.0.0.1","method":"GET","target":"/","headers":[["host","a.example"]]}
"#,
        wanted: "1 v1 block:403 fw/b / -
",
    },
    Row {
        name: "block in the managed firewall",
        config: r#"{"rulesets":[
{"id":"fm","kind":"zone","phase":"http_request_firewall_managed","rules":[
  {"id":"b","expression":"true","action":"block"}]}]}"#,
        requests: r#"{"at":0,"ip":"10.0.0.1","method":"GET","target":"/","headers":[["host","a.example"]]}
"#,
        wanted: "1 v1 block:403 fm/b / -
",
    },
    Row {
        name: "block with a response",
        config: r#"{"rulesets":[
{"id":"fw","kind":"zone","phase":"http_request_firewall_custom","rules":[
  {"id":"b","expression":"true","action":"block","action_parameters":{"response":{"status_code":451}}}]}]}"#,
        requests: r#"{"at":0,"ip":"10.0.0.1","method":"GET","target":"/","headers":[["host","a.example"]]}
"#,
        wanted: "1 v1 block:451 fw/b / -
",
    },
    Row {
        name: "block with a response without a status",
        config: r#"{"rulesets":[
{"id":"fw","kind":"zone","phase":"http_request_firewall_custom","rules":[
  {"id":"b","expression":"true","action":"block","action_parameters":{"response":{"content":"no"}}}]}]}"#,
        requests: r#"{"at":0,"ip":"10.0.0.1","method":"GET","target":"/","headers":[["host","a.example"]]}
"#,
        wanted: "1 v1 block:403 fw/b / -
",
    },
    Row {
        name: "managed_challenge in the custom firewall",
        config: r#"{"rulesets":[
{"id":"fw","kind":"zone","phase":"http_request_firewall_custom","rules":[
  {"id":"c","expression":"true","action":"managed_challenge"},
  {"id":"b","expression":"true","action":"block"}]}]}"#,
        requests: r#"{"at":0,"ip":"10.0.0.1","method":"GET","target":"/","headers":[["host","a.example"]]}
"#,
        wanted: "1 v1 challenge fw/c / -
",
    },
    Row {
        name: "managed_challenge in the managed firewall",
        config: r#"{"rulesets":[
{"id":"fm","kind":"zone","phase":"http_request_firewall_managed","rules":[
  {"id":"c","expression":"true","action":"managed_challenge"},
  {"id":"b","expression":"true","action":"block"}]}]}"#,
        requests: r#"{"at":0,"ip":"10.0.0.1","method":"GET","target":"/","headers":[["host","a.example"]]}
"#,
        wanted: "1 v1 challenge fm/c / -
",
    },
    Row {
        name: "js_challenge in the custom firewall",
        config: r#"{"rulesets":[
{"id":"fw","kind":"zone","phase":"http_request_firewall_custom","rules":[
  {"id":"c","expression":"true","action":"js_challenge"},
  {"id":"b","expression":"true","action":"block"}]}]}"#,
        requests: r#"{"at":0,"ip":"10.0.0.1","method":"GET","target":"/","headers":[["host","a.example"]]}
"#,
        wanted: "1 v1 challenge fw/c / -
",
    },
    Row {
        name: "js_challenge in the managed firewall",
        config: r#"{"rulesets":[
{"id":"fm","kind":"zone","phase":"http_request_firewall_managed","rules":[
  {"id":"c","expression":"true","action":"js_challenge"},
  {"id":"b","expression":"true","action":"block"}]}]}"#,
        requests: r#"{"at":0,"ip":"10.0.0.1","method":"GET","target":"/","headers":[["host","a.example"]]}
"#,
        wanted: "1 v1 challenge fm/c / -
",
    },
    Row {
        name: "challenge in the custom firewall",
        config: r#"{"rulesets":[
{"id":"fw","kind":"zone","phase":"http_request_firewall_custom","rules":[
  {"id":"c","expression":"true","action":"challenge"},
  {"id":"b","expression":"true","action":"block"}]}]}"#,
        requests: r#"{"at":0,"ip":"10.0.0.1","method":"GET","target":"/","headers":[["host","a.example"]]}
"#,
        wanted: "1 v1 challenge fw/c / -
",
    },
    Row {
        name: "challenge in the managed firewall",
        config: r#"{"rulesets":[
{"id":"fm","kind":"zone","phase":"http_request_firewall_managed","rules":[
  {"id":"c","expression":"true","action":"challenge"},
  {"id":"b","expression":"true","action":"block"}]}]}"#,
        requests: r#"{"at":0,"ip":"10.0.0.1","method":"GET","target":"/","headers":[["host","a.example"]]}
"#,
        wanted: "1 v1 challenge fm/c / -
",
    },
    Row {
        name: "log goes on",
        config: r#"{"rulesets":[
{"id":"fw","kind":"zone","phase":"http_request_firewall_custom","rules":[
  {"id":"l","expression":"true","action":"log"},
  {"id":"b","expression":"true","action":"block"}]}]}"#,
        requests: r#"{"at":0,"ip":"10.0.0.1","method":"GET","target":"/","headers":[["host","a.example"]]}
"#,
        wanted: "1 v1 block:403 fw/b / - log=fw/l
",
    },
    Row {
        name: "log in the managed firewall",
        config: r#"{"rulesets":[
{"id":"fw","kind":"zone","phase":"http_request_firewall_custom","rules":[
  {"id":"l","expression":"true","action":"log"}]},
{"id":"fm","kind":"zone","phase":"http_request_firewall_managed","rules":[
  {"id":"l","expression":"true","action":"log"}]}]}"#,
        requests: r#"{"at":0,"ip":"10.0.0.1","method":"GET","target":"/","headers":[["host","a.example"]]}
"#,
        wanted: "1 v1 pass - / - log=fw/l,fm/l
",
    },
    Row {
        name: "a redirect with its default status",
        config: r#"{"rulesets":[
{"id":"dr","kind":"zone","phase":"http_request_dynamic_redirect","rules":[
  {"id":"d","expression":"true","action":"redirect","action_parameters":{"from_value":{"target_url":{"value":"https://b.example/"}}}}]}]}"#,
        requests: r#"{"at":0,"ip":"10.0.0.1","method":"GET","target":"/a?k=1","headers":[["host","a.example"]]}
"#,
        wanted: "1 v1 redirect:302 dr/d /a?k=1 - to=https://b.example/
",
    },
    Row {
        name: "redirects by status",
        config: r#"{"rulesets":[
{"id":"dr","kind":"zone","phase":"http_request_dynamic_redirect","rules":[
  {"id":"d301","expression":"http.request.uri.path eq \"/301\"","action":"redirect","action_parameters":{"from_value":{"target_url":{"value":"/to301"},"status_code":301}}},
  {"id":"d302","expression":"http.request.uri.path eq \"/302\"","action":"redirect","action_parameters":{"from_value":{"target_url":{"value":"/to302"},"status_code":302}}},
  {"id":"d303","expression":"http.request.uri.path eq \"/303\"","action":"redirect","action_parameters":{"from_value":{"target_url":{"value":"/to303"},"status_code":303}}},
  {"id":"d307","expression":"http.request.uri.path eq \"/307\"","action":"redirect","action_parameters":{"from_value":{"target_url":{"value":"/to307"},"status_code":307}}},
  {"id":"d308","expression":"http.request.uri.path eq \"/308\"","action":"redirect","action_parameters":{"from_value":{"target_url":{"value":"/to308"},"status_code":308}}}]}]}"#,
        requests: r#"{"at":0,"ip":"10.0.0.1","method":"GET","target":"/301","headers":[["host","a.example"]]}
{"at":0,"ip":"10.0.0.1","method":"GET","target":"/303","headers":[["host","a.example"]]}
{"at":0,"ip":"10.0.0.1","method":"GET","target":"/307","headers":[["host","a.example"]]}
{"at":0,"ip":"10.0.0.1","method":"GET","target":"/308","headers":[["host","a.example"]]}
{"at":0,"ip":"10.0.0.1","method":"GET","target":"/300","headers":[["host","a.example"]]}
"#,
        wanted: "1 v1 redirect:301 dr/d301 /301 - to=/to301
2 v1 redirect:303 dr/d303 /303 - to=/to303
3 v1 redirect:307 dr/d307 /307 - to=/to307
4 v1 redirect:308 dr/d308 /308 - to=/to308
5 v1 pass - /300 -
",
    },
    Row {
        name: "a redirect whose target is missing passes on",
        config: r#"{"rulesets":[
{"id":"dr","kind":"zone","phase":"http_request_dynamic_redirect","rules":[
  {"id":"d","expression":"true","action":"redirect","action_parameters":{"from_value":{"target_url":{"expression":"http.request.headers[\"x\"][0]"}}}},
  {"id":"e","expression":"true","action":"redirect","action_parameters":{"from_value":{"target_url":{"value":"/there"}}}}]}]}"#,
        requests: r#"{"at":0,"ip":"10.0.0.1","method":"GET","target":"/a","headers":[["host","a.example"]]}
{"at":0,"ip":"10.0.0.1","method":"GET","target":"/a","headers":[["host","a.example"],["X","/here"]]}
"#,
        wanted: "1 v1 redirect:302 dr/e /a - to=/there
2 v1 redirect:302 dr/d /a - to=/here
",
    },
    Row {
        name: "a redirect keeps the query",
        config: r#"{"rulesets":[
{"id":"dr","kind":"zone","phase":"http_request_dynamic_redirect","rules":[
  {"id":"d","expression":"http.request.uri.path eq \"/a\"","action":"redirect","action_parameters":{"from_value":{"target_url":{"value":"/to"},"preserve_query_string":true}}},
  {"id":"e","expression":"http.request.uri.path eq \"/b\"","action":"redirect","action_parameters":{"from_value":{"target_url":{"value":"/to?x=1"},"preserve_query_string":true}}},
  {"id":"f","expression":"true","action":"redirect","action_parameters":{"from_value":{"target_url":{"value":"/to?x=1"},"preserve_query_string":false}}}]}]}"#,
        requests: r#"{"at":0,"ip":"10.0.0.1","method":"GET","target":"/a?k=1","headers":[["host","a.example"]]}
{"at":0,"ip":"10.0.0.1","method":"GET","target":"/a","headers":[["host","a.example"]]}
{"at":0,"ip":"10.0.0.1","method":"GET","target":"/a?","headers":[["host","a.example"]]}
{"at":0,"ip":"10.0.0.1","method":"GET","target":"/b?k=1","headers":[["host","a.example"]]}
{"at":0,"ip":"10.0.0.1","method":"GET","target":"/c?k=1","headers":[["host","a.example"]]}
"#,
        wanted: "1 v1 redirect:302 dr/d /a?k=1 - to=/to?k=1
2 v1 redirect:302 dr/d /a - to=/to
3 v1 redirect:302 dr/d /a? - to=/to
4 v1 redirect:302 dr/e /b?k=1 - to=/to?x=1&k=1
5 v1 redirect:302 dr/f /c?k=1 - to=/to?x=1
",
    },
    Row {
        name: "a rewrite of the path",
        config: r#"{"rulesets":[
{"id":"tr","kind":"zone","phase":"http_request_transform","rules":[
  {"id":"t","expression":"true","action":"rewrite","action_parameters":{"uri":{"path":{"value":"/b"}}}}]}]}"#,
        requests: r#"{"at":0,"ip":"10.0.0.1","method":"GET","target":"/a?k=1","headers":[["host","a.example"]]}
"#,
        wanted: "1 v1 pass - /b?k=1 -
",
    },
    Row {
        name: "a rewrite of the query",
        config: r#"{"rulesets":[
{"id":"tr","kind":"zone","phase":"http_request_transform","rules":[
  {"id":"t","expression":"http.request.uri.path eq \"/a\"","action":"rewrite","action_parameters":{"uri":{"query":{"value":"?x?y"}}}},
  {"id":"u","expression":"http.request.uri.path eq \"/b\"","action":"rewrite","action_parameters":{"uri":{"query":{"value":""}}}}]}]}"#,
        requests: r#"{"at":0,"ip":"10.0.0.1","method":"GET","target":"/a?k=1","headers":[["host","a.example"]]}
{"at":0,"ip":"10.0.0.1","method":"GET","target":"/b?k=1","headers":[["host","a.example"]]}
"#,
        wanted: "1 v1 pass - /a?x?y -
2 v1 pass - /b -
",
    },
    Row {
        name: "a path without a slash, and bytes that are escaped",
        config: r#"{"rulesets":[
{"id":"tr","kind":"zone","phase":"http_request_transform","rules":[
  {"id":"t","expression":"true","action":"rewrite","action_parameters":{"uri":{"path":{"value":"b/?#"}}}}]}]}"#,
        requests: r#"{"at":0,"ip":"10.0.0.1","method":"GET","target":"/a?k=1","headers":[["host","a.example"]]}
"#,
        wanted: "1 v1 pass - /b/%253F%2523?k=1 -
",
    },
    Row {
        name: "rewrites of headers",
        config: r#"{"rulesets":[
{"id":"lt","kind":"zone","phase":"http_request_late_transform","rules":[
  {"id":"h","expression":"true","action":"rewrite","action_parameters":{"headers":{"X-Tag":{"operation":"set","value":"a b"},"B":{"operation":"add","value":"2"},"C":{"operation":"remove"}}}}]}]}"#,
        requests: r#"{"at":0,"ip":"10.0.0.1","method":"GET","target":"/","headers":[["host","a.example"],["c","1"],["C","2"]]}
{"at":0,"ip":"10.0.0.1","method":"GET","target":"/","headers":[["host","a.example"],["X-TAG","1"],["b","2"],["x-tag","3"]]}
"#,
        wanted: "1 v1 pass - / - req=host:a.example,b:2,x-tag:a%20b
2 v1 pass - / - req=host:a.example,x-tag:a%20b,b:2,b:2
",
    },
    Row {
        name: "a header set to what it was shows nothing",
        config: r#"{"rulesets":[
{"id":"lt","kind":"zone","phase":"http_request_late_transform","rules":[
  {"id":"h","expression":"true","action":"rewrite","action_parameters":{"headers":{"A":{"operation":"set","value":"1"}}}}]}]}"#,
        requests: r#"{"at":0,"ip":"10.0.0.1","method":"GET","target":"/","headers":[["a","1"]]}
{"at":0,"ip":"10.0.0.1","method":"GET","target":"/","headers":[["A","1"]]}
"#,
        wanted: "1 v1 pass - / -
2 v1 pass - / - req=a:1
",
    },
    Row {
        name: "set takes the place of the first",
        config: r#"{"rulesets":[
{"id":"lt","kind":"zone","phase":"http_request_late_transform","rules":[
  {"id":"h","expression":"true","action":"rewrite","action_parameters":{"headers":{"A":{"operation":"set","value":"9\u0001\t"}}}}]}]}"#,
        requests: r#"{"at":0,"ip":"10.0.0.1","method":"GET","target":"/","headers":[["A","1"],["B","2"],["a","3"]]}
"#,
        wanted: "1 v1 pass - / - req=a:9%09,B:2
",
    },
    Row {
        name: "skips in the managed firewall",
        config: r#"{"rulesets":[
{"id":"fm","kind":"zone","phase":"http_request_firewall_managed","rules":[
  {"id":"s","expression":"true","action":"skip","action_parameters":{"phases":["http_request_late_transform"],"ruleset":"current"}},
  {"id":"b","expression":"true","action":"block"}]},
{"id":"lt","kind":"zone","phase":"http_request_late_transform","rules":[
  {"id":"h","expression":"true","action":"rewrite","action_parameters":{"headers":{"A":{"operation":"set","value":"1"}}}}]}]}"#,
        requests: r#"{"at":0,"ip":"10.0.0.1","method":"GET","target":"/","headers":[["host","a.example"]]}
"#,
        wanted: "1 v1 pass - / -
",
    },
    Row {
        name: "managed_challenge in the phase of limits",
        config: r#"{"rulesets":[
{"id":"rl","kind":"zone","phase":"http_ratelimit","rules":[
  {"id":"r","expression":"true","action":"managed_challenge","ratelimit":{"characteristics":["ip.src"],"period":10,"requests_per_period":1,"mitigation_timeout":60}}]}]}"#,
        requests: r#"{"at":0,"ip":"10.0.0.1","method":"GET","target":"/","headers":[["host","a.example"]]}
{"at":0,"ip":"10.0.0.1","method":"GET","target":"/","headers":[["host","a.example"]]}
"#,
        wanted: "1 v1 pass - / 0:pass
2 v1 challenge rl/r / 1:over@60000
",
    },
    Row {
        name: "js_challenge in the phase of limits",
        config: r#"{"rulesets":[
{"id":"rl","kind":"zone","phase":"http_ratelimit","rules":[
  {"id":"r","expression":"true","action":"js_challenge","ratelimit":{"characteristics":["ip.src"],"period":10,"requests_per_period":1,"mitigation_timeout":60}}]}]}"#,
        requests: r#"{"at":0,"ip":"10.0.0.1","method":"GET","target":"/","headers":[["host","a.example"]]}
{"at":0,"ip":"10.0.0.1","method":"GET","target":"/","headers":[["host","a.example"]]}
"#,
        wanted: "1 v1 pass - / 0:pass
2 v1 challenge rl/r / 1:over@60000
",
    },
    Row {
        name: "challenge in the phase of limits",
        config: r#"{"rulesets":[
{"id":"rl","kind":"zone","phase":"http_ratelimit","rules":[
  {"id":"r","expression":"true","action":"challenge","ratelimit":{"characteristics":["ip.src"],"period":10,"requests_per_period":1,"mitigation_timeout":60}}]}]}"#,
        requests: r#"{"at":0,"ip":"10.0.0.1","method":"GET","target":"/","headers":[["host","a.example"]]}
{"at":0,"ip":"10.0.0.1","method":"GET","target":"/","headers":[["host","a.example"]]}
"#,
        wanted: "1 v1 pass - / 0:pass
2 v1 challenge rl/r / 1:over@60000
",
    },
];

#[test]
fn each_action_is_taken(rt: HostRuntime) -> Result<(), Fail> {
    for row in &ROWS {
        judges(&rt, rt.alloc(), row)?;
    }
    Ok(())
}
