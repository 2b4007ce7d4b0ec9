//! The order of phases and rules, conditions, changes within a phase, and executed rulesets.

use super::{Row, judges};
use std::test::Fail;

const ROWS: [Row; 22] = [
    Row {
        name: "phases in their order",
        config: r#"{"rulesets":[
{"id":"lt","kind":"zone","phase":"http_request_late_transform","rules":[
  {"id":"h","expression":"http.request.uri.path eq \"/b\"","action":"rewrite","action_parameters":{"headers":{"A":{"operation":"set","value":"1"}}}}]},
{"id":"fm","kind":"zone","phase":"http_request_firewall_managed","rules":[
  {"id":"m","expression":"http.request.uri.path eq \"/b\"","action":"log"}]},
{"id":"fw","kind":"zone","phase":"http_request_firewall_custom","rules":[
  {"id":"l","expression":"http.request.uri.path eq \"/b\"","action":"log"}]},
{"id":"tr","kind":"zone","phase":"http_request_transform","rules":[
  {"id":"t","expression":"true","action":"rewrite","action_parameters":{"uri":{"path":{"value":"/b"}}}}]},
{"id":"dr","kind":"zone","phase":"http_request_dynamic_redirect","rules":[
  {"id":"d","expression":"http.request.uri.path eq \"/b\"","action":"redirect","action_parameters":{"from_value":{"target_url":{"value":"/x"}}}}]}]}"#,
        requests: r#"{"at":0,"ip":"10.0.0.1","method":"GET","target":"/a","headers":[]}
{"at":0,"ip":"10.0.0.1","method":"GET","target":"/b","headers":[]}
"#,
        wanted: "1 v1 pass - /b - log=fw/l,fm/m req=a:1
2 v1 redirect:302 dr/d /b - to=/x
",
    },
    Row {
        name: "rules from the first",
        config: r#"{"rulesets":[
{"id":"fw","kind":"zone","phase":"http_request_firewall_custom","rules":[
  {"id":"r1","expression":"true","action":"log"},
  {"id":"r2","expression":"ssl","action":"block"},
  {"id":"r3","expression":"true","action":"managed_challenge"},
  {"id":"r4","expression":"true","action":"block"}]}]}"#,
        requests: r#"{"at":0,"ip":"10.0.0.1","method":"GET","target":"/","headers":[["host","a.example"]]}
{"at":0,"ip":"10.0.0.1","method":"GET","target":"/","headers":[["host","a.example"]],"ssl":true}
"#,
        wanted: "1 v1 challenge fw/r3 / - log=fw/r1
2 v1 block:403 fw/r2 / - log=fw/r1
",
    },
    Row {
        name: "nothing is judged behind an end",
        config: r#"{"rulesets":[
{"id":"fw","kind":"zone","phase":"http_request_firewall_custom","rules":[
  {"id":"b","expression":"true","action":"block"}]},
{"id":"fm","kind":"zone","phase":"http_request_firewall_managed","rules":[
  {"id":"l","expression":"true","action":"log"}]}]}"#,
        requests: r#"{"at":0,"ip":"10.0.0.1","method":"GET","target":"/","headers":[["host","a.example"]]}
"#,
        wanted: "1 v1 block:403 fw/b / -
",
    },
    Row {
        name: "an end keeps earlier phases' changes, not its own phase's",
        config: r#"{"rulesets":[
{"id":"tr","kind":"zone","phase":"http_request_transform","rules":[
  {"id":"t","expression":"true","action":"rewrite","action_parameters":{"uri":{"path":{"value":"/b"}}}}]},
{"id":"fw","kind":"zone","phase":"http_request_firewall_custom","rules":[
  {"id":"b","expression":"true","action":"block"}]}]}"#,
        requests: r#"{"at":0,"ip":"10.0.0.1","method":"GET","target":"/a","headers":[["host","a.example"]]}
"#,
        wanted: "1 v1 block:403 fw/b /b -
",
    },
    Row {
        name: "a disabled rule",
        config: r#"{"rulesets":[
{"id":"fw","kind":"zone","phase":"http_request_firewall_custom","rules":[
  {"id":"r1","expression":"true","action":"block","enabled":false},
  {"id":"r2","expression":"true","action":"log","enabled":true}]}]}"#,
        requests: r#"{"at":0,"ip":"10.0.0.1","method":"GET","target":"/","headers":[["host","a.example"]]}
"#,
        wanted: "1 v1 pass - / - log=fw/r2
",
    },
    Row {
        name: "a missing value is false",
        config: r#"{"rulesets":[
{"id":"fw","kind":"zone","phase":"http_request_firewall_custom","rules":[
  {"id":"r1","expression":"http.request.headers[\"x\"][0] ne \"a\"","action":"block"}]}]}"#,
        requests: r#"{"at":0,"ip":"10.0.0.1","method":"GET","target":"/","headers":[["host","a.example"]]}
{"at":0,"ip":"10.0.0.1","method":"GET","target":"/","headers":[["x","b"]]}
{"at":0,"ip":"10.0.0.1","method":"GET","target":"/","headers":[["x","a"]]}
"#,
        wanted: "1 v1 pass - / -
2 v1 block:403 fw/r1 / -
3 v1 pass - / -
",
    },
    Row {
        name: "lists",
        config: r#"{"lists":[{"name":"bad","kind":"ip","items":["10.0.1.0/24"]},{"name":"names","kind":"text","items":["a.example","c"]}],
"rulesets":[
{"id":"fw","kind":"zone","phase":"http_request_firewall_custom","rules":[
  {"id":"r1","expression":"ip.src in $bad","action":"block"},
  {"id":"r2","expression":"http.host in $names","action":"log"}]}]}"#,
        requests: r#"{"at":0,"ip":"10.0.0.1","method":"GET","target":"/","headers":[["host","a.example"]]}
{"at":0,"ip":"10.0.1.7","method":"GET","target":"/","headers":[["host","a.example"]]}
{"at":0,"ip":"10.0.0.1","method":"GET","target":"/","headers":[["host","b"]]}
"#,
        wanted: "1 v1 pass - / - log=fw/r2
2 v1 block:403 fw/r1 / -
3 v1 pass - / -
",
    },
    Row {
        name: "the last change of a part",
        config: r#"{"rulesets":[
{"id":"tr","kind":"zone","phase":"http_request_transform","rules":[
  {"id":"t","expression":"true","action":"rewrite","action_parameters":{"uri":{"path":{"value":"/b"}}}},
  {"id":"u","expression":"true","action":"rewrite","action_parameters":{"uri":{"path":{"value":"/c"}}}}]}]}"#,
        requests: r#"{"at":0,"ip":"10.0.0.1","method":"GET","target":"/a?k","headers":[["host","a.example"]]}
"#,
        wanted: "1 v1 pass - /c?k -
",
    },
    Row {
        name: "the parts are apart",
        config: r#"{"rulesets":[
{"id":"tr","kind":"zone","phase":"http_request_transform","rules":[
  {"id":"t","expression":"true","action":"rewrite","action_parameters":{"uri":{"path":{"value":"/b"},"query":{"value":"x"}}}},
  {"id":"u","expression":"true","action":"rewrite","action_parameters":{"uri":{"query":{"value":"y"}}}}]}]}"#,
        requests: r#"{"at":0,"ip":"10.0.0.1","method":"GET","target":"/a","headers":[["host","a.example"]]}
"#,
        wanted: "1 v1 pass - /b?y -
",
    },
    Row {
        name: "conditions see the phase's beginning",
        config: r#"{"rulesets":[
{"id":"tr","kind":"zone","phase":"http_request_transform","rules":[
  {"id":"t","expression":"true","action":"rewrite","action_parameters":{"uri":{"path":{"value":"/b"}}}},
  {"id":"u","expression":"http.request.uri.path eq \"/a\"","action":"rewrite","action_parameters":{"uri":{"path":{"value":"/c"}}}}]}]}"#,
        requests: r#"{"at":0,"ip":"10.0.0.1","method":"GET","target":"/a","headers":[["host","a.example"]]}
{"at":0,"ip":"10.0.0.1","method":"GET","target":"/x","headers":[["host","a.example"]]}
"#,
        wanted: "1 v1 pass - /c -
2 v1 pass - /b -
",
    },
    Row {
        name: "a missing value keeps the earlier change",
        config: r#"{"rulesets":[
{"id":"tr","kind":"zone","phase":"http_request_transform","rules":[
  {"id":"t","expression":"true","action":"rewrite","action_parameters":{"uri":{"path":{"value":"/b"}}}},
  {"id":"u","expression":"true","action":"rewrite","action_parameters":{"uri":{"path":{"expression":"http.request.headers[\"x\"][0]"}}}}]}]}"#,
        requests: r#"{"at":0,"ip":"10.0.0.1","method":"GET","target":"/a","headers":[["host","a.example"]]}
{"at":0,"ip":"10.0.0.1","method":"GET","target":"/a","headers":[["x","/c"]]}
"#,
        wanted: "1 v1 pass - /b -
2 v1 pass - /c -
",
    },
    Row {
        name: "computed values see the phase's beginning",
        config: r#"{"rulesets":[
{"id":"tr","kind":"zone","phase":"http_request_transform","rules":[
  {"id":"t","expression":"true","action":"rewrite","action_parameters":{"uri":{"path":{"value":"/b"}}}},
  {"id":"u","expression":"true","action":"rewrite","action_parameters":{"uri":{"query":{"expression":"http.request.uri.path"}}}}]}]}"#,
        requests: r#"{"at":0,"ip":"10.0.0.1","method":"GET","target":"/a","headers":[["host","a.example"]]}
"#,
        wanted: "1 v1 pass - /b?/a -
",
    },
    Row {
        name: "the last change of a header, whatever its case",
        config: r#"{"rulesets":[
{"id":"lt","kind":"zone","phase":"http_request_late_transform","rules":[
  {"id":"h","expression":"true","action":"rewrite","action_parameters":{"headers":{"X-A":{"operation":"set","value":"1"},"X-B":{"operation":"add","value":"1"}}}},
  {"id":"i","expression":"true","action":"rewrite","action_parameters":{"headers":{"x-a":{"operation":"add","value":"2"},"x-b":{"operation":"remove"}}}}]}]}"#,
        requests: r#"{"at":0,"ip":"10.0.0.1","method":"GET","target":"/","headers":[["X-A","0"],["x-b","0"]]}
"#,
        wanted: "1 v1 pass - / - req=X-A:0,x-a:2
",
    },
    Row {
        name: "headers in byte order of their names",
        config: r#"{"rulesets":[
{"id":"lt","kind":"zone","phase":"http_request_late_transform","rules":[
  {"id":"h","expression":"true","action":"rewrite","action_parameters":{"headers":{"Z":{"operation":"add","value":"1"}}}},
  {"id":"i","expression":"true","action":"rewrite","action_parameters":{"headers":{"Y":{"operation":"add","value":"2"}}}},
  {"id":"j","expression":"true","action":"rewrite","action_parameters":{"headers":{"X":{"operation":"add","value":"3"}}}}]}]}"#,
        requests: r#"{"at":0,"ip":"10.0.0.1","method":"GET","target":"/","headers":[]}
"#,
        wanted: "1 v1 pass - / - req=x:3,y:2,z:1
",
    },
    Row {
        name: "a missing header value keeps the earlier change",
        config: r#"{"rulesets":[
{"id":"lt","kind":"zone","phase":"http_request_late_transform","rules":[
  {"id":"h","expression":"true","action":"rewrite","action_parameters":{"headers":{"A":{"operation":"set","value":"1"}}}},
  {"id":"i","expression":"true","action":"rewrite","action_parameters":{"headers":{"A":{"operation":"set","expression":"http.request.headers[\"x\"][0]"}}}}]}]}"#,
        requests: r#"{"at":0,"ip":"10.0.0.1","method":"GET","target":"/","headers":[]}
{"at":0,"ip":"10.0.0.1","method":"GET","target":"/","headers":[["x","2"]]}
"#,
        wanted: "1 v1 pass - / - req=a:1
2 v1 pass - / - req=x:2,a:2
",
    },
    Row {
        name: "a later phase sees the changes",
        config: r#"{"rulesets":[
{"id":"tr","kind":"zone","phase":"http_request_transform","rules":[
  {"id":"t","expression":"true","action":"rewrite","action_parameters":{"uri":{"path":{"value":"/b"}}}}]},
{"id":"fw","kind":"zone","phase":"http_request_firewall_custom","rules":[
  {"id":"b","expression":"http.request.uri.path eq \"/b\"","action":"block"}]}]}"#,
        requests: r#"{"at":0,"ip":"10.0.0.1","method":"GET","target":"/a","headers":[["host","a.example"]]}
"#,
        wanted: "1 v1 block:403 fw/b /b -
",
    },
    Row {
        name: "changes by an executed ruleset",
        config: r#"{"rulesets":[
{"id":"ct","kind":"custom","phase":"http_request_transform","rules":[
  {"id":"c","expression":"true","action":"rewrite","action_parameters":{"uri":{"path":{"value":"/c"}}}},
  {"id":"d","expression":"http.request.uri.path eq \"/c\"","action":"rewrite","action_parameters":{"uri":{"path":{"value":"/d"}}}}]},
{"id":"tr","kind":"zone","phase":"http_request_transform","rules":[
  {"id":"t","expression":"true","action":"rewrite","action_parameters":{"uri":{"path":{"value":"/b"}}}},
  {"id":"e","expression":"true","action":"execute","action_parameters":{"id":"ct"}}]}]}"#,
        requests: r#"{"at":0,"ip":"10.0.0.1","method":"GET","target":"/a","headers":[["host","a.example"]]}
{"at":0,"ip":"10.0.0.1","method":"GET","target":"/c","headers":[["host","a.example"]]}
"#,
        wanted: "1 v1 pass - /c -
2 v1 pass - /d -
",
    },
    Row {
        name: "an executed ruleset is judged in its place",
        config: r#"{"rulesets":[
{"id":"cs","kind":"custom","phase":"http_request_firewall_custom","rules":[
  {"id":"l","expression":"true","action":"log"},
  {"id":"b","expression":"http.request.uri.path eq \"/x\"","action":"block"}]},
{"id":"fw","kind":"zone","phase":"http_request_firewall_custom","rules":[
  {"id":"a","expression":"true","action":"log"},
  {"id":"e","expression":"true","action":"execute","action_parameters":{"id":"cs"}},
  {"id":"z","expression":"true","action":"log"}]}]}"#,
        requests: r#"{"at":0,"ip":"10.0.0.1","method":"GET","target":"/","headers":[["host","a.example"]]}
{"at":0,"ip":"10.0.0.1","method":"GET","target":"/x","headers":[["host","a.example"]]}
"#,
        wanted: "1 v1 pass - / - log=fw/a,cs/l,fw/z
2 v1 block:403 cs/b /x - log=fw/a,cs/l
",
    },
    Row {
        name: "a rule that ran twice is noted twice",
        config: r#"{"rulesets":[
{"id":"cs","kind":"custom","phase":"http_request_firewall_custom","rules":[
  {"id":"l","expression":"true","action":"log"}]},
{"id":"fw","kind":"zone","phase":"http_request_firewall_custom","rules":[
  {"id":"e","expression":"true","action":"execute","action_parameters":{"id":"cs"}},
  {"id":"f","expression":"true","action":"execute","action_parameters":{"id":"cs"}}]}]}"#,
        requests: r#"{"at":0,"ip":"10.0.0.1","method":"GET","target":"/","headers":[["host","a.example"]]}
"#,
        wanted: "1 v1 pass - / - log=cs/l,cs/l
",
    },
    Row {
        name: "execute in each phase",
        config: r#"{"rulesets":[
{"id":"c1","kind":"custom","phase":"http_request_dynamic_redirect","rules":[
  {"id":"d","expression":"http.request.uri.path eq \"/r\"","action":"redirect","action_parameters":{"from_value":{"target_url":{"value":"/r"}}}}]},
{"id":"dr","kind":"zone","phase":"http_request_dynamic_redirect","rules":[
  {"id":"e","expression":"true","action":"execute","action_parameters":{"id":"c1"}}]},
{"id":"c2","kind":"managed","phase":"http_request_transform","rules":[
  {"id":"t","expression":"true","action":"rewrite","action_parameters":{"uri":{"path":{"value":"/t"}}}}]},
{"id":"tr","kind":"zone","phase":"http_request_transform","rules":[
  {"id":"e","expression":"true","action":"execute","action_parameters":{"id":"c2"}}]},
{"id":"c3","kind":"custom","phase":"http_request_firewall_custom","rules":[
  {"id":"l","expression":"true","action":"log"}]},
{"id":"fw","kind":"zone","phase":"http_request_firewall_custom","rules":[
  {"id":"e","expression":"true","action":"execute","action_parameters":{"id":"c3"}}]},
{"id":"c4","kind":"managed","phase":"http_ratelimit","rules":[
  {"id":"l","expression":"true","action":"log","ratelimit":{"characteristics":["ip.src"],"period":10,"requests_per_period":1,"mitigation_timeout":60}}]},
{"id":"rl","kind":"zone","phase":"http_ratelimit","rules":[
  {"id":"e","expression":"true","action":"execute","action_parameters":{"id":"c4"}}]},
{"id":"c5","kind":"managed","phase":"http_request_firewall_managed","rules":[
  {"id":"l","expression":"true","action":"log"}]},
{"id":"fm","kind":"zone","phase":"http_request_firewall_managed","rules":[
  {"id":"e","expression":"true","action":"execute","action_parameters":{"id":"c5"}}]},
{"id":"c6","kind":"custom","phase":"http_request_late_transform","rules":[
  {"id":"h","expression":"true","action":"rewrite","action_parameters":{"headers":{"A":{"operation":"set","value":"1"}}}}]},
{"id":"lt","kind":"zone","phase":"http_request_late_transform","rules":[
  {"id":"e","expression":"true","action":"execute","action_parameters":{"id":"c6"}}]}]}"#,
        requests: r#"{"at":0,"ip":"10.0.0.1","method":"GET","target":"/a","headers":[]}
{"at":0,"ip":"10.0.0.1","method":"GET","target":"/r","headers":[["host","a.example"]]}
{"at":0,"ip":"10.0.0.1","method":"GET","target":"/a","headers":[]}
"#,
        wanted: "1 v1 pass - /t 0:pass log=c3/l,c5/l req=a:1
2 v1 redirect:302 c1/d /r - to=/r
3 v1 pass - /t 1:over@60000 log=c3/l,c4/l,c5/l req=a:1
",
    },
    Row {
        name: "an execute whose condition is false",
        config: r#"{"rulesets":[
{"id":"cs","kind":"custom","phase":"http_request_firewall_custom","rules":[
  {"id":"b","expression":"true","action":"block"}]},
{"id":"fw","kind":"zone","phase":"http_request_firewall_custom","rules":[
  {"id":"e","expression":"ssl","action":"execute","action_parameters":{"id":"cs"}}]}]}"#,
        requests: r#"{"at":0,"ip":"10.0.0.1","method":"GET","target":"/","headers":[["host","a.example"]]}
{"at":0,"ip":"10.0.0.1","method":"GET","target":"/","headers":[["host","a.example"]],"ssl":true}
"#,
        wanted: "1 v1 pass - / -
2 v1 block:403 cs/b / -
",
    },
    Row {
        name: "rulesets that nobody executes aren't judged",
        config: r#"{"rulesets":[
{"id":"cs","kind":"custom","phase":"http_request_firewall_custom","rules":[
  {"id":"b","expression":"true","action":"block"}]},
{"id":"mn","kind":"managed","phase":"http_request_firewall_managed","rules":[
  {"id":"b","expression":"true","action":"block"}]}]}"#,
        requests: r#"{"at":0,"ip":"10.0.0.1","method":"GET","target":"/","headers":[["host","a.example"]]}
"#,
        wanted: "1 v1 pass - / -
",
    },
];

#[test]
fn rules_are_judged_in_order(rt: HostRuntime) -> Result<(), Fail> {
    for row in &ROWS {
        judges(&rt, rt.alloc(), row)?;
    }
    Ok(())
}
