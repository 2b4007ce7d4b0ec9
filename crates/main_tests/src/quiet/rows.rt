//! `replay` on whole traces: each with the lines that answer it.
use super::{check, run, steady};
use edge_main::{Status, lane_hashers};
use std::test::Fail;

const BLOCK: &str =
    r#"{"deploy":{"rulesets":[{"id":"fw","kind":"zone","phase":"http_request_firewall_custom","rules":[{"id":"r1","expression":"http.request.uri.path eq \"/admin\"","action":"block"}]}]}}
{"at":0,"ip":"10.0.0.1","method":"GET","target":"/admin","headers":[["host","a.example"]]}
"#;

const NO_DEPLOYMENT: &str =
    r#"{"at":0,"ip":"10.0.0.1","method":"GET","target":"/","headers":[["host","a.example"]]}
"#;

const OVERRIDES: &str =
    r#"{"deploy":{"rulesets":[{"id":"mng","kind":"managed","phase":"http_request_firewall_managed","rules":[{"id":"r2","expression":"true","action":"managed_challenge"},{"id":"r3","expression":"true","action":"managed_challenge"},{"id":"r1","expression":"true","action":"managed_challenge","categories":["sql"]}]},{"id":"mg","kind":"zone","phase":"http_request_firewall_managed","rules":[{"id":"m1","expression":"true","action":"execute","action_parameters":{"id":"mng","overrides":{"action":"log","categories":[{"category":"sql","action":"block"}],"rules":[{"id":"r2","enabled":false}]}}}]}]}}
{"at":0,"ip":"10.0.0.1","method":"GET","target":"/","headers":[["host","a.example"]]}
"#;

const LIMIT: &str =
    r#"{"deploy":{"rulesets":[{"id":"rl","kind":"zone","phase":"http_ratelimit","rules":[{"id":"r1","expression":"true","action":"block","ratelimit":{"characteristics":["ip.src"],"period":10,"requests_per_period":2,"mitigation_timeout":60}}]}]}}
{"at":0,"ip":"10.0.0.1","method":"GET","target":"/","headers":[["host","a.example"]]}
{"at":1000,"ip":"10.0.0.1","method":"GET","target":"/","headers":[["host","a.example"]]}
{"at":2000,"ip":"10.0.0.1","method":"GET","target":"/","headers":[["host","a.example"]]}
{"at":61999,"ip":"10.0.0.1","method":"GET","target":"/","headers":[["host","a.example"]]}
{"at":62000,"ip":"10.0.0.1","method":"GET","target":"/","headers":[["host","a.example"]]}
"#;

const WINDOW_EDGE: &str =
    r#"{"deploy":{"rulesets":[{"id":"rl","kind":"zone","phase":"http_ratelimit","rules":[{"id":"r1","expression":"true","action":"block","ratelimit":{"characteristics":["ip.src"],"period":10,"requests_per_period":1,"mitigation_timeout":0}}]}]}}
{"at":0,"ip":"10.0.0.1","method":"GET","target":"/","headers":[["host","a.example"]]}
{"at":9999,"ip":"10.0.0.1","method":"GET","target":"/","headers":[["host","a.example"]]}
{"at":10000,"ip":"10.0.0.1","method":"GET","target":"/","headers":[["host","a.example"]]}
{"at":10001,"ip":"10.0.0.1","method":"GET","target":"/","headers":[["host","a.example"]]}
"#;

const REFUSED: &str =
    r#"{"deploy":{"rulesets":[{"id":"fw","kind":"zone","phase":"http_request_firewall_custom","rules":[{"id":"r1","expression":"ssl","action":"block"}]}]}}
{"deploy":{"rulesets":[{"id":"fw","kind":"zone","phase":"http_request_firewall_custom","rules":[{"id":"r1","expression":"ssl","action":"block"},{"id":"r2","expression":"ssl","action":"block"},{"id":"r3","expression":"http.hots eq \"a\"","action":"block"}]}]}}
{"at":0,"ip":"10.0.0.1","method":"GET","target":"/","headers":[["host","a.example"]]}
"#;

const REPLY_COUNTS: &str =
    r#"{"deploy":{"rulesets":[{"id":"rl","kind":"zone","phase":"http_ratelimit","rules":[{"id":"r1","expression":"true","action":"block","ratelimit":{"characteristics":["ip.src"],"period":60,"requests_per_period":1,"mitigation_timeout":60,"counting_expression":"http.response.code eq 401"}}]}]}}
{"at":0,"ip":"10.0.0.1","method":"GET","target":"/login","headers":[["host","a.example"]],"reply":{"status":401}}
{"at":1000,"ip":"10.0.0.1","method":"GET","target":"/login","headers":[["host","a.example"]],"reply":{"status":401}}
{"at":2000,"ip":"10.0.0.1","method":"GET","target":"/login","headers":[["host","a.example"]],"reply":{"status":401}}
"#;

const SKIP_CURRENT: &str =
    r#"{"deploy":{"rulesets":[{"id":"cs","kind":"custom","phase":"http_request_firewall_custom","rules":[{"id":"s1","expression":"true","action":"skip","action_parameters":{"ruleset":"current"}},{"id":"s2","expression":"true","action":"block"}]},{"id":"fw","kind":"zone","phase":"http_request_firewall_custom","rules":[{"id":"e1","expression":"true","action":"execute","action_parameters":{"id":"cs"}},{"id":"e2","expression":"http.request.uri.path eq \"/x\"","action":"block"}]}]}}
{"at":0,"ip":"10.0.0.1","method":"GET","target":"/x","headers":[["host","a.example"]]}
"#;

const SKIP_PHASE: &str =
    r#"{"deploy":{"rulesets":[{"id":"fw","kind":"zone","phase":"http_request_firewall_custom","rules":[{"id":"p1","expression":"http.request.uri.path eq \"/free\"","action":"skip","action_parameters":{"phases":["http_ratelimit"]}}]},{"id":"rl","kind":"zone","phase":"http_ratelimit","rules":[{"id":"r1","expression":"true","action":"block","ratelimit":{"characteristics":["ip.src"],"period":10,"requests_per_period":2,"mitigation_timeout":60}}]}]}}
{"at":0,"ip":"10.0.0.1","method":"GET","target":"/free","headers":[["host","a.example"]]}
"#;

const BAD_LINE: &str =
    r#"{"at":0,"ip":"10.0.0.1","method":"GET","target":"/","headers":[["host","a.example"]]}
{x
{"at":1,"ip":"10.0.0.1","method":"GET","target":"/","headers":[["host","a.example"]]}"#;

const SAME_KEY_AGAIN: &str =
    r#"{"deploy":{"rulesets":[{"id":"rl","kind":"zone","phase":"http_ratelimit","rules":[{"id":"r1","expression":"true","action":"block","ratelimit":{"characteristics":["ip.src"],"period":10,"requests_per_period":1,"mitigation_timeout":10}}]}]}}
{"at":0,"ip":"10.0.0.1","method":"GET","target":"/","headers":[["host","a.example"]]}
{"deploy":{"rulesets":[]}}
{"at":1000,"ip":"10.0.0.1","method":"GET","target":"/","headers":[["host","a.example"]]}
{"deploy":{"rulesets":[{"id":"rl","kind":"zone","phase":"http_ratelimit","rules":[{"id":"r1","expression":"true","action":"block","ratelimit":{"characteristics":["ip.src"],"period":10,"requests_per_period":1,"mitigation_timeout":10}}]}]}}
{"at":2000,"ip":"10.0.0.1","method":"GET","target":"/","headers":[["host","a.example"]]}
"#;

const EXTRA_MEMBERS: &str =
    r#"{"deploy":{"rulesets":[{"id":"fw","kind":"zone","phase":"http_request_firewall_custom","rules":[{"id":"r1","expression":"http.request.uri.path eq \"/admin\"","action":"block","version":"1","ref":"x","logging":{"enabled":true}}],"description":"d","version":"3","last_updated":"2024-01-01T00:00:00Z","source":"firewall_custom"}]}}
{"at":0,"ip":"10.0.0.1","method":"GET","target":"/admin","headers":[["host","a.example"]]}
"#;

const PATH_EXPRESSION: &str =
    r#"{"deploy":{"rulesets":[{"id":"tr","kind":"zone","phase":"http_request_transform","rules":[{"id":"t1","expression":"true","action":"rewrite","action_parameters":{"uri":{"path":{"expression":"concat(\"/v2\", http.request.uri.path)"}}}}]}]}}
{"at":0,"ip":"10.0.0.1","method":"GET","target":"/a?x=1","headers":[["host","a.example"]]}
"#;

const REDIRECT: &str =
    r#"{"deploy":{"rulesets":[{"id":"dr","kind":"zone","phase":"http_request_dynamic_redirect","rules":[{"id":"d1","expression":"http.request.uri.path eq \"/old\"","action":"redirect","action_parameters":{"from_value":{"status_code":301,"target_url":{"value":"https://b.example/new"},"preserve_query_string":true}}}]}]}}
{"at":0,"ip":"10.0.0.1","method":"GET","target":"/old?k=1","headers":[["host","a.example"]]}
"#;

const LATE_HEADER: &str =
    r#"{"deploy":{"rulesets":[{"id":"lt","kind":"zone","phase":"http_request_late_transform","rules":[{"id":"h1","expression":"true","action":"rewrite","action_parameters":{"headers":{"X-Tag":{"operation":"set","value":"a b"}}}}]}]}}
{"at":0,"ip":"10.0.0.1","method":"GET","target":"/","headers":[["host","a.example"]]}
"#;

const REPLY_HEADER: &str =
    r#"{"deploy":{"rulesets":[{"id":"rs","kind":"zone","phase":"http_response_headers_transform","rules":[{"id":"h1","expression":"true","action":"rewrite","action_parameters":{"headers":{"server":{"operation":"remove"}}}}]}]}}
{"at":0,"ip":"10.0.0.1","method":"GET","target":"/","headers":[["host","a.example"]],"reply":{"status":200,"headers":[["Server","x"]]}}
"#;

const LAST_MOMENT: &str =
    r#"{"deploy":{"rulesets":[{"id":"rl","kind":"zone","phase":"http_ratelimit","rules":[{"id":"r1","expression":"true","action":"block","ratelimit":{"characteristics":["ip.src"],"period":10,"requests_per_period":1,"mitigation_timeout":60}}]}]}}
{"at":9007199254740992,"ip":"10.0.0.1","method":"GET","target":"/","headers":[["host","a.example"]]}
{"at":9007199254740993,"ip":"10.0.0.1","method":"GET","target":"/","headers":[["host","a.example"]]}
{"at":9007199254740992,"ip":"10.0.0.1","method":"GET","target":"/","headers":[["host","a.example"]]}
"#;

const ACTION_ROUTE: &str =
    r#"{"deploy":{"rulesets":[{"id":"fw","kind":"zone","phase":"http_request_firewall_custom","rules":[{"id":"r1","expression":"http.request.uri.path eq \"/admin\"","action":"block"}]}]}}
{"at":0,"ip":"10.0.0.1","method":"GET","target":"/","headers":[["host","a.example"]]}
{"deploy":{"rulesets":[{"id":"fw","kind":"zone","phase":"http_request_firewall_custom","rules":[{"id":"r1","expression":"true","action":"route"}]}]}}
{"at":1,"ip":"10.0.0.1","method":"GET","target":"/admin","headers":[["host","a.example"]]}
"#;

const EXECUTE_NOBODY: &str =
    r#"{"deploy":{"rulesets":[{"id":"fw","kind":"zone","phase":"http_request_firewall_custom","rules":[{"id":"r1","expression":"http.request.uri.path eq \"/admin\"","action":"block"}]}]}}
{"at":0,"ip":"10.0.0.1","method":"GET","target":"/","headers":[["host","a.example"]]}
{"deploy":{"rulesets":[{"id":"fw","kind":"zone","phase":"http_request_firewall_custom","rules":[{"id":"r1","expression":"true","action":"execute","action_parameters":{"id":"x"}}]}]}}
{"at":1,"ip":"10.0.0.1","method":"GET","target":"/admin","headers":[["host","a.example"]]}
"#;

const KIND_ROOT: &str =
    r#"{"deploy":{"rulesets":[{"id":"fw","kind":"zone","phase":"http_request_firewall_custom","rules":[{"id":"r1","expression":"http.request.uri.path eq \"/admin\"","action":"block"}]}]}}
{"at":0,"ip":"10.0.0.1","method":"GET","target":"/","headers":[["host","a.example"]]}
{"deploy":{"rulesets":[{"id":"fw","kind":"root","phase":"http_request_firewall_custom","rules":[]}]}}
{"at":1,"ip":"10.0.0.1","method":"GET","target":"/admin","headers":[["host","a.example"]]}
"#;

const PERIOD_0: &str =
    r#"{"deploy":{"rulesets":[{"id":"fw","kind":"zone","phase":"http_request_firewall_custom","rules":[{"id":"r1","expression":"http.request.uri.path eq \"/admin\"","action":"block"}]}]}}
{"at":0,"ip":"10.0.0.1","method":"GET","target":"/","headers":[["host","a.example"]]}
{"deploy":{"rulesets":[{"id":"rl","kind":"zone","phase":"http_ratelimit","rules":[{"id":"r1","expression":"true","action":"block","ratelimit":{"characteristics":["ip.src"],"period":0,"requests_per_period":1,"mitigation_timeout":1}}]}]}}
{"at":1,"ip":"10.0.0.1","method":"GET","target":"/admin","headers":[["host","a.example"]]}
"#;

const PHASE_X: &str =
    r#"{"deploy":{"rulesets":[{"id":"fw","kind":"zone","phase":"http_request_firewall_custom","rules":[{"id":"r1","expression":"http.request.uri.path eq \"/admin\"","action":"block"}]}]}}
{"at":0,"ip":"10.0.0.1","method":"GET","target":"/","headers":[["host","a.example"]]}
{"deploy":{"rulesets":[{"id":"fw","kind":"zone","phase":"x","rules":[]}]}}
{"at":1,"ip":"10.0.0.1","method":"GET","target":"/admin","headers":[["host","a.example"]]}
"#;

const REDIRECT_IN_FW: &str =
    r#"{"deploy":{"rulesets":[{"id":"fw","kind":"zone","phase":"http_request_firewall_custom","rules":[{"id":"r1","expression":"http.request.uri.path eq \"/admin\"","action":"block"}]}]}}
{"at":0,"ip":"10.0.0.1","method":"GET","target":"/","headers":[["host","a.example"]]}
{"deploy":{"rulesets":[{"id":"fw","kind":"zone","phase":"http_request_firewall_custom","rules":[{"id":"r1","expression":"true","action":"redirect"}]}]}}
{"at":1,"ip":"10.0.0.1","method":"GET","target":"/admin","headers":[["host","a.example"]]}
"#;

const RESPONSE_FIELD: &str =
    r#"{"deploy":{"rulesets":[{"id":"fw","kind":"zone","phase":"http_request_firewall_custom","rules":[{"id":"r1","expression":"http.request.uri.path eq \"/admin\"","action":"block"}]}]}}
{"at":0,"ip":"10.0.0.1","method":"GET","target":"/","headers":[["host","a.example"]]}
{"deploy":{"rulesets":[{"id":"fw","kind":"zone","phase":"http_request_firewall_custom","rules":[{"id":"r1","expression":"http.response.code eq 1","action":"block"}]}]}}
{"at":1,"ip":"10.0.0.1","method":"GET","target":"/admin","headers":[["host","a.example"]]}
"#;

const SHAPE: &str =
    r#"{"deploy":{"rulesets":[{"id":"fw","kind":"zone","phase":"http_request_firewall_custom","rules":[{"id":"r1","expression":"http.request.uri.path eq \"/admin\"","action":"block"}]}]}}
{"at":0,"ip":"10.0.0.1","method":"GET","target":"/","headers":[["host","a.example"]]}
{"deploy":{"rulesets":{}}}
{"at":1,"ip":"10.0.0.1","method":"GET","target":"/admin","headers":[["host","a.example"]]}
"#;

const TWO_ENTRIES: &str =
    r#"{"deploy":{"rulesets":[{"id":"fw","kind":"zone","phase":"http_request_firewall_custom","rules":[{"id":"r1","expression":"http.request.uri.path eq \"/admin\"","action":"block"}]}]}}
{"at":0,"ip":"10.0.0.1","method":"GET","target":"/","headers":[["host","a.example"]]}
{"deploy":{"rulesets":[{"id":"fw","kind":"zone","phase":"http_request_firewall_custom","rules":[]},{"id":"fx","kind":"zone","phase":"http_request_firewall_custom","rules":[]}]}}
{"at":1,"ip":"10.0.0.1","method":"GET","target":"/admin","headers":[["host","a.example"]]}
"#;

const SENT: &str =
    r#"{"deploy":{"rulesets":[{"id":"fw","kind":"zone","phase":"http_request_firewall_custom","rules":[{"id":"r1","expression":"http.request.uri.path eq \"/admin\"","action":"block"}]}]}}
{"at":0,"ip":"10.0.0.1","raw":"GET /admin HTTP/1.1\r\nHost: a.example\r\n\r\n"}
"#;

const SENT_CUT: &str =
    r#"{"deploy":{"rulesets":[{"id":"fw","kind":"zone","phase":"http_request_firewall_custom","rules":[{"id":"r1","expression":"http.request.uri.path eq \"/admin\"","action":"block"}]}]}}
{"at":0,"ip":"10.0.0.1","raw":"GET /admin HTTP/1.1\r\nHost: a.example\r\n\r"}
"#;

/// What was sent, beside the members of the line: TLS, those that are passed over, a reply, a body, and each cause.
const SENT_BESIDE: &str =
    r#"{"deploy":{"rulesets":[{"id":"fw","kind":"zone","phase":"http_request_firewall_custom","rules":[{"id":"r1","expression":"http.host eq \"a.example\" and ssl","action":"block"}]},{"id":"rs","kind":"zone","phase":"http_response_headers_transform","rules":[{"id":"h1","expression":"true","action":"rewrite","action_parameters":{"headers":{"server":{"operation":"remove"}}}}]}]}}
{"at":0,"ip":"10.0.0.1","ssl":true,"raw":"GET /a HTTP/1.1\r\nHost: a.example\r\n\r\n"}
{"at":0,"ip":"10.0.0.1","raw":"GET /b?c HTTP/1.0\nHost: a.example\n\n","method":1,"target":"","version":0,"headers":0}
{"at":0,"ip":"::1","raw":"POST /d HTTP/1.1\r\ncontent-length: 2\r\n\r\nef","reply":{"status":200,"headers":[["Server","x"]]}}
{"at":0,"ip":"::1","raw":"POST /d HTTP/1.1\r\ncontent-length: 2\r\n\r\ne"}
{"at":0,"ip":"::1","raw":"GET / HTTP/1.1\r\ntransfer-encoding: chunked\r\n\r\n"}
{"at":0,"ip":"::1","raw":"GET / HTTP/2.0\r\n\r\n"}
{"at":-1,"ip":"::1","raw":""}
{"at":-1,"ip":"x","raw":""}
{"at":-1,"ip":"x","raw":null}
"#;

#[test]
fn whole_traces_are_answered(rt: HostRuntime) -> Result<(), Fail> {
    let alloc = rt.alloc();
    let cases = [
        (
            BLOCK,
            "deploy v1\n1 v1 block:403 fw/r1 /admin -\n",
            Status::Done,
        ),
        (NO_DEPLOYMENT, "1 v0 pass - / -\n", Status::Done),
        (
            OVERRIDES,
            "deploy v1\n1 v1 block:403 mng/r1 / - log=mng/r3\n",
            Status::Done,
        ),
        (
            LIMIT,
            "deploy v1\n1 v1 pass - / 0:pass\n2 v1 pass - / 1:pass\n3 v1 block:429 rl/r1 / 2:over@62000\n4 v1 block:429 rl/r1 / 3:over@62000\n5 v1 pass - / 4:pass\n",
            Status::Done,
        ),
        (
            WINDOW_EDGE,
            "deploy v1\n1 v1 pass - / 0:pass\n2 v1 block:429 rl/r1 / 1:over@9999\n3 v1 pass - / 2:pass\n4 v1 block:429 rl/r1 / 3:over@10001\n",
            Status::Done,
        ),
        (
            REFUSED,
            "deploy v1\ndeploy refused /rulesets/0/rules/2/expression UnknownField\n1 v1 pass - / -\n",
            Status::Done,
        ),
        (
            REPLY_COUNTS,
            "deploy v1\n1 v1 pass - /login 0:pass,1:pass\n2 v1 pass - /login 2:pass,3:over@61000\n3 v1 block:429 rl/r1 /login 4:over@61000\n",
            Status::Done,
        ),
        (
            SKIP_CURRENT,
            "deploy v1\n1 v1 block:403 fw/e2 /x -\n",
            Status::Done,
        ),
        (SKIP_PHASE, "deploy v1\n1 v1 pass - /free -\n", Status::Done),
        (
            BAD_LINE,
            "1 v0 pass - / -\nbad 2 NotJson\n2 v0 pass - / -\n",
            Status::BadItems,
        ),
        (
            SAME_KEY_AGAIN,
            "deploy v1\n1 v1 pass - / 0:pass\ndeploy v2\n2 v2 pass - / -\ndeploy v3\n3 v3 block:429 rl/r1 / 1:over@12000\n",
            Status::Done,
        ),
        (
            EXTRA_MEMBERS,
            "deploy v1\n1 v1 block:403 fw/r1 /admin -\n",
            Status::Done,
        ),
        (
            PATH_EXPRESSION,
            "deploy v1\n1 v1 pass - /v2/a?x=1 -\n",
            Status::Done,
        ),
        (
            REDIRECT,
            "deploy v1\n1 v1 redirect:301 dr/d1 /old?k=1 - to=https://b.example/new?k=1\n",
            Status::Done,
        ),
        (
            LATE_HEADER,
            "deploy v1\n1 v1 pass - / - req=host:a.example,x-tag:a%20b\n",
            Status::Done,
        ),
        (
            REPLY_HEADER,
            "deploy v1\n1 v1 pass - / - rep=-\n",
            Status::Done,
        ),
        (
            LAST_MOMENT,
            "deploy v1\n1 v1 pass - / 0:pass\nbad 3 BadMoment\n2 v1 block:429 rl/r1 / 1:over@9007199254800992\n",
            Status::BadItems,
        ),
        (
            ACTION_ROUTE,
            "deploy v1\n1 v1 pass - / -\ndeploy refused /rulesets/0/rules/0/action UnknownAction\n2 v1 block:403 fw/r1 /admin -\n",
            Status::Done,
        ),
        (
            EXECUTE_NOBODY,
            "deploy v1\n1 v1 pass - / -\ndeploy refused /rulesets/0/rules/0/action_parameters/id UnknownRuleset\n2 v1 block:403 fw/r1 /admin -\n",
            Status::Done,
        ),
        (
            KIND_ROOT,
            "deploy v1\n1 v1 pass - / -\ndeploy refused /rulesets/0/kind UnknownKind\n2 v1 block:403 fw/r1 /admin -\n",
            Status::Done,
        ),
        (
            PERIOD_0,
            "deploy v1\n1 v1 pass - / -\ndeploy refused /rulesets/0/rules/0/ratelimit/period BadLimit\n2 v1 block:403 fw/r1 /admin -\n",
            Status::Done,
        ),
        (
            PHASE_X,
            "deploy v1\n1 v1 pass - / -\ndeploy refused /rulesets/0/phase UnknownPhase\n2 v1 block:403 fw/r1 /admin -\n",
            Status::Done,
        ),
        (
            REDIRECT_IN_FW,
            "deploy v1\n1 v1 pass - / -\ndeploy refused /rulesets/0/rules/0/action ActionPlace\n2 v1 block:403 fw/r1 /admin -\n",
            Status::Done,
        ),
        (
            RESPONSE_FIELD,
            "deploy v1\n1 v1 pass - / -\ndeploy refused /rulesets/0/rules/0/expression ResponseField\n2 v1 block:403 fw/r1 /admin -\n",
            Status::Done,
        ),
        (
            SHAPE,
            "deploy v1\n1 v1 pass - / -\ndeploy refused /rulesets Shape\n2 v1 block:403 fw/r1 /admin -\n",
            Status::Done,
        ),
        (
            TWO_ENTRIES,
            "deploy v1\n1 v1 pass - / -\ndeploy refused /rulesets/1/phase DuplicateEntry\n2 v1 block:403 fw/r1 /admin -\n",
            Status::Done,
        ),
        (
            SENT,
            "deploy v1\n1 v1 block:403 fw/r1 /admin -\n",
            Status::Done,
        ),
        (SENT_CUT, "deploy v1\nbad 2 BadHead\n", Status::BadItems),
        (
            SENT_BESIDE,
            "deploy v1\n1 v1 block:403 fw/r1 /a -\n2 v1 pass - /b?c -\n3 v1 pass - /d - rep=-\nbad 5 BadHead\nbad 6 BadHead\nbad 7 BadHead\nbad 8 BadMoment\nbad 9 BadAddress\nbad 10 Shape\n",
            Status::BadItems,
        ),
    ];
    for (input, out, status) in cases {
        let ran = run(
            alloc,
            lane_hashers(&rt, alloc)?,
            &["replay"],
            input,
            steady(alloc, 4_096),
        )?;
        check(&rt, &ran, status, out.as_bytes(), b"");
    }
    Ok(())
}
