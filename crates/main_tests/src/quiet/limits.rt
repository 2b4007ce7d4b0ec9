//! `replay` on traces with limits.
use super::{check, run, steady};
use edge_main::{Status, lane_hashers};
use std::test::Fail;

/// What each shows, its lines, and what they are answered.
const TRACES: [(&str, &str, &str); 49] = [
    (
        "a limit without a timeout",
        r#"{"deploy":{"rulesets":[{"id":"rl","kind":"zone","phase":"http_ratelimit","rules":[{"id":"r1","expression":"true","action":"block","ratelimit":{"characteristics":["ip.src"],"period":10,"requests_per_period":1}}]}]}}
{"at":0,"ip":"10.0.0.1","method":"GET","target":"/"}
{"at":1,"ip":"10.0.0.1","method":"GET","target":"/"}
{"at":9999,"ip":"10.0.0.1","method":"GET","target":"/"}
{"at":10000,"ip":"10.0.0.1","method":"GET","target":"/"}
{"at":10001,"ip":"10.0.0.1","method":"GET","target":"/"}
"#,
        "deploy v1\n1 v1 pass - / 0:pass\n2 v1 block:429 rl/r1 / 1:over@1\n3 v1 block:429 rl/r1 / 2:over@9999\n4 v1 pass - / 3:pass\n5 v1 block:429 rl/r1 / 4:over@10001\n",
    ),
    (
        "a limit of two",
        r#"{"deploy":{"rulesets":[{"id":"rl","kind":"zone","phase":"http_ratelimit","rules":[{"id":"r1","expression":"true","action":"block","ratelimit":{"characteristics":["ip.src"],"period":10,"requests_per_period":2,"mitigation_timeout":5}}]}]}}
{"at":0,"ip":"10.0.0.1","method":"GET","target":"/"}
{"at":1,"ip":"10.0.0.1","method":"GET","target":"/"}
{"at":2,"ip":"10.0.0.1","method":"GET","target":"/"}
{"at":5001,"ip":"10.0.0.1","method":"GET","target":"/"}
{"at":5002,"ip":"10.0.0.1","method":"GET","target":"/"}
{"at":10000,"ip":"10.0.0.1","method":"GET","target":"/"}
{"at":15002,"ip":"10.0.0.1","method":"GET","target":"/"}
"#,
        "deploy v1\n1 v1 pass - / 0:pass\n2 v1 pass - / 1:pass\n3 v1 block:429 rl/r1 / 2:over@5002\n4 v1 block:429 rl/r1 / 3:over@5002\n5 v1 block:429 rl/r1 / 4:over@10002\n6 v1 block:429 rl/r1 / 5:over@10002\n7 v1 pass - / 6:pass\n",
    ),
    (
        "keys of two addresses",
        r#"{"deploy":{"rulesets":[{"id":"rl","kind":"zone","phase":"http_ratelimit","rules":[{"id":"r1","expression":"true","action":"block","ratelimit":{"characteristics":["ip.src"],"period":10,"requests_per_period":1,"mitigation_timeout":1}}]}]}}
{"at":0,"ip":"10.0.0.1","method":"GET","target":"/"}
{"at":0,"ip":"10.0.0.2","method":"GET","target":"/"}
{"at":1,"ip":"10.0.0.1","method":"GET","target":"/"}
{"at":1,"ip":"10.0.0.2","method":"GET","target":"/"}
{"at":1000,"ip":"10.0.0.1","method":"GET","target":"/"}
{"at":1001,"ip":"10.0.0.2","method":"GET","target":"/"}
"#,
        "deploy v1\n1 v1 pass - / 0:pass\n2 v1 pass - / 1:pass\n3 v1 block:429 rl/r1 / 2:over@1001\n4 v1 block:429 rl/r1 / 3:over@1001\n5 v1 block:429 rl/r1 / 4:over@1001\n6 v1 block:429 rl/r1 / 5:over@2001\n",
    ),
    (
        "a host is the key",
        r#"{"deploy":{"rulesets":[{"id":"rl","kind":"zone","phase":"http_ratelimit","rules":[{"id":"r1","expression":"true","action":"block","ratelimit":{"characteristics":["http.host"],"period":10,"requests_per_period":1}}]}]}}
{"at":0,"ip":"10.0.0.1","method":"GET","target":"/","headers":[["host","a"]]}
{"at":1,"ip":"10.0.0.2","method":"GET","target":"/","headers":[["Host","a"]]}
{"at":2,"ip":"10.0.0.3","method":"GET","target":"/","headers":[["host","b"]]}
{"at":3,"ip":"10.0.0.4","method":"GET","target":"/","headers":[]}
{"at":4,"ip":"10.0.0.5","method":"GET","target":"/","headers":[["host",""]]}
"#,
        "deploy v1\n1 v1 pass - / 0:pass\n2 v1 block:429 rl/r1 / 1:over@1\n3 v1 pass - / 2:pass\n4 v1 pass - / 3:pass\n5 v1 block:429 rl/r1 / 4:over@4\n",
    ),
    (
        "a missing header is a value of its own",
        r#"{"deploy":{"rulesets":[{"id":"rl","kind":"zone","phase":"http_ratelimit","rules":[{"id":"r1","expression":"true","action":"block","ratelimit":{"characteristics":["http.request.headers[\"x-k\"][0]"],"period":10,"requests_per_period":1}}]}]}}
{"at":0,"ip":"10.0.0.1","method":"GET","target":"/"}
{"at":1,"ip":"10.0.0.2","method":"GET","target":"/","headers":[["x-k",""]]}
{"at":2,"ip":"10.0.0.3","method":"GET","target":"/"}
{"at":3,"ip":"10.0.0.4","method":"GET","target":"/","headers":[["x-k",""]]}
{"at":4,"ip":"10.0.0.5","method":"GET","target":"/","headers":[["X-K","1"]]}
"#,
        "deploy v1\n1 v1 pass - / 0:pass\n2 v1 pass - / 1:pass\n3 v1 block:429 rl/r1 / 2:over@2\n4 v1 block:429 rl/r1 / 3:over@3\n5 v1 pass - / 4:pass\n",
    ),
    (
        "all values of a header are the key",
        r#"{"deploy":{"rulesets":[{"id":"rl","kind":"zone","phase":"http_ratelimit","rules":[{"id":"r1","expression":"true","action":"block","ratelimit":{"characteristics":["http.request.headers[\"x-k\"]"],"period":10,"requests_per_period":1}}]}]}}
{"at":0,"ip":"10.0.0.1","method":"GET","target":"/","headers":[["x-k","ab"],["x-k","c"]]}
{"at":1,"ip":"10.0.0.1","method":"GET","target":"/","headers":[["x-k","a"],["x-k","bc"]]}
{"at":2,"ip":"10.0.0.1","method":"GET","target":"/","headers":[["x-k","ab"],["x-k","c"]]}
{"at":3,"ip":"10.0.0.1","method":"GET","target":"/"}
"#,
        "deploy v1\n1 v1 pass - / 0:pass\n2 v1 pass - / 1:pass\n3 v1 block:429 rl/r1 / 2:over@2\n4 v1 pass - / 3:pass\n",
    ),
    (
        "one place for all",
        r#"{"deploy":{"rulesets":[{"id":"rl","kind":"zone","phase":"http_ratelimit","rules":[{"id":"r1","expression":"true","action":"block","ratelimit":{"characteristics":["cf.colo.id"],"period":10,"requests_per_period":1}}]}]}}
{"at":0,"ip":"10.0.0.1","method":"GET","target":"/"}
{"at":1,"ip":"10.0.0.2","method":"GET","target":"/"}
{"at":2,"ip":"10.0.0.3","method":"GET","target":"/"}
"#,
        "deploy v1\n1 v1 pass - / 0:pass\n2 v1 block:429 rl/r1 / 1:over@1\n3 v1 block:429 rl/r1 / 2:over@2\n",
    ),
    (
        "two characteristics",
        r#"{"deploy":{"rulesets":[{"id":"rl","kind":"zone","phase":"http_ratelimit","rules":[{"id":"r1","expression":"true","action":"block","ratelimit":{"characteristics":["ip.src","http.request.uri.path"],"period":10,"requests_per_period":1}}]}]}}
{"at":0,"ip":"10.0.0.1","method":"GET","target":"/a"}
{"at":1,"ip":"10.0.0.1","method":"GET","target":"/b"}
{"at":2,"ip":"10.0.0.2","method":"GET","target":"/a"}
{"at":3,"ip":"10.0.0.1","method":"GET","target":"/a"}
{"at":4,"ip":"10.0.0.1","method":"GET","target":"/b?x"}
"#,
        "deploy v1\n1 v1 pass - /a 0:pass\n2 v1 pass - /b 1:pass\n3 v1 pass - /a 2:pass\n4 v1 block:429 rl/r1 /a 3:over@3\n5 v1 block:429 rl/r1 /b?x 4:over@4\n",
    ),
    (
        "the order of characteristics",
        r#"{"deploy":{"rulesets":[{"id":"rl","kind":"zone","phase":"http_ratelimit","rules":[{"id":"r1","expression":"true","action":"block","ratelimit":{"characteristics":["http.request.uri.path","ip.src"],"period":10,"requests_per_period":1}}]}]}}
{"at":0,"ip":"10.0.0.1","method":"GET","target":"/a"}
{"at":1,"ip":"10.0.0.1","method":"GET","target":"/a"}
{"at":2,"ip":"10.0.0.2","method":"GET","target":"/a"}
"#,
        "deploy v1\n1 v1 pass - /a 0:pass\n2 v1 block:429 rl/r1 /a 1:over@1\n3 v1 pass - /a 2:pass\n",
    ),
    (
        "two limits on one request",
        r#"{"deploy":{"rulesets":[{"id":"rl","kind":"zone","phase":"http_ratelimit","rules":[{"id":"r1","expression":"true","action":"block","ratelimit":{"characteristics":["ip.src"],"period":10,"requests_per_period":2}},{"id":"r2","expression":"true","action":"log","ratelimit":{"characteristics":["ip.src"],"period":10,"requests_per_period":1}}]}]}}
{"at":0,"ip":"10.0.0.1","method":"GET","target":"/"}
{"at":1,"ip":"10.0.0.1","method":"GET","target":"/"}
{"at":2,"ip":"10.0.0.1","method":"GET","target":"/"}
"#,
        "deploy v1\n1 v1 pass - / 0:pass,1:pass\n2 v1 pass - / 2:pass,3:over@1 log=rl/r2\n3 v1 block:429 rl/r1 / 4:over@2\n",
    ),
    (
        "a limit that logs goes on",
        r#"{"deploy":{"rulesets":[{"id":"rl","kind":"zone","phase":"http_ratelimit","rules":[{"id":"r1","expression":"true","action":"log","ratelimit":{"characteristics":["ip.src"],"period":10,"requests_per_period":1}},{"id":"r2","expression":"true","action":"block","ratelimit":{"characteristics":["ip.src"],"period":10,"requests_per_period":3}}]}]}}
{"at":0,"ip":"10.0.0.1","method":"GET","target":"/"}
{"at":1,"ip":"10.0.0.1","method":"GET","target":"/"}
{"at":2,"ip":"10.0.0.1","method":"GET","target":"/"}
{"at":3,"ip":"10.0.0.1","method":"GET","target":"/"}
"#,
        "deploy v1\n1 v1 pass - / 0:pass,1:pass\n2 v1 pass - / 2:over@1,3:pass log=rl/r1\n3 v1 pass - / 4:over@2,5:pass log=rl/r1\n4 v1 block:429 rl/r2 / 6:over@3,7:over@3 log=rl/r1\n",
    ),
    (
        "a challenge ends",
        r#"{"deploy":{"rulesets":[{"id":"rl","kind":"zone","phase":"http_ratelimit","rules":[{"id":"r1","expression":"true","action":"managed_challenge","ratelimit":{"characteristics":["ip.src"],"period":10,"requests_per_period":1}},{"id":"r2","expression":"true","action":"block","ratelimit":{"characteristics":["ip.src"],"period":10,"requests_per_period":1}}]}]}}
{"at":0,"ip":"10.0.0.1","method":"GET","target":"/"}
{"at":1,"ip":"10.0.0.1","method":"GET","target":"/"}
{"at":10000,"ip":"10.0.0.1","method":"GET","target":"/"}
"#,
        "deploy v1\n1 v1 pass - / 0:pass,1:pass\n2 v1 challenge rl/r1 / 2:over@1\n3 v1 pass - / 3:pass,4:pass\n",
    ),
    (
        "a js challenge ends",
        r#"{"deploy":{"rulesets":[{"id":"rl","kind":"zone","phase":"http_ratelimit","rules":[{"id":"r1","expression":"true","action":"js_challenge","ratelimit":{"characteristics":["ip.src"],"period":10,"requests_per_period":1,"mitigation_timeout":60}}]}]}}
{"at":0,"ip":"10.0.0.1","method":"GET","target":"/"}
{"at":1,"ip":"10.0.0.1","method":"GET","target":"/"}
{"at":60000,"ip":"10.0.0.1","method":"GET","target":"/"}
{"at":60001,"ip":"10.0.0.1","method":"GET","target":"/"}
"#,
        "deploy v1\n1 v1 pass - / 0:pass\n2 v1 challenge rl/r1 / 1:over@60001\n3 v1 challenge rl/r1 / 2:over@60001\n4 v1 pass - / 3:pass\n",
    ),
    (
        "a plain challenge ends",
        r#"{"deploy":{"rulesets":[{"id":"rl","kind":"zone","phase":"http_ratelimit","rules":[{"id":"r1","expression":"true","action":"challenge","ratelimit":{"characteristics":["ip.src"],"period":10,"requests_per_period":1,"mitigation_timeout":60}}]}]}}
{"at":0,"ip":"10.0.0.1","method":"GET","target":"/"}
{"at":1,"ip":"10.0.0.1","method":"GET","target":"/"}
"#,
        "deploy v1\n1 v1 pass - / 0:pass\n2 v1 challenge rl/r1 / 1:over@60001\n",
    ),
    (
        "an own response",
        r#"{"deploy":{"rulesets":[{"id":"rl","kind":"zone","phase":"http_ratelimit","rules":[{"id":"r1","expression":"true","action":"block","ratelimit":{"characteristics":["ip.src"],"period":10,"requests_per_period":1},"action_parameters":{"response":{"status_code":418,"content":"x","content_type":"text/plain"}}}]}]}}
{"at":0,"ip":"10.0.0.1","method":"GET","target":"/"}
{"at":1,"ip":"10.0.0.1","method":"GET","target":"/"}
"#,
        "deploy v1\n1 v1 pass - / 0:pass\n2 v1 block:418 rl/r1 / 1:over@1\n",
    ),
    (
        "only where the condition holds",
        r#"{"deploy":{"rulesets":[{"id":"rl","kind":"zone","phase":"http_ratelimit","rules":[{"id":"r1","expression":"http.request.uri.path eq \"/a\"","action":"block","ratelimit":{"characteristics":["ip.src"],"period":10,"requests_per_period":1}}]}]}}
{"at":0,"ip":"10.0.0.1","method":"GET","target":"/b"}
{"at":1,"ip":"10.0.0.1","method":"GET","target":"/a"}
{"at":2,"ip":"10.0.0.1","method":"GET","target":"/b"}
{"at":3,"ip":"10.0.0.1","method":"GET","target":"/a"}
"#,
        "deploy v1\n1 v1 pass - /b -\n2 v1 pass - /a 0:pass\n3 v1 pass - /b -\n4 v1 block:429 rl/r1 /a 1:over@3\n",
    ),
    (
        "counting alone asks and adds",
        r#"{"deploy":{"rulesets":[{"id":"rl","kind":"zone","phase":"http_ratelimit","rules":[{"id":"r1","expression":"http.request.uri.path eq \"/a\"","action":"block","ratelimit":{"characteristics":["ip.src"],"period":10,"requests_per_period":1,"counting_expression":"ssl"}}]}]}}
{"at":0,"ip":"10.0.0.1","method":"GET","target":"/b","ssl":true}
{"at":1,"ip":"10.0.0.1","method":"GET","target":"/a"}
{"at":2,"ip":"10.0.0.1","method":"GET","target":"/b","ssl":true}
{"at":3,"ip":"10.0.0.1","method":"GET","target":"/a"}
{"at":4,"ip":"10.0.0.1","method":"GET","target":"/b"}
"#,
        "deploy v1\n1 v1 pass - /b 0:pass\n2 v1 pass - /a 1:pass\n3 v1 pass - /b 2:over@2\n4 v1 pass - /a 3:pass\n5 v1 pass - /b -\n",
    ),
    (
        "a condition alone asks and does not add",
        r#"{"deploy":{"rulesets":[{"id":"rl","kind":"zone","phase":"http_ratelimit","rules":[{"id":"r1","expression":"true","action":"block","ratelimit":{"characteristics":["ip.src"],"period":10,"requests_per_period":1,"mitigation_timeout":10,"counting_expression":"ssl"}}]}]}}
{"at":0,"ip":"10.0.0.1","method":"GET","target":"/"}
{"at":1,"ip":"10.0.0.1","method":"GET","target":"/"}
{"at":2,"ip":"10.0.0.1","method":"GET","target":"/","ssl":true}
{"at":3,"ip":"10.0.0.1","method":"GET","target":"/","ssl":true}
{"at":4,"ip":"10.0.0.1","method":"GET","target":"/"}
{"at":10003,"ip":"10.0.0.1","method":"GET","target":"/"}
{"at":10004,"ip":"10.0.0.1","method":"GET","target":"/","ssl":true}
"#,
        "deploy v1\n1 v1 pass - / 0:pass\n2 v1 pass - / 1:pass\n3 v1 pass - / 2:pass\n4 v1 block:429 rl/r1 / 3:over@10003\n5 v1 block:429 rl/r1 / 4:over@10003\n6 v1 pass - / 5:pass\n7 v1 pass - / 6:pass\n",
    ),
    (
        "neither asks nothing",
        r#"{"deploy":{"rulesets":[{"id":"rl","kind":"zone","phase":"http_ratelimit","rules":[{"id":"r1","expression":"ssl","action":"block","ratelimit":{"characteristics":["ip.src"],"period":10,"requests_per_period":1,"counting_expression":"http.request.uri.path eq \"/a\""}}]}]}}
{"at":0,"ip":"10.0.0.1","method":"GET","target":"/"}
{"at":1,"ip":"10.0.0.1","method":"GET","target":"/a"}
{"at":2,"ip":"10.0.0.1","method":"GET","target":"/a","ssl":true}
"#,
        "deploy v1\n1 v1 pass - / -\n2 v1 pass - /a 0:pass\n3 v1 block:429 rl/r1 /a 1:over@2\n",
    ),
    (
        "over without the condition goes on",
        r#"{"deploy":{"rulesets":[{"id":"rl","kind":"zone","phase":"http_ratelimit","rules":[{"id":"r1","expression":"http.request.uri.path eq \"/a\"","action":"block","ratelimit":{"characteristics":["ip.src"],"period":10,"requests_per_period":1,"mitigation_timeout":5,"counting_expression":"true"}},{"id":"r2","expression":"true","action":"block","ratelimit":{"characteristics":["ip.src"],"period":10,"requests_per_period":9}}]}]}}
{"at":0,"ip":"10.0.0.1","method":"GET","target":"/b"}
{"at":1,"ip":"10.0.0.1","method":"GET","target":"/b"}
{"at":2,"ip":"10.0.0.1","method":"GET","target":"/a"}
{"at":5001,"ip":"10.0.0.1","method":"GET","target":"/b"}
"#,
        "deploy v1\n1 v1 pass - /b 0:pass,1:pass\n2 v1 pass - /b 2:over@5001,3:pass\n3 v1 block:429 rl/r1 /a 4:over@5001\n4 v1 pass - /b 5:over@10001,6:pass\n",
    ),
    (
        "an empty counting expression is none",
        r#"{"deploy":{"rulesets":[{"id":"rl","kind":"zone","phase":"http_ratelimit","rules":[{"id":"r1","expression":"http.request.uri.path eq \"/a\"","action":"block","ratelimit":{"characteristics":["ip.src"],"period":10,"requests_per_period":1,"counting_expression":""}}]}]}}
{"at":0,"ip":"10.0.0.1","method":"GET","target":"/a"}
{"at":1,"ip":"10.0.0.1","method":"GET","target":"/a"}
"#,
        "deploy v1\n1 v1 pass - /a 0:pass\n2 v1 block:429 rl/r1 /a 1:over@1\n",
    ),
    (
        "a late moment",
        r#"{"deploy":{"rulesets":[{"id":"rl","kind":"zone","phase":"http_ratelimit","rules":[{"id":"r1","expression":"true","action":"block","ratelimit":{"characteristics":["ip.src"],"period":10,"requests_per_period":1,"mitigation_timeout":5}}]}]}}
{"at":5000,"ip":"10.0.0.1","method":"GET","target":"/"}
{"at":0,"ip":"10.0.0.1","method":"GET","target":"/"}
{"at":10000,"ip":"10.0.0.1","method":"GET","target":"/"}
{"at":10001,"ip":"10.0.0.1","method":"GET","target":"/"}
{"at":4999,"ip":"10.0.0.1","method":"GET","target":"/"}
"#,
        "deploy v1\n1 v1 pass - / 0:pass\n2 v1 block:429 rl/r1 / 1:over@10000\n3 v1 block:429 rl/r1 / 2:over@15000\n4 v1 block:429 rl/r1 / 3:over@15000\n5 v1 block:429 rl/r1 / 4:over@15000\n",
    ),
    (
        "a late moment is that of the lane",
        r#"{"deploy":{"rulesets":[{"id":"rl","kind":"zone","phase":"http_ratelimit","rules":[{"id":"r1","expression":"true","action":"block","ratelimit":{"characteristics":["cf.colo.id"],"period":10,"requests_per_period":2,"mitigation_timeout":5}}]}]}}
{"at":9000,"ip":"10.0.0.1","method":"GET","target":"/"}
{"at":0,"ip":"10.0.0.2","method":"GET","target":"/"}
{"at":1,"ip":"10.0.0.3","method":"GET","target":"/"}
{"at":14000,"ip":"10.0.0.4","method":"GET","target":"/"}
{"at":19000,"ip":"10.0.0.5","method":"GET","target":"/"}
"#,
        "deploy v1\n1 v1 pass - / 0:pass\n2 v1 pass - / 1:pass\n3 v1 block:429 rl/r1 / 2:over@14000\n4 v1 block:429 rl/r1 / 3:over@19000\n5 v1 pass - / 4:pass\n",
    ),
    (
        "replies are counted",
        r#"{"deploy":{"rulesets":[{"id":"rl","kind":"zone","phase":"http_ratelimit","rules":[{"id":"r1","expression":"true","action":"block","ratelimit":{"characteristics":["ip.src"],"period":10,"requests_per_period":1,"mitigation_timeout":60,"counting_expression":"http.response.code eq 401"}}]}]}}
{"at":0,"ip":"10.0.0.1","method":"GET","target":"/","reply":{"status":401}}
{"at":1,"ip":"10.0.0.1","method":"GET","target":"/","reply":{"status":200}}
{"at":2,"ip":"10.0.0.1","method":"GET","target":"/","reply":{"status":401}}
{"at":3,"ip":"10.0.0.1","method":"GET","target":"/","reply":{"status":401}}
"#,
        "deploy v1\n1 v1 pass - / 0:pass,1:pass\n2 v1 pass - / 2:pass\n3 v1 pass - / 3:pass,4:over@60002\n4 v1 block:429 rl/r1 / 5:over@60002\n",
    ),
    (
        "a reply is counted at its own moment",
        r#"{"deploy":{"rulesets":[{"id":"rl","kind":"zone","phase":"http_ratelimit","rules":[{"id":"r1","expression":"true","action":"block","ratelimit":{"characteristics":["ip.src"],"period":1,"requests_per_period":1,"mitigation_timeout":1,"counting_expression":"http.response.code eq 401"}}]}]}}
{"at":0,"ip":"10.0.0.1","method":"GET","target":"/","reply":{"status":401,"at":500}}
{"at":400,"ip":"10.0.0.1","method":"GET","target":"/","reply":{"status":401,"at":1499}}
{"at":1600,"ip":"10.0.0.1","method":"GET","target":"/","reply":{"status":401,"at":1700}}
{"at":2498,"ip":"10.0.0.1","method":"GET","target":"/"}
{"at":2499,"ip":"10.0.0.1","method":"GET","target":"/"}
"#,
        "deploy v1\n1 v1 pass - / 0:pass,1:pass\n2 v1 pass - / 2:pass,3:over@2499\n3 v1 block:429 rl/r1 / 4:over@2499\n4 v1 block:429 rl/r1 / 5:over@2499\n5 v1 pass - / 6:pass\n",
    ),
    (
        "no reply is counted after a block",
        r#"{"deploy":{"rulesets":[{"id":"fw","kind":"zone","phase":"http_request_firewall_custom","rules":[{"id":"w","expression":"http.request.uri.path eq \"/a\"","action":"block"}]},{"id":"rl","kind":"zone","phase":"http_ratelimit","rules":[{"id":"r1","expression":"true","action":"block","ratelimit":{"characteristics":["ip.src"],"period":10,"requests_per_period":1,"counting_expression":"http.response.code eq 401"}}]}]}}
{"at":0,"ip":"10.0.0.1","method":"GET","target":"/a","reply":{"status":401}}
{"at":1,"ip":"10.0.0.1","method":"GET","target":"/b","reply":{"status":401}}
{"at":2,"ip":"10.0.0.1","method":"GET","target":"/b","reply":{"status":401}}
{"at":3,"ip":"10.0.0.1","method":"GET","target":"/b","reply":{"status":401}}
"#,
        "deploy v1\n1 v1 block:403 fw/w /a -\n2 v1 pass - /b 0:pass,1:pass\n3 v1 pass - /b 2:pass,3:over@2\n4 v1 pass - /b 4:pass,5:over@3\n",
    ),
    (
        "a rule that is not reached counts no reply",
        r#"{"deploy":{"rulesets":[{"id":"rl","kind":"zone","phase":"http_ratelimit","rules":[{"id":"r0","expression":"true","action":"block","ratelimit":{"characteristics":["ip.src"],"period":10,"requests_per_period":1,"mitigation_timeout":3}},{"id":"r1","expression":"true","action":"log","ratelimit":{"characteristics":["ip.src"],"period":10,"requests_per_period":1,"mitigation_timeout":9,"counting_expression":"http.response.code eq 500"}}]}]}}
{"at":0,"ip":"10.0.0.1","method":"GET","target":"/","reply":{"status":500}}
{"at":1,"ip":"10.0.0.1","method":"GET","target":"/","reply":{"status":500}}
{"at":3002,"ip":"10.0.0.1","method":"GET","target":"/","reply":{"status":500}}
{"at":10000,"ip":"10.0.0.1","method":"GET","target":"/","reply":{"status":500}}
"#,
        "deploy v1\n1 v1 pass - / 0:pass,1:pass,2:pass\n2 v1 block:429 rl/r0 / 3:over@3001\n3 v1 block:429 rl/r0 / 4:over@6002\n4 v1 pass - / 5:pass,6:pass,7:pass\n",
    ),
    (
        "two rules count one reply",
        r#"{"deploy":{"rulesets":[{"id":"rl","kind":"zone","phase":"http_ratelimit","rules":[{"id":"r1","expression":"true","action":"log","ratelimit":{"characteristics":["ip.src"],"period":10,"requests_per_period":1,"counting_expression":"http.response.code eq 500"}},{"id":"r2","expression":"false","action":"block","ratelimit":{"characteristics":["ip.src"],"period":10,"requests_per_period":2,"counting_expression":"http.response.code eq 500"}}]}]}}
{"at":0,"ip":"10.0.0.1","method":"GET","target":"/","reply":{"status":500}}
{"at":1,"ip":"10.0.0.1","method":"GET","target":"/","reply":{"status":500}}
{"at":2,"ip":"10.0.0.1","method":"GET","target":"/","reply":{"status":200}}
{"at":3,"ip":"10.0.0.1","method":"GET","target":"/","reply":{"status":500}}
"#,
        "deploy v1\n1 v1 pass - / 0:pass,1:pass,2:pass\n2 v1 pass - / 3:pass,4:over@1,5:pass\n3 v1 pass - / 6:pass\n4 v1 pass - / 7:pass,8:over@3,9:over@3\n",
    ),
    (
        "a condition that fails counts replies",
        r#"{"deploy":{"rulesets":[{"id":"rl","kind":"zone","phase":"http_ratelimit","rules":[{"id":"r1","expression":"ssl","action":"block","ratelimit":{"characteristics":["ip.src"],"period":10,"requests_per_period":1,"mitigation_timeout":60,"counting_expression":"http.response.code eq 401"}}]}]}}
{"at":0,"ip":"10.0.0.1","method":"GET","target":"/","reply":{"status":401}}
{"at":1,"ip":"10.0.0.1","method":"GET","target":"/","reply":{"status":401}}
{"at":2,"ip":"10.0.0.1","method":"GET","target":"/","ssl":true,"reply":{"status":401}}
{"at":3,"ip":"10.0.0.1","method":"GET","target":"/","reply":{"status":401}}
"#,
        "deploy v1\n1 v1 pass - / 0:pass\n2 v1 pass - / 1:over@60001\n3 v1 block:429 rl/r1 / 2:over@60001\n4 v1 pass - / 3:over@60001\n",
    ),
    (
        "a limit in an executed ruleset",
        r#"{"deploy":{"rulesets":[{"id":"cu","kind":"custom","phase":"http_ratelimit","rules":[{"id":"r1","expression":"true","action":"block","ratelimit":{"characteristics":["ip.src"],"period":10,"requests_per_period":1}}]},{"id":"rl","kind":"zone","phase":"http_ratelimit","rules":[{"id":"e1","expression":"true","action":"execute","action_parameters":{"id":"cu"}},{"id":"r2","expression":"true","action":"block","ratelimit":{"characteristics":["ip.src"],"period":10,"requests_per_period":2}}]}]}}
{"at":0,"ip":"10.0.0.1","method":"GET","target":"/"}
{"at":1,"ip":"10.0.0.1","method":"GET","target":"/"}
{"at":2,"ip":"10.0.0.1","method":"GET","target":"/"}
"#,
        "deploy v1\n1 v1 pass - / 0:pass,1:pass\n2 v1 block:429 cu/r1 / 2:over@1\n3 v1 block:429 cu/r1 / 3:over@2\n",
    ),
    (
        "executed twice, asked twice",
        r#"{"deploy":{"rulesets":[{"id":"cu","kind":"custom","phase":"http_ratelimit","rules":[{"id":"r1","expression":"true","action":"log","ratelimit":{"characteristics":["ip.src"],"period":10,"requests_per_period":3}}]},{"id":"rl","kind":"zone","phase":"http_ratelimit","rules":[{"id":"e1","expression":"true","action":"execute","action_parameters":{"id":"cu"}},{"id":"e2","expression":"true","action":"execute","action_parameters":{"id":"cu"}}]}]}}
{"at":0,"ip":"10.0.0.1","method":"GET","target":"/"}
{"at":1,"ip":"10.0.0.1","method":"GET","target":"/"}
{"at":2,"ip":"10.0.0.1","method":"GET","target":"/"}
"#,
        "deploy v1\n1 v1 pass - / 0:pass,1:pass\n2 v1 pass - / 2:pass,3:over@1 log=cu/r1\n3 v1 pass - / 4:over@2,5:over@2 log=cu/r1,cu/r1\n",
    ),
    (
        "an execution of some requests",
        r#"{"deploy":{"rulesets":[{"id":"cu","kind":"custom","phase":"http_ratelimit","rules":[{"id":"r1","expression":"true","action":"block","ratelimit":{"characteristics":["ip.src"],"period":10,"requests_per_period":1}}]},{"id":"rl","kind":"zone","phase":"http_ratelimit","rules":[{"id":"e1","expression":"http.request.uri.path eq \"/a\"","action":"execute","action_parameters":{"id":"cu"}}]}]}}
{"at":0,"ip":"10.0.0.1","method":"GET","target":"/b"}
{"at":1,"ip":"10.0.0.1","method":"GET","target":"/a"}
{"at":2,"ip":"10.0.0.1","method":"GET","target":"/a"}
"#,
        "deploy v1\n1 v1 pass - /b -\n2 v1 pass - /a 0:pass\n3 v1 block:429 cu/r1 /a 1:over@2\n",
    ),
    (
        "overrides log",
        r#"{"deploy":{"rulesets":[{"id":"cu","kind":"custom","phase":"http_ratelimit","rules":[{"id":"r1","expression":"true","action":"block","ratelimit":{"characteristics":["ip.src"],"period":10,"requests_per_period":1}},{"id":"r2","expression":"true","action":"block","ratelimit":{"characteristics":["ip.src"],"period":10,"requests_per_period":9}}]},{"id":"rl","kind":"zone","phase":"http_ratelimit","rules":[{"id":"e1","expression":"true","action":"execute","action_parameters":{"id":"cu","overrides":{"action":"log"}}}]}]}}
{"at":0,"ip":"10.0.0.1","method":"GET","target":"/"}
{"at":1,"ip":"10.0.0.1","method":"GET","target":"/"}
"#,
        "deploy v1\n1 v1 pass - / 0:pass,1:pass\n2 v1 pass - / 2:over@1,3:pass log=cu/r1\n",
    ),
    (
        "overrides block by the default",
        r#"{"deploy":{"rulesets":[{"id":"cu","kind":"custom","phase":"http_ratelimit","rules":[{"id":"r1","expression":"true","action":"log","ratelimit":{"characteristics":["ip.src"],"period":10,"requests_per_period":1}}]},{"id":"rl","kind":"zone","phase":"http_ratelimit","rules":[{"id":"e1","expression":"true","action":"execute","action_parameters":{"id":"cu","overrides":{"action":"block"}}}]}]}}
{"at":0,"ip":"10.0.0.1","method":"GET","target":"/"}
{"at":1,"ip":"10.0.0.1","method":"GET","target":"/"}
"#,
        "deploy v1\n1 v1 pass - / 0:pass\n2 v1 block:429 cu/r1 / 1:over@1\n",
    ),
    (
        "overrides disable a limit",
        r#"{"deploy":{"rulesets":[{"id":"cu","kind":"custom","phase":"http_ratelimit","rules":[{"id":"r1","expression":"true","action":"block","ratelimit":{"characteristics":["ip.src"],"period":10,"requests_per_period":1}},{"id":"r2","expression":"true","action":"block","ratelimit":{"characteristics":["ip.src"],"period":10,"requests_per_period":2}}]},{"id":"rl","kind":"zone","phase":"http_ratelimit","rules":[{"id":"e1","expression":"true","action":"execute","action_parameters":{"id":"cu","overrides":{"rules":[{"id":"r1","enabled":false}]}}}]}]}}
{"at":0,"ip":"10.0.0.1","method":"GET","target":"/"}
{"at":1,"ip":"10.0.0.1","method":"GET","target":"/"}
{"at":2,"ip":"10.0.0.1","method":"GET","target":"/"}
"#,
        "deploy v1\n1 v1 pass - / 0:pass\n2 v1 pass - / 1:pass\n3 v1 block:429 cu/r2 / 2:over@2\n",
    ),
    (
        "overrides enable a limit",
        r#"{"deploy":{"rulesets":[{"id":"cu","kind":"custom","phase":"http_ratelimit","rules":[{"id":"r1","expression":"true","action":"block","ratelimit":{"characteristics":["ip.src"],"period":10,"requests_per_period":1},"enabled":false}]},{"id":"rl","kind":"zone","phase":"http_ratelimit","rules":[{"id":"e1","expression":"true","action":"execute","action_parameters":{"id":"cu","overrides":{"enabled":true}}}]}]}}
{"at":0,"ip":"10.0.0.1","method":"GET","target":"/"}
{"at":1,"ip":"10.0.0.1","method":"GET","target":"/"}
"#,
        "deploy v1\n1 v1 pass - / 0:pass\n2 v1 block:429 cu/r1 / 1:over@1\n",
    ),
    (
        "the last entry of a rule speaks",
        r#"{"deploy":{"rulesets":[{"id":"cu","kind":"custom","phase":"http_ratelimit","rules":[{"id":"r1","expression":"true","action":"block","ratelimit":{"characteristics":["ip.src"],"period":10,"requests_per_period":1}}]},{"id":"rl","kind":"zone","phase":"http_ratelimit","rules":[{"id":"e1","expression":"true","action":"execute","action_parameters":{"id":"cu","overrides":{"rules":[{"id":"r1","action":"log"},{"id":"r1","action":"challenge"}]}}}]}]}}
{"at":0,"ip":"10.0.0.1","method":"GET","target":"/"}
{"at":1,"ip":"10.0.0.1","method":"GET","target":"/"}
"#,
        "deploy v1\n1 v1 pass - / 0:pass\n2 v1 challenge cu/r1 / 1:over@1\n",
    ),
    (
        "an override of an own response",
        r#"{"deploy":{"rulesets":[{"id":"cu","kind":"custom","phase":"http_ratelimit","rules":[{"id":"r1","expression":"true","action":"block","ratelimit":{"characteristics":["ip.src"],"period":10,"requests_per_period":1},"action_parameters":{"response":{"status_code":499}}}]},{"id":"rl","kind":"zone","phase":"http_ratelimit","rules":[{"id":"e1","expression":"true","action":"execute","action_parameters":{"id":"cu","overrides":{"action":"block"}}}]}]}}
{"at":0,"ip":"10.0.0.1","method":"GET","target":"/"}
{"at":1,"ip":"10.0.0.1","method":"GET","target":"/"}
"#,
        "deploy v1\n1 v1 pass - / 0:pass\n2 v1 block:499 cu/r1 / 1:over@1\n",
    ),
    (
        "a disabled limit asks nothing",
        r#"{"deploy":{"rulesets":[{"id":"rl","kind":"zone","phase":"http_ratelimit","rules":[{"id":"r1","expression":"true","action":"block","ratelimit":{"characteristics":["ip.src"],"period":10,"requests_per_period":1},"enabled":false},{"id":"r2","expression":"true","action":"block","ratelimit":{"characteristics":["ip.src"],"period":10,"requests_per_period":1}}]}]}}
{"at":0,"ip":"10.0.0.1","method":"GET","target":"/"}
{"at":1,"ip":"10.0.0.1","method":"GET","target":"/"}
"#,
        "deploy v1\n1 v1 pass - / 0:pass\n2 v1 block:429 rl/r2 / 1:over@1\n",
    ),
    (
        "a block before limits",
        r#"{"deploy":{"rulesets":[{"id":"fw","kind":"zone","phase":"http_request_firewall_custom","rules":[{"id":"w","expression":"http.request.uri.path eq \"/a\"","action":"block"}]},{"id":"rl","kind":"zone","phase":"http_ratelimit","rules":[{"id":"r1","expression":"true","action":"block","ratelimit":{"characteristics":["ip.src"],"period":10,"requests_per_period":1}}]}]}}
{"at":0,"ip":"10.0.0.1","method":"GET","target":"/a"}
{"at":1,"ip":"10.0.0.1","method":"GET","target":"/b"}
{"at":2,"ip":"10.0.0.1","method":"GET","target":"/a"}
{"at":3,"ip":"10.0.0.1","method":"GET","target":"/b"}
"#,
        "deploy v1\n1 v1 block:403 fw/w /a -\n2 v1 pass - /b 0:pass\n3 v1 block:403 fw/w /a -\n4 v1 block:429 rl/r1 /b 1:over@3\n",
    ),
    (
        "another version with the same limit",
        r#"{"deploy":{"rulesets":[{"id":"rl","kind":"zone","phase":"http_ratelimit","rules":[{"id":"r1","expression":"true","action":"block","ratelimit":{"characteristics":["ip.src"],"period":10,"requests_per_period":1,"mitigation_timeout":5}}]}]}}
{"at":0,"ip":"10.0.0.1","method":"GET","target":"/"}
{"deploy":{"rulesets":[{"id":"rl","kind":"zone","phase":"http_ratelimit","rules":[{"id":"r1","expression":"true","action":"log","ratelimit":{"characteristics":["ip.src"],"period":10,"requests_per_period":1,"mitigation_timeout":5}}]}]}}
{"at":1,"ip":"10.0.0.1","method":"GET","target":"/"}
{"at":2,"ip":"10.0.0.1","method":"GET","target":"/"}
{"at":5001,"ip":"10.0.0.1","method":"GET","target":"/"}
"#,
        "deploy v1\n1 v1 pass - / 0:pass\ndeploy v2\n2 v2 pass - / 1:over@5001 log=rl/r1\n3 v2 pass - / 2:over@5001 log=rl/r1\n4 v2 pass - / 3:over@10001 log=rl/r1\n",
    ),
    (
        "another version with another limit",
        r#"{"deploy":{"rulesets":[{"id":"rl","kind":"zone","phase":"http_ratelimit","rules":[{"id":"r1","expression":"true","action":"block","ratelimit":{"characteristics":["ip.src"],"period":10,"requests_per_period":1}}]}]}}
{"at":0,"ip":"10.0.0.1","method":"GET","target":"/"}
{"deploy":{"rulesets":[{"id":"rl","kind":"zone","phase":"http_ratelimit","rules":[{"id":"r1","expression":"true","action":"block","ratelimit":{"characteristics":["ip.src"],"period":11,"requests_per_period":1}}]}]}}
{"at":1,"ip":"10.0.0.1","method":"GET","target":"/"}
{"at":2,"ip":"10.0.0.1","method":"GET","target":"/"}
{"deploy":{"rulesets":[{"id":"rl","kind":"zone","phase":"http_ratelimit","rules":[{"id":"r1","expression":"true","action":"block","ratelimit":{"characteristics":["ip.src"],"period":10,"requests_per_period":1}}]}]}}
{"at":3,"ip":"10.0.0.1","method":"GET","target":"/"}
"#,
        "deploy v1\n1 v1 pass - / 0:pass\ndeploy v2\n2 v2 pass - / 1:pass\n3 v2 block:429 rl/r1 / 2:over@2\ndeploy v3\n4 v3 block:429 rl/r1 / 3:over@3\n",
    ),
    (
        "the same limit of another rule",
        r#"{"deploy":{"rulesets":[{"id":"rl","kind":"zone","phase":"http_ratelimit","rules":[{"id":"r1","expression":"true","action":"block","ratelimit":{"characteristics":["ip.src"],"period":10,"requests_per_period":1}}]}]}}
{"at":0,"ip":"10.0.0.1","method":"GET","target":"/"}
{"deploy":{"rulesets":[{"id":"rl","kind":"zone","phase":"http_ratelimit","rules":[{"id":"r2","expression":"true","action":"block","ratelimit":{"characteristics":["ip.src"],"period":10,"requests_per_period":1}}]}]}}
{"at":1,"ip":"10.0.0.1","method":"GET","target":"/"}
{"at":2,"ip":"10.0.0.1","method":"GET","target":"/"}
"#,
        "deploy v1\n1 v1 pass - / 0:pass\ndeploy v2\n2 v2 pass - / 1:pass\n3 v2 block:429 rl/r2 / 2:over@2\n",
    ),
    (
        "the longest period",
        r#"{"deploy":{"rulesets":[{"id":"rl","kind":"zone","phase":"http_ratelimit","rules":[{"id":"r1","expression":"true","action":"block","ratelimit":{"characteristics":["ip.src"],"period":86400,"requests_per_period":1,"mitigation_timeout":86400}}]}]}}
{"at":0,"ip":"10.0.0.1","method":"GET","target":"/"}
{"at":1,"ip":"10.0.0.1","method":"GET","target":"/"}
{"at":86400000,"ip":"10.0.0.1","method":"GET","target":"/"}
{"at":86400001,"ip":"10.0.0.1","method":"GET","target":"/"}
"#,
        "deploy v1\n1 v1 pass - / 0:pass\n2 v1 block:429 rl/r1 / 1:over@86400001\n3 v1 block:429 rl/r1 / 2:over@86400001\n4 v1 pass - / 3:pass\n",
    ),
    (
        "the last moments",
        r#"{"deploy":{"rulesets":[{"id":"rl","kind":"zone","phase":"http_ratelimit","rules":[{"id":"r1","expression":"true","action":"block","ratelimit":{"characteristics":["ip.src"],"period":86400,"requests_per_period":1,"mitigation_timeout":86400}}]}]}}
{"at":9007199254740992,"ip":"10.0.0.1","method":"GET","target":"/"}
{"at":9007199254740992,"ip":"10.0.0.1","method":"GET","target":"/"}
{"at":0,"ip":"10.0.0.1","method":"GET","target":"/"}
"#,
        "deploy v1\n1 v1 pass - / 0:pass\n2 v1 block:429 rl/r1 / 1:over@9007199341140992\n3 v1 block:429 rl/r1 / 2:over@9007199341140992\n",
    ),
    (
        "a great threshold",
        r#"{"deploy":{"rulesets":[{"id":"rl","kind":"zone","phase":"http_ratelimit","rules":[{"id":"r1","expression":"true","action":"block","ratelimit":{"characteristics":["ip.src"],"period":10,"requests_per_period":1000000}}]}]}}
{"at":0,"ip":"10.0.0.1","method":"GET","target":"/"}
{"at":0,"ip":"10.0.0.1","method":"GET","target":"/"}
{"at":0,"ip":"10.0.0.1","method":"GET","target":"/"}
"#,
        "deploy v1\n1 v1 pass - / 0:pass\n2 v1 pass - / 1:pass\n3 v1 pass - / 2:pass\n",
    ),
    (
        "a timeout of nothing",
        r#"{"deploy":{"rulesets":[{"id":"rl","kind":"zone","phase":"http_ratelimit","rules":[{"id":"r1","expression":"true","action":"block","ratelimit":{"characteristics":["ip.src"],"period":1,"requests_per_period":1,"mitigation_timeout":0}}]}]}}
{"at":0,"ip":"10.0.0.1","method":"GET","target":"/"}
{"at":0,"ip":"10.0.0.1","method":"GET","target":"/"}
{"at":999,"ip":"10.0.0.1","method":"GET","target":"/"}
{"at":1000,"ip":"10.0.0.1","method":"GET","target":"/"}
"#,
        "deploy v1\n1 v1 pass - / 0:pass\n2 v1 block:429 rl/r1 / 1:over@0\n3 v1 block:429 rl/r1 / 2:over@999\n4 v1 pass - / 3:pass\n",
    ),
    (
        "a mitigation outlives its period",
        r#"{"deploy":{"rulesets":[{"id":"rl","kind":"zone","phase":"http_ratelimit","rules":[{"id":"r1","expression":"true","action":"block","ratelimit":{"characteristics":["ip.src"],"period":1,"requests_per_period":1,"mitigation_timeout":10}}]}]}}
{"at":0,"ip":"10.0.0.1","method":"GET","target":"/"}
{"at":1,"ip":"10.0.0.1","method":"GET","target":"/"}
{"at":5000,"ip":"10.0.0.1","method":"GET","target":"/"}
{"at":10000,"ip":"10.0.0.1","method":"GET","target":"/"}
{"at":10001,"ip":"10.0.0.1","method":"GET","target":"/"}
"#,
        "deploy v1\n1 v1 pass - / 0:pass\n2 v1 block:429 rl/r1 / 1:over@10001\n3 v1 block:429 rl/r1 / 2:over@10001\n4 v1 block:429 rl/r1 / 3:over@10001\n5 v1 pass - / 4:pass\n",
    ),
    (
        "a further step while held does not lengthen it",
        r#"{"deploy":{"rulesets":[{"id":"rl","kind":"zone","phase":"http_ratelimit","rules":[{"id":"r1","expression":"true","action":"block","ratelimit":{"characteristics":["ip.src"],"period":1,"requests_per_period":1,"mitigation_timeout":2}}]}]}}
{"at":0,"ip":"10.0.0.1","method":"GET","target":"/"}
{"at":1,"ip":"10.0.0.1","method":"GET","target":"/"}
{"at":2000,"ip":"10.0.0.1","method":"GET","target":"/"}
{"at":2001,"ip":"10.0.0.1","method":"GET","target":"/"}
{"at":2002,"ip":"10.0.0.1","method":"GET","target":"/"}
{"at":4002,"ip":"10.0.0.1","method":"GET","target":"/"}
"#,
        "deploy v1\n1 v1 pass - / 0:pass\n2 v1 block:429 rl/r1 / 1:over@2001\n3 v1 block:429 rl/r1 / 2:over@2001\n4 v1 pass - / 3:pass\n5 v1 block:429 rl/r1 / 4:over@4002\n6 v1 pass - / 5:pass\n",
    ),
];

#[test]
fn limits_count_as_documented(rt: HostRuntime) -> Result<(), Fail> {
    let alloc = rt.alloc();
    for (shows, input, out) in TRACES {
        let ran = run(
            alloc,
            lane_hashers(&rt, alloc)?,
            &["replay"],
            input,
            steady(alloc, 4_096),
        )?;
        assert!(rt; ran.out.bytes() == out.as_bytes(), "{shows}");
        check(&rt, &ran, Status::Done, out.as_bytes(), b"");
    }
    Ok(())
}
