use edge_base::{Header, Headers, Memory, Text};
use http_front::reply_bytes;
use std::alloc::Global;
use std::test::Fail;

/// A status, headers, a body, whether the request is for the head alone, and the reply.
type Row = (
    u16,
    &'static [(&'static str, &'static str)],
    &'static str,
    bool,
    &'static str,
);

const REPLIES: [Row; 18] = [
    (
        200,
        &[("content-type", "text/plain")],
        "hi",
        false,
        "HTTP/1.1 200 OK\r\ncontent-type: text/plain\r\ncontent-length: 2\r\nconnection: close\r\n\r\nhi",
    ),
    (
        403,
        &[("content-type", "text/plain")],
        "blocked\n",
        false,
        "HTTP/1.1 403 Forbidden\r\ncontent-type: text/plain\r\ncontent-length: 8\r\nconnection: close\r\n\r\nblocked\n",
    ),
    (
        502,
        &[("content-type", "text/plain")],
        "OriginFault\n",
        false,
        "HTTP/1.1 502 Bad Gateway\r\ncontent-type: text/plain\r\ncontent-length: 12\r\nconnection: close\r\n\r\nOriginFault\n",
    ),
    (
        200,
        &[],
        "hello",
        true,
        "HTTP/1.1 200 OK\r\ncontent-length: 5\r\nconnection: close\r\n\r\n",
    ),
    (
        204,
        &[],
        "hi",
        false,
        "HTTP/1.1 204 No Content\r\nconnection: close\r\n\r\n",
    ),
    (
        304,
        &[("etag", "x")],
        "hi",
        false,
        "HTTP/1.1 304 Not Modified\r\netag: x\r\nconnection: close\r\n\r\n",
    ),
    (
        304,
        &[],
        "hi",
        true,
        "HTTP/1.1 304 Not Modified\r\nconnection: close\r\n\r\n",
    ),
    (
        100,
        &[],
        "hi",
        false,
        "HTTP/1.1 100 Continue\r\nconnection: close\r\n\r\n",
    ),
    (
        199,
        &[],
        "hi",
        false,
        "HTTP/1.1 199 \r\nconnection: close\r\n\r\n",
    ),
    (
        299,
        &[],
        "",
        false,
        "HTTP/1.1 299 \r\ncontent-length: 0\r\nconnection: close\r\n\r\n",
    ),
    (
        999,
        &[],
        "a",
        false,
        "HTTP/1.1 999 \r\ncontent-length: 1\r\nconnection: close\r\n\r\na",
    ),
    (
        431,
        &[],
        "",
        false,
        "HTTP/1.1 431 Request Header Fields Too Large\r\ncontent-length: 0\r\nconnection: close\r\n\r\n",
    ),
    (
        301,
        &[("location", "https://b.example/new")],
        "",
        false,
        "HTTP/1.1 301 Moved Permanently\r\nlocation: https://b.example/new\r\ncontent-length: 0\r\nconnection: close\r\n\r\n",
    ),
    (
        200,
        &[
            ("Content-Length", "7"),
            ("x", "1"),
            ("CONNECTION", "keep-alive"),
            ("transfer-encoding", "chunked"),
            ("x", "2"),
        ],
        "hi",
        false,
        "HTTP/1.1 200 OK\r\nx: 1\r\nx: 2\r\ncontent-length: 2\r\nconnection: close\r\n\r\nhi",
    ),
    (
        200,
        &[("X-Empty", "")],
        "",
        false,
        "HTTP/1.1 200 OK\r\nX-Empty: \r\ncontent-length: 0\r\nconnection: close\r\n\r\n",
    ),
    (
        413,
        &[],
        "",
        false,
        "HTTP/1.1 413 Payload Too Large\r\ncontent-length: 0\r\nconnection: close\r\n\r\n",
    ),
    (
        501,
        &[],
        "",
        false,
        "HTTP/1.1 501 Not Implemented\r\ncontent-length: 0\r\nconnection: close\r\n\r\n",
    ),
    (
        503,
        &[("content-type", "text/plain")],
        "Memory\n",
        false,
        "HTTP/1.1 503 Service Unavailable\r\ncontent-type: text/plain\r\ncontent-length: 7\r\nconnection: close\r\n\r\nMemory\n",
    ),
];

fn headers_of(alloc: Global, pairs: &[(&str, &str)]) -> Result<Headers, Memory> {
    let mut headers = Headers::new(alloc);
    for (name, value) in pairs {
        headers.push(Header {
            name: Text::of(alloc, name.as_bytes())?,
            value: Text::of(alloc, value.as_bytes())?,
        })?;
    }
    Ok(headers)
}

#[test]
fn replies_are_written(rt: HostRuntime) -> Result<(), Fail> {
    let alloc = rt.alloc();
    for (status, headers, body, to_head, wanted) in &REPLIES {
        let headers = headers_of(alloc, headers)?;
        let body = Text::of(alloc, body.as_bytes())?;
        let reply = reply_bytes(alloc, *status, &headers, &body, *to_head)?;
        assert_eq!(rt; reply.bytes(), wanted.as_bytes());
    }
    Ok(())
}
