use super::gives;
use std::test::Fail;

/// The bytes of a request, and what is read of them.
type Row = (&'static str, &'static str);

/// Requests, some of them odd but lawful.
const REQUESTS: [Row; 41] = [
    ("GET / HTTP/1.1\r\n\r\n", "GET / 1 #"),
    ("GET / HTTP/1.0\r\n\r\n", "GET / 0 #"),
    (
        "GET /x?a=1 HTTP/1.1\r\nHost: a.example\r\nUser-Agent: curl/8.5.0\r\nAccept: */*\r\n\r\n",
        "GET /x?a=1 1 Host=a.example;User-Agent=curl/8.5.0;Accept=*/*;#",
    ),
    ("GET / HTTP/1.1\nhost: a\n\n", "GET / 1 host=a;#"),
    (
        "GET / HTTP/1.1\nhost: a\r\nb: c\n\r\n",
        "GET / 1 host=a;b=c;#",
    ),
    ("GET / HTTP/1.1\n\n", "GET / 1 #"),
    ("\r\n\r\nGET / HTTP/1.1\r\n\r\n", "GET / 1 #"),
    ("\n\n\nGET / HTTP/1.1\r\n\r\n", "GET / 1 #"),
    ("\r\n\nGET / HTTP/1.1\n\r\n", "GET / 1 #"),
    ("get / HTTP/1.1\r\n\r\n", "get / 1 #"),
    ("M-SEARCH * HTTP/1.1\r\n\r\n", "M-SEARCH * 1 #"),
    (
        "!#$%&'*+-.^_`|~09 / HTTP/1.1\r\n\r\n",
        "!#$%&'*+-.^_`|~09 / 1 #",
    ),
    (
        "GET http://a.example/x HTTP/1.1\r\n\r\n",
        "GET http://a.example/x 1 #",
    ),
    ("GET HTTPS://a?x HTTP/1.1\r\n\r\n", "GET HTTPS://a?x 1 #"),
    (
        "CONNECT a.example:443 HTTP/1.1\r\n\r\n",
        "CONNECT a.example:443 1 #",
    ),
    ("OPTIONS * HTTP/1.1\r\n\r\n", "OPTIONS * 1 #"),
    ("GET /\u{e4} HTTP/1.1\r\n\r\n", "GET /\u{e4} 1 #"),
    ("GET /a#b\"<>^{|} HTTP/1.1\r\n\r\n", "GET /a#b\"<>^{|} 1 #"),
    ("GET / HTTP/1.1\r\na:b\r\n\r\n", "GET / 1 a=b;#"),
    (
        "GET / HTTP/1.1\r\na: \t b  c \t \r\n\r\n",
        "GET / 1 a=b  c;#",
    ),
    ("GET / HTTP/1.1\r\na:\r\nb: \t\r\n\r\n", "GET / 1 a=;b=;#"),
    ("GET / HTTP/1.1\r\na: b\tc\r\n\r\n", "GET / 1 a=b\tc;#"),
    ("GET / HTTP/1.1\r\na: b:c\r\n\r\n", "GET / 1 a=b:c;#"),
    ("GET / HTTP/1.1\r\na: \u{e4}\r\n\r\n", "GET / 1 a=\u{e4};#"),
    (
        "GET / HTTP/1.1\r\n!#$%&'*+-.^_`|~09: a\r\n\r\n",
        "GET / 1 !#$%&'*+-.^_`|~09=a;#",
    ),
    (
        "GET / HTTP/1.1\r\nhost: a\r\nhost: b\r\n\r\n",
        "GET / 1 host=a;host=b;#",
    ),
    (
        "GET / HTTP/1.1\r\nx: 1\r\nX: 2\r\nx: 1\r\n\r\n",
        "GET / 1 x=1;X=2;x=1;#",
    ),
    (
        "POST / HTTP/1.1\r\ncontent-length: 2\r\n\r\nhi",
        "POST / 1 content-length=2;#hi",
    ),
    (
        "POST / HTTP/1.1\r\nCONTENT-LENGTH: 2\r\n\r\nhi",
        "POST / 1 CONTENT-LENGTH=2;#hi",
    ),
    (
        "POST / HTTP/1.1\r\ncOnTeNt-LeNgTh:3\r\n\r\nabcd",
        "POST / 1 cOnTeNt-LeNgTh=3;#abc",
    ),
    (
        "POST / HTTP/1.1\r\ncontent-length: 2\r\nContent-Length: 2\r\n\r\nhi",
        "POST / 1 content-length=2;Content-Length=2;#hi",
    ),
    (
        "POST / HTTP/1.1\r\ncontent-length: 0\r\n\r\nhi",
        "POST / 1 content-length=0;#",
    ),
    (
        "POST / HTTP/1.1\r\ncontent-length: 000000000000000002\r\n\r\nhi",
        "POST / 1 content-length=000000000000000002;#hi",
    ),
    (
        "POST / HTTP/1.1\r\ncontent-length:   4  \r\n\r\n\r\n\r\n",
        "POST / 1 content-length=4;#\r\n\r\n",
    ),
    ("POST / HTTP/1.1\r\n\r\nhi", "POST / 1 #"),
    (
        "GET / HTTP/1.1\r\ncontent-length: 1\r\n\r\nhi",
        "GET / 1 content-length=1;#h",
    ),
    (
        "GET /1 HTTP/1.1\r\n\r\nGET /2 HTTP/1.1\r\n\r\n",
        "GET /1 1 #",
    ),
    (
        "POST / HTTP/1.1\r\nexpect: 100-continue\r\ncontent-length: 2\r\n\r\nhi",
        "POST / 1 expect=100-continue;content-length=2;#hi",
    ),
    (
        "GET / HTTP/1.1\r\nte: trailers\r\nx-transfer-encoding: chunked\r\ntransfer-encodings: x\r\n\r\n",
        "GET / 1 te=trailers;x-transfer-encoding=chunked;transfer-encodings=x;#",
    ),
    (
        "GET / HTTP/1.1\r\nx-content-length: y\r\ncontent-lengths: z\r\n\r\n",
        "GET / 1 x-content-length=y;content-lengths=z;#",
    ),
    (
        "HEAD / HTTP/1.1\r\nconnection: keep-alive\r\nupgrade: h2c\r\n\r\n",
        "HEAD / 1 connection=keep-alive;upgrade=h2c;#",
    ),
];

#[test]
fn requests_are_read(rt: HostRuntime) -> Result<(), Fail> {
    for (bytes, wanted) in &REQUESTS {
        gives(&rt, rt.alloc(), bytes.as_bytes(), wanted.as_bytes())?;
    }
    Ok(())
}

#[test]
fn values_need_not_be_text(rt: HostRuntime) -> Result<(), Fail> {
    let bytes = b"GET / HTTP/1.1\r\na: \xff\x80\r\n\r\n";
    gives(&rt, rt.alloc(), bytes, b"GET / 1 a=\xff\x80;#")?;
    let target = b"GET /\xff HTTP/1.1\r\n\r\n";
    gives(&rt, rt.alloc(), target, b"BadHead")?;
    Ok(())
}
