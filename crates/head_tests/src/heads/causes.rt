use super::gives;
use std::test::Fail;

/// No bytes that could follow make these a head.
const BAD_HEADS: [&str; 55] = [
    "GET / HTTP/1.2\r\n\r\n",
    "GET / HTTP/2.0\r\n\r\n",
    "PRI * HTTP/2.0\r\n\r\nSM\r\n\r\n",
    "GET / HTTP/0.9\r\n\r\n",
    "GET /\r\n\r\n",
    "GET / HTTP/1.11\r\n\r\n",
    "GET / HTTP/11\r\n\r\n",
    "GET / http/1.1\r\n\r\n",
    "GET  / HTTP/1.1\r\n\r\n",
    "GET /  HTTP/1.1\r\n\r\n",
    "GET / HTTP/1.1 \r\n\r\n",
    " GET / HTTP/1.1\r\n\r\n",
    "\tGET / HTTP/1.1\r\n\r\n",
    "GET\t/ HTTP/1.1\r\n\r\n",
    " / HTTP/1.1\r\n\r\n",
    "G@T / HTTP/1.1\r\n\r\n",
    "G\0T / HTTP/1.1\r\n\r\n",
    "G\u{c4}T / HTTP/1.1\r\n\r\n",
    "HTTP/1.1 200 OK\r\n\r\n",
    "hello\r\n\r\n",
    "\rGET / HTTP/1.1\r\n\r\n",
    "\r\rGET / HTTP/1.1\r\n\r\n",
    "\x16\x03\x01\0\0\r\n\r\n",
    "GET /a b HTTP/1.1\r\n\r\n",
    "GET /\0 HTTP/1.1\r\n\r\n",
    "GET /\x7f HTTP/1.1\r\n\r\n",
    "GET /\x01 HTTP/1.1\r\n\r\n",
    "GET / HTTP/1.1\ra: b\r\n\r\n",
    "GET / HTTP/1.1\r\ra: b\r\n\r\n",
    "GET / HTTP/1.1\r\n\ra: b\r\n\r\n",
    "GET / HTTP/1.1\r\n a: b\r\n\r\n",
    "GET / HTTP/1.1\r\na: b\r\n c\r\n\r\n",
    "GET / HTTP/1.1\r\na: b\r\n\tc\r\n\r\n",
    "GET / HTTP/1.1\r\na : b\r\n\r\n",
    "GET / HTTP/1.1\r\na\t: b\r\n\r\n",
    "GET / HTTP/1.1\r\na b: c\r\n\r\n",
    "GET / HTTP/1.1\r\n: b\r\n\r\n",
    "GET / HTTP/1.1\r\na\r\n\r\n",
    "GET / HTTP/1.1\r\na=b\r\n\r\n",
    "GET / HTTP/1.1\r\n(a): b\r\n\r\n",
    "GET / HTTP/1.1\r\na\0: b\r\n\r\n",
    "GET / HTTP/1.1\r\n\u{e4}: b\r\n\r\n",
    "GET / HTTP/1.1\r\na\x7f: b\r\n\r\n",
    "GET / HTTP/1.1\r\na: b\0c\r\n\r\n",
    "GET / HTTP/1.1\r\na: b\rc\r\n\r\n",
    "GET / HTTP/1.1\r\na: b\r\r\n\r\n",
    "GET / HTTP/1.1\r\na: b\x7f\r\n\r\n",
    "GET / HTTP/1.1\r\na: b\x0bc\r\n\r\n",
    "GET / HTTP/1.1\r\na: b\x1f\r\n\r\n",
    "POST / HTTP/1.1\r\nContent-Length : 5\r\n\r\nhello",
    "POST / HTTP/1.1\r\ntransfer-encoding : chunked\r\n\r\n0\r\n\r\n",
    "GET / HTTP/1.1\r\na : b",
    "GET / HTTP/1.1\r\na\0",
    "GET / HTTP/3",
    "\0",
];

/// Heads with a length that is none, or with two that differ.
const BAD_LENGTHS: [&str; 21] = [
    "POST / HTTP/1.1\r\ncontent-length: +5\r\n\r\nhello",
    "POST / HTTP/1.1\r\ncontent-length: 0x5\r\n\r\nhello",
    "POST / HTTP/1.1\r\ncontent-length: 5, 5\r\n\r\nhello",
    "POST / HTTP/1.1\r\ncontent-length: 5 5\r\n\r\nhello",
    "POST / HTTP/1.1\r\ncontent-length: -1\r\n\r\nhello",
    "POST / HTTP/1.1\r\ncontent-length: \r\n\r\nhello",
    "POST / HTTP/1.1\r\ncontent-length: 1.0\r\n\r\nhello",
    "POST / HTTP/1.1\r\ncontent-length: 5a\r\n\r\nhello",
    "POST / HTTP/1.1\r\ncontent-length: 1e3\r\n\r\nhello",
    "POST / HTTP/1.1\r\ncontent-length: 1000000000000000000\r\n\r\nhello",
    "POST / HTTP/1.1\r\ncontent-length: 0000000000000000005\r\n\r\nhello",
    "POST / HTTP/1.1\r\ncontent-length: \u{665}\r\n\r\nhello",
    "POST / HTTP/1.1\r\ncontent-length: 5,\r\n\r\nhello",
    "POST / HTTP/1.1\r\ncontent-length: 5;\r\n\r\nhello",
    "POST / HTTP/1.1\r\ncontent-length: \"5\"\r\n\r\nhello",
    "POST / HTTP/1.1\r\ncontent-length: 05\r\ncontent-length: 5\r\n\r\nhello",
    "POST / HTTP/1.1\r\ncontent-length: 5\r\nContent-Length: 6\r\n\r\nhello",
    "POST / HTTP/1.1\r\ncontent-length: 5\r\ncontent-length: 5\r\ncontent-length: 4\r\n\r\nhello",
    "POST / HTTP/1.1\r\ncontent-length: 5\r\nCONTENT-LENGTH:\r\n\r\nhello",
    "POST / HTTP/1.1\r\ncontent-length: x\r\ncontent-length: 5\r\n\r\nhello",
    "POST / HTTP/1.1\r\ncontent-length: 1048577\r\ncontent-length: 5\r\n\r\nhello",
];

/// Heads with a coded body, some of them with a length as well.
const CODINGS: [&str; 8] = [
    "POST / HTTP/1.1\r\ntransfer-encoding: chunked\r\n\r\n0\r\n\r\n",
    "POST / HTTP/1.1\r\nTransfer-Encoding: identity\r\n\r\n",
    "POST / HTTP/1.1\r\nTRANSFER-ENCODING:\r\n\r\n",
    "POST / HTTP/1.0\r\ntransfer-encoding: gzip, chunked\r\n\r\n",
    "POST / HTTP/1.1\r\ncontent-length: 5\r\ntransfer-encoding: chunked\r\n\r\nhello",
    "POST / HTTP/1.1\r\ntransfer-encoding: chunked\r\ncontent-length: x\r\n\r\nhello",
    "POST / HTTP/1.1\r\ncontent-length: 1048577\r\ntransfer-encoding: xchunked\r\n\r\n",
    "POST / HTTP/1.1\r\na: b\r\ntransfer-encoding: \x2c\r\nc: d\r\n\r\n",
];

/// Heads with a body of more than 1,048,576 bytes.
const LONG_BODIES: [&str; 3] = [
    "POST / HTTP/1.1\r\ncontent-length: 1048577\r\n\r\n",
    "POST / HTTP/1.1\r\ncontent-length: 999999999999999999\r\n\r\nhello",
    "POST / HTTP/1.1\r\ncontent-length: 18446744073709551\r\n\r\nhello",
];

/// Bytes that end before the head and the body are whole.
const CUTS: [&str; 21] = [
    "",
    "\r\n",
    "\r\n\r\n\r\n",
    "\r",
    "G",
    "GET",
    "GET ",
    "GET /",
    "GET /\u{e4}",
    "GET / ",
    "GET / HTTP/1.1",
    "GET / HTTP/1.1\r",
    "GET / HTTP/1.1\r\n",
    "GET / HTTP/1.1\r\n\r",
    "GET / HTTP/1.1\r\na",
    "GET / HTTP/1.1\r\na:",
    "GET / HTTP/1.1\r\na: b\r\n",
    "GET / HTTP/1.1\r\na: b\r\n\r",
    "POST / HTTP/1.1\r\ncontent-length: 5\r\n\r\nhell",
    "POST / HTTP/1.1\r\ncontent-length: 1\r\n\r\n",
    "POST / HTTP/1.1\r\ncontent-length: 1048576\r\n\r\nhello",
];

#[test]
fn what_can_be_no_head_is_refused(rt: HostRuntime) -> Result<(), Fail> {
    for bytes in &BAD_HEADS {
        gives(&rt, rt.alloc(), bytes.as_bytes(), b"BadHead")?;
    }
    Ok(())
}

#[test]
fn lengths_are_digits_and_do_not_differ(rt: HostRuntime) -> Result<(), Fail> {
    for bytes in &BAD_LENGTHS {
        gives(&rt, rt.alloc(), bytes.as_bytes(), b"BadLength")?;
    }
    Ok(())
}

#[test]
fn coded_bodies_are_refused(rt: HostRuntime) -> Result<(), Fail> {
    for bytes in &CODINGS {
        gives(&rt, rt.alloc(), bytes.as_bytes(), b"Coding")?;
    }
    Ok(())
}

#[test]
fn long_bodies_are_refused(rt: HostRuntime) -> Result<(), Fail> {
    for bytes in &LONG_BODIES {
        gives(&rt, rt.alloc(), bytes.as_bytes(), b"BodyTooLong")?;
    }
    Ok(())
}

#[test]
fn bytes_that_end_too_soon_are_refused(rt: HostRuntime) -> Result<(), Fail> {
    for bytes in &CUTS {
        gives(&rt, rt.alloc(), bytes.as_bytes(), b"Cut")?;
    }
    Ok(())
}
