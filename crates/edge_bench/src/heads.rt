//! Requests read of a browser's usual head.

use crate::faults::Fault;
use edge_base::{Addr, Memory, Moment, Text, TextBuilder};
use http_front::request_of;
use std::alloc::Global;

/// The most fields behind the usual ones.
const MOST_SIZE: u32 = 80;

/// The head of a page's request as a browser sends it, without the empty line at its end.
const USUAL: &[u8] = b"GET /articles/2026/11/a-day-in-the-hills?page=2&sort=newest HTTP/1.1\r\n\
Host: www.a.example\r\n\
User-Agent: Mozilla/5.0 (X11; Linux x86_64; rv:128.0) Gecko/20100101 Firefox/128.0\r\n\
Accept: text/html,application/xhtml+xml,application/xml;q=0.9,image/avif,image/webp,*/*;q=0.8\r\n\
Accept-Language: en-GB,en;q=0.7,de;q=0.3\r\n\
Accept-Encoding: gzip, deflate, br, zstd\r\n\
Referer: https://www.a.example/articles/2026/11/\r\n\
DNT: 1\r\n\
Connection: keep-alive\r\n\
Cookie: session=8f14e45fceea167a5a36dedd4bea2543; theme=dark; consent=all; seen=1764633600\r\n\
Upgrade-Insecure-Requests: 1\r\n\
Sec-Fetch-Dest: document\r\n\
Sec-Fetch-Mode: navigate\r\n\
Sec-Fetch-Site: same-origin\r\n\
Sec-Fetch-User: ?1\r\n\
Priority: u=0, i\r\n";

/// The head with so many fields behind the usual ones.
fn head_with(alloc: Global, size: u32) -> Result<Text, Memory> {
    let mut head = TextBuilder::new(alloc);
    head.push(USUAL)?;
    for place in 0..size {
        head.push(b"X-Field-")?;
        head.push_number(u64::from(place))?;
        head.push(b": value\r\n")?;
    }
    head.push(b"\r\n")?;
    Ok(head.into_text())
}

/// How many headers the requests had in all rounds.
pub fn headers_read(alloc: Global, size: u32, rounds: u32) -> Result<u64, Fault> {
    if size > MOST_SIZE {
        return Err(Fault::Usage);
    }
    let Some(at) = Moment::of(0) else {
        return Err(Fault::Refused);
    };
    let head = head_with(alloc, size)?;
    let mut found = 0u64;
    for _ in 0..rounds {
        let request = request_of(alloc, head.bytes(), Addr::V4(1), false, at)?;
        found = found.wrapping_add(request.headers.len() as u64);
    }
    Ok(found)
}
