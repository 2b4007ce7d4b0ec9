use super::{gives, link, read_link, read_whole};
use edge_base::{Memory, Text, TextBuilder};
use std::alloc::Global;
use std::test::Fail;

/// A head of so many headers, without the empty line.
fn head_of(alloc: Global, headers: u64) -> Result<TextBuilder, Memory> {
    let mut text = TextBuilder::new(alloc);
    text.push(b"GET / HTTP/1.1\r\n")?;
    for number in 0..headers {
        text.push(b"h")?;
        text.push_number(number)?;
        text.push(b": v\r\n")?;
    }
    Ok(text)
}

/// A head of so many bytes and no body.
fn long_head(alloc: Global, bytes: usize) -> Result<Text, Memory> {
    let mut text = TextBuilder::new(alloc);
    text.push(b"GET / HTTP/1.1\r\na: ")?;
    for _ in 0..bytes.saturating_sub(23) {
        text.push(b"x")?;
    }
    text.push(b"\r\n\r\n")?;
    Ok(text.into_text())
}

/// At most so many bytes of a text.
fn front(bytes: &[u8], count: usize) -> &[u8] {
    &bytes[..count.min(bytes.len())]
}

#[test]
fn a_head_has_at_most_100_headers(rt: HostRuntime) -> Result<(), Fail> {
    let alloc = rt.alloc();
    let mut many = head_of(alloc, 100)?;
    gives(&rt, alloc, many.bytes(), b"Cut")?;
    many.push(b"\r\n")?;
    assert!(rt;
        read_whole(alloc, many.bytes())?
            .bytes()
            .starts_with(b"GET / 1 h0=v;h1=v;")
    );
    let mut more = head_of(alloc, 101)?;
    gives(&rt, alloc, more.bytes(), b"TooManyHeaders")?;
    more.push(b"\r\n")?;
    gives(&rt, alloc, more.bytes(), b"TooManyHeaders")?;
    Ok(())
}

#[test]
fn a_header_that_has_only_begun_does_not_count(rt: HostRuntime) -> Result<(), Fail> {
    let alloc = rt.alloc();
    let mut begun = head_of(alloc, 100)?;
    begun.push(b"h: v\r")?;
    gives(&rt, alloc, begun.bytes(), b"Cut")?;
    Ok(())
}

#[test]
fn a_head_has_at_most_65536_bytes(rt: HostRuntime) -> Result<(), Fail> {
    let alloc = rt.alloc();
    let longest = long_head(alloc, 65_536)?;
    assert_eq!(rt; longest.bytes().len(), 65_536);
    assert!(rt;
        read_whole(alloc, longest.bytes())?
            .bytes()
            .starts_with(b"GET / 1 a=xxx")
    );
    let longer = long_head(alloc, 65_537)?;
    gives(&rt, alloc, longer.bytes(), b"HeadTooLong")?;
    gives(&rt, alloc, front(longer.bytes(), 65_536), b"HeadTooLong")?;
    gives(&rt, alloc, front(longer.bytes(), 65_535), b"Cut")?;
    Ok(())
}

#[test]
fn the_longest_head_is_read_a_byte_at_a_time(rt: HostRuntime) -> Result<(), Fail> {
    let alloc = rt.alloc();
    let longest = long_head(alloc, 65_536)?;
    let mut link = link(alloc, longest.bytes(), 1, &[])?;
    assert!(rt;
        read_link(alloc, &mut link)?
            .bytes()
            .starts_with(b"GET / 1 a=xxx")
    );
    Ok(())
}

#[test]
fn empty_lines_count_as_bytes_of_the_head(rt: HostRuntime) -> Result<(), Fail> {
    let alloc = rt.alloc();
    let mut text = TextBuilder::new(alloc);
    for _ in 0..32_768 {
        text.push(b"\r\n")?;
    }
    text.push(b"GET / HTTP/1.1\r\n\r\n")?;
    gives(&rt, alloc, text.bytes(), b"HeadTooLong")?;
    gives(&rt, alloc, &text.bytes()[18..], b"GET / 1 #")?;
    Ok(())
}

#[test]
fn a_body_has_at_most_1048576_bytes(rt: HostRuntime) -> Result<(), Fail> {
    let alloc = rt.alloc();
    let mut text = TextBuilder::new(alloc);
    text.push(b"POST / HTTP/1.1\r\ncontent-length: 1048576\r\n\r\n")?;
    let body = Vec::from_elem(alloc, b'x', 1_048_576)?;
    text.push(body.as_slice())?;
    text.push(b"behind")?;
    let front = b"POST / 1 content-length=1048576;#";
    let read = read_whole(alloc, text.bytes())?;
    assert_eq!(rt; read.bytes().len(), front.len() + 1_048_576);
    let mut link = link(alloc, text.bytes(), 65_536, &[])?;
    assert!(rt; read_link(alloc, &mut link)?.bytes() == read.bytes());
    Ok(())
}
