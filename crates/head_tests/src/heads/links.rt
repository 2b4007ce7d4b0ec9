use super::{link, read_link, read_whole};
use std::test::Fail;

const WORKED: &str =
    "GET /x?a=1 HTTP/1.1\r\nHost: a.example\r\nUser-Agent: curl/8.5.0\r\nAccept: */*\r\n\r\n";

const WITH_BODY: &str = "POST / HTTP/1.1\r\ncontent-length: 5\r\n\r\nhello";

#[test]
fn a_head_that_is_cut_anywhere_is_cut(rt: HostRuntime) -> Result<(), Fail> {
    let alloc = rt.alloc();
    for text in [WORKED, WITH_BODY] {
        let bytes = text.as_bytes();
        for end in 0..bytes.len() {
            let front = &bytes[..end];
            assert_eq!(rt;
                read_whole(alloc, front)?.bytes(),
                b"Cut".as_slice(),
                "at {end}"
            );
            for piece in [1, 7, 4096] {
                let mut link = link(alloc, front, piece, &[])?;
                assert_eq!(rt;
                    read_link(alloc, &mut link)?.bytes(),
                    b"Cut".as_slice(),
                    "at {end}"
                );
            }
        }
    }
    Ok(())
}

#[test]
fn a_read_that_fails_is_told_and_nothing_is_written(rt: HostRuntime) -> Result<(), Fail> {
    let alloc = rt.alloc();
    for text in [WORKED, WITH_BODY] {
        let bytes = text.as_bytes();
        for at in 0..bytes.len() {
            let mut link = link(alloc, bytes, 1, &[at as u64])?;
            assert_eq!(rt;
                read_link(alloc, &mut link)?.bytes(),
                b"ReadFault".as_slice(),
                "at {at}"
            );
            assert_eq!(rt; link.source.faults(), 1);
            assert_eq!(rt; link.source.taken().len(), at);
            assert_eq!(rt; link.sink.bytes(), b"".as_slice());
        }
    }
    Ok(())
}

#[test]
fn no_more_is_read_than_the_request(rt: HostRuntime) -> Result<(), Fail> {
    let alloc = rt.alloc();
    let texts = [
        "GET / HTTP/1.1\r\n\r\nbehind",
        "\r\n\nGET / HTTP/1.1\n\nbehind",
        "GET / HTTP/1.1\r\na: b\n\r\nbehind",
        "POST / HTTP/1.1\r\ncontent-length: 5\r\n\r\nhellobehind",
        "POST / HTTP/1.1\r\ncontent-length: x\r\n\r\nbehind",
    ];
    for text in texts {
        let mut link = link(alloc, text.as_bytes(), 1, &[])?;
        read_link(alloc, &mut link)?;
        assert_eq!(rt; link.source.left(), b"behind".as_slice(), "of {text:?}");
    }
    Ok(())
}

#[test]
fn what_can_be_no_head_is_refused_before_its_end(rt: HostRuntime) -> Result<(), Fail> {
    let alloc = rt.alloc();
    let mut link = link(alloc, b"\x16\x03\x01\x02\x00\x01\x00\x01", 4, &[])?;
    assert_eq!(rt; read_link(alloc, &mut link)?.bytes(), b"BadHead".as_slice());
    assert_eq!(rt; link.source.taken().len(), 4);
    Ok(())
}
