use edge_base::{Addr, parse_addr, print_addr};
use std::test::Fail;

/// The number of a V6 address by its two halves.
fn v6(high: u64, low: u64) -> Option<Addr> {
    Some(Addr::V6(u128::from(high) << 64 | u128::from(low)))
}

#[test]
fn a_v4_text_is_four_numbers_below_256(rt: HostRuntime) {
    let cases = [
        ("0.0.0.0", Some(Addr::V4(0))),
        ("1.2.3.4", Some(Addr::V4(0x0102_0304))),
        ("10.0.0.1", Some(Addr::V4(0x0a00_0001))),
        ("127.0.0.1", Some(Addr::V4(0x7f00_0001))),
        ("255.255.255.255", Some(Addr::V4(0xffff_ffff))),
        ("", None),
        ("1.2.3", None),
        ("1.2.3.4.5", None),
        ("1.2.3.", None),
        (".1.2.3", None),
        ("1..2.3", None),
        ("01.2.3.4", None),
        ("1.2.3.00", None),
        ("256.0.0.1", None),
        ("1.2.3.256", None),
        ("1.2.3.4 ", None),
        (" 1.2.3.4", None),
        ("1.2.3.a", None),
        ("+1.2.3.4", None),
        ("1.2.3.4/8", None),
    ];
    for (text, want) in cases {
        assert_eq!(rt; parse_addr(text.as_bytes()), want, "at {text}");
    }
}

#[test]
fn a_v6_text_is_eight_groups_or_fewer_with_two_colons(rt: HostRuntime) {
    let cases = [
        ("::", v6(0, 0)),
        ("::1", v6(0, 1)),
        ("1::", v6(0x0001_0000_0000_0000, 0)),
        (
            "1:2:3:4:5:6:7:8",
            v6(0x0001_0002_0003_0004, 0x0005_0006_0007_0008),
        ),
        (
            "1:2:3:4:5:6:7::",
            v6(0x0001_0002_0003_0004, 0x0005_0006_0007_0000),
        ),
        (
            "::2:3:4:5:6:7:8",
            v6(0x0000_0002_0003_0004, 0x0005_0006_0007_0008),
        ),
        (
            "1:2:3::5:6:7:8",
            v6(0x0001_0002_0003_0000, 0x0005_0006_0007_0008),
        ),
        ("2001:db8::80", v6(0x2001_0db8_0000_0000, 0x80)),
        ("2001:0DB8::0080", v6(0x2001_0db8_0000_0000, 0x80)),
        ("face::1", v6(0xface_0000_0000_0000, 1)),
        ("cafe::", v6(0xcafe_0000_0000_0000, 0)),
        ("::1.2.3.4", v6(0, 0x0102_0304)),
        ("::ffff:10.0.0.1", v6(0, 0xffff_0a00_0001)),
        (
            "1:2:3:4:5:6:1.2.3.4",
            v6(0x0001_0002_0003_0004, 0x0005_0006_0102_0304),
        ),
        ("1:2:3:4:5:6:7:8::", None),
        ("::1:2:3:4:5:6:7:8", None),
        ("1:2:3:4:5:6:7", None),
        ("1:2:3:4:5:6:7:8:9", None),
        ("1:2:3:4:5:6:7:1.2.3.4", None),
        ("1::2::3", None),
        (":::", None),
        (":", None),
        (":1", None),
        ("1:", None),
        ("00001::", None),
        ("12345::", None),
        ("g::", None),
        ("1.2.3.4:1::", None),
        ("1.2.3.4::", None),
        ("::1.2.3.4:5", None),
        ("::1.2.3", None),
        ("::01.2.3.4", None),
        ("::1%1", None),
        ("[::1]", None),
    ];
    for (text, want) in cases {
        assert_eq!(rt; parse_addr(text.as_bytes()), want, "at {text}");
    }
}

#[test]
fn an_address_has_one_spelling(rt: HostRuntime) -> Result<(), Fail> {
    let cases = [
        ("0.0.0.0", "0.0.0.0"),
        ("10.0.255.1", "10.0.255.1"),
        ("0:0:0:0:0:0:0:0", "::"),
        ("0:0:0:0:0:0:0:1", "::1"),
        ("1:0:0:0:0:0:0:0", "1::"),
        ("0:0:1:0:0:0:0:1", "0:0:1::1"),
        ("1:0:0:2:3:0:0:4", "1::2:3:0:0:4"),
        ("1:0:2:3:4:5:6:7", "1:0:2:3:4:5:6:7"),
        ("2001:0DB8:0:0:0:0:0:0080", "2001:db8::80"),
        ("ABCD:EF01:2:03:004:0005:6:FFFF", "abcd:ef01:2:3:4:5:6:ffff"),
        ("::ffff:10.0.0.1", "::ffff:a00:1"),
        ("::10.0.0.1", "::a00:1"),
    ];
    for (text, want) in cases {
        let addr = parse_addr(text.as_bytes()).ok_or("no address")?;
        assert_eq!(rt; addr.copy()?, addr);
        assert_eq!(rt;
            print_addr(rt.alloc(), addr)?.bytes(),
            want.as_bytes(),
            "at {text}"
        );
        assert_eq!(rt; parse_addr(want.as_bytes()), Some(addr), "at {want}");
    }
    Ok(())
}
