//! Lines, numbers, words and wires of texts.

use lnet_lines::{Lines, number};
use lnet_wires::Wires;
use lnet_words::{cut, next_word, only_word};

#[test]
fn lines_come_in_order(rt: HostRuntime) {
    let mut lines = Lines::new(b"a\rb\r\n c\r", 7);
    assert_eq!(rt; lines.next_line(), Some(b"a\rb".as_slice()));
    assert_eq!(rt; lines.number(), 8);
    assert_eq!(rt; lines.rest(), b" c\r".as_slice());
}

#[test]
fn numbers_have_a_bound(rt: HostRuntime) {
    for (text, value) in [
        ("0000000007", Some(7)),
        ("2147483647", Some(2_147_483_647)),
        ("2147483648", None),
        ("00000000007", None),
        ("", None),
        ("1 ", None),
        ("-1", None),
    ] {
        assert_eq!(rt; number(text.as_bytes()), value, "{text}");
    }
}

#[test]
fn parts(rt: HostRuntime) {
    let texts: [(&[u8], &[u8], Option<&[u8]>); 4] = [
        (b"", b"", None),
        (b"ab", b"ab", None),
        (b"a,b,c", b"a", Some(b"b,c")),
        (b",", b"", Some(b"")),
    ];
    for (text, part, behind) in texts {
        assert_eq!(rt; cut(text, b','), (part, behind));
    }
}

#[test]
fn words(rt: HostRuntime) {
    assert_eq!(rt;
        next_word(b"\ta b"),
        Some((b"a".as_slice(), b"b".as_slice()))
    );
    assert_eq!(rt; only_word(b"  a\t"), Some(b"a".as_slice()));
    assert_eq!(rt; only_word(b"a b"), None);
}

#[test]
fn first_seen_first(rt: HostRuntime) {
    let mut wires = Wires::new(rt.alloc());
    assert_eq!(rt; wires.wire(b"a"), Ok(1));
    assert_eq!(rt; wires.wire(b"ab"), Ok(2));
    assert_eq!(rt; wires.wire(b"a"), Ok(1));
}
