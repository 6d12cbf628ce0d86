//! Tests of `text_words`: words, numbers and bytes, read and written.

use text_words::{
    after, byte_text, decode, digit, hex_array, hex_digit, hex_digits, hex_value, is_hex_digit,
    number, whole,
};

#[test]
fn reads_words(rt: HostRuntime) {
    assert!(rt; after(b"unit ", b"unit 3") == Some(b"3".as_slice()));
    assert!(rt; after(b"unit ", b"units") == None);
    assert!(rt; whole(b"").is_some() && whole(b" ").is_none());
    assert!(rt; digit(b"70") == Some((7, b"0".as_slice())));
    assert!(rt; digit(b"8") == None);
}

#[test]
fn reads_numbers(rt: HostRuntime) {
    let cases: [(&[u8], Option<(Option<u64>, &[u8])>); 6] = [
        (b"0 a", Some((Some(0), b" a"))),
        (b"65536", Some((Some(65536), b""))),
        (b"18446744073709551615", Some((Some(u64::MAX), b""))),
        (b"18446744073709551616", Some((None, b""))),
        (b"01", None),
        (b"", None),
    ];
    for (text, want) in cases {
        assert!(rt; number(text) == want, "{text:?}");
    }
}

#[test]
fn reads_and_writes_bytes(rt: HostRuntime) {
    let cases: [(&[u8], Option<(&[u8], &[u8])>); 4] = [
        (b"0fa0 none", Some((b"0fa0", b" none"))),
        (b"0f0", None),
        (b"A0", None),
        (b"", None),
    ];
    for (text, want) in cases {
        assert!(rt; hex_digits(text) == want, "{text:?}");
    }
    let mut bytes = [0; 2];
    decode(b"0fa0", &mut bytes);
    assert!(rt; bytes == [0x0f, 0xa0]);
    assert!(rt; hex_array(b"0fa0 none") == Some(([0x0f, 0xa0], b" none".as_slice())));
    assert!(rt; hex_array::<1>(b"0fa0") == None);
    assert!(rt; byte_text(0xa7) == *b"a7" && hex_digit(15) == b'f');
    assert!(rt; hex_value(b'c') == 12 && !is_hex_digit(b'g'));
}
