// Lines and numbers of some texts.

use text_parts::{decimal_number, first_line, number_in_base};

#[test]
fn lines_are_taken_one_by_one(rt: HostRuntime) {
    let rows: [(&[u8], &[u8], bool, &[u8]); 4] = [
        (b"a\r\nb", b"a\r", true, b"b"),
        (b"\n\n", b"", true, b"\n"),
        (b"last", b"last", false, b""),
        (b"end\n", b"end", true, b""),
    ];
    for (text, line, is_ended, rest) in rows {
        let first = first_line(text).expect(&rt, "the text is not empty");
        assert_eq!(rt; first.line, line);
        assert_eq!(rt; first.is_ended, is_ended);
        assert_eq!(rt; first.rest, rest);
    }
    assert!(rt; first_line(b"").is_none());
}

#[test]
fn decimal_numbers_are_read_up_to_a_limit(rt: HostRuntime) {
    assert_eq!(rt; decimal_number(b"007", 7), Some(7));
    assert_eq!(rt; decimal_number(b"8", 7), None);
    assert_eq!(rt;
        decimal_number(b"18446744073709551615", u64::MAX),
        Some(u64::MAX)
    );
    assert_eq!(rt; decimal_number(b"18446744073709551616", u64::MAX), None);
    assert_eq!(rt; decimal_number(b"1x", 7), None);
    assert_eq!(rt; decimal_number(b"", 7), None);
}

#[test]
fn digits_of_other_bases_are_read(rt: HostRuntime) {
    assert_eq!(rt; number_in_base(16, b"1fF"), Some(511));
    assert_eq!(rt; number_in_base(16, b""), Some(0));
    assert_eq!(rt; number_in_base(16, b"10000000000000000"), None);
}
