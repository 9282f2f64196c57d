// Which line of a log is bad.

use replay_check::bad_line;

#[test]
fn lines_without_a_reading_are_bad(rt: HostRuntime) {
    let rows: [(&[u8], Option<u32>); 5] = [
        (b"", None),
        (b"(1.000000) can0 123#\n\n(1.000000) can0 123##1\n", None),
        (b"(1.000000) can0 123#\nhello\n(1.0) can0\n", Some(2)),
        (b"(1.000000) can0 123#\nhello", None),
        (b"hello\n", Some(1)),
    ];
    for (log, wanted) in rows {
        assert_eq!(rt; bad_line(log), wanted);
    }
}
