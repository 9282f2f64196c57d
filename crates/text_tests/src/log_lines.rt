// Lines as tools write them.

use can_frame::{Frame, Ident};
use log_line::{Entry, Line, LineRefusal, append_line, laws, read_line, view_line, write_line};
use std::alloc::Global;
use std::process::Abort;
use std::test::Fail;

/// The entry that the line reads as.
fn entry_of(alloc: Global, line: &[u8]) -> Result<Entry, Fail> {
    match read_line(alloc, line) {
        Ok(Line::Entry(entry)) => Ok(entry),
        _ => Err("no entry")?,
    }
}

/// The identifier, whether the frame is remote, the data length code and the bytes.
type Fields = (Ident, bool, u8, [u8; 8]);

/// The entry of the moment that the lines of tools have, and of a frame with these fields.
fn check_entry(rt: &impl Abort, entry: &Entry, wanted: Fields) {
    assert_eq!(rt; entry.seconds, 1_436_509_052);
    assert_eq!(rt; entry.micros, 249_713);
    assert_eq!(rt; entry.interface.bytes(), b"vcan0".as_slice());
    let frame = entry.frame;
    assert_eq!(rt;
        (frame.ident(), frame.rtr(), frame.dlc(), frame.payload()),
        wanted
    );
    assert_eq!(rt; frame.can(), 1);
}

// Written by python-can 4.1.0 (`CanutilsLogWriter`) and by `asc2log` of can-utils 2020.11, which has the
// printer of `candump -l`; `candump -L` writes the same without the direction.
#[test]
fn lines_of_tools_are_entries(rt: HostRuntime) -> Result<(), Fail> {
    let rows: [(&[u8], Ident, bool, u8, [u8; 8]); 8] = [
        (
            b"(1436509052.249713) vcan0 044#2A366C2BBA R",
            Ident::Std(0x44),
            false,
            5,
            [0x2A, 0x36, 0x6C, 0x2B, 0xBA, 0, 0, 0],
        ),
        (
            b"(1436509052.249713) vcan0 00C0FFEE#0019000100030001 T",
            Ident::Ext(0xC0_FFEE),
            false,
            8,
            [0, 0x19, 0, 1, 0, 3, 0, 1],
        ),
        (
            b"(1436509052.249713) vcan0 123#R R",
            Ident::Std(0x123),
            true,
            0,
            [0; 8],
        ),
        (
            b"(1436509052.249713) vcan0 7FF# R",
            Ident::Std(0x7FF),
            false,
            0,
            [0; 8],
        ),
        (
            b"(1436509052.249713) vcan0 123#R4 R",
            Ident::Std(0x123),
            true,
            4,
            [0; 8],
        ),
        (
            b"(1436509052.249713) vcan0 12ABCDEF#R",
            Ident::Ext(0x12AB_CDEF),
            true,
            0,
            [0; 8],
        ),
        (
            b"(1436509052.249713) vcan0 123#11A2",
            Ident::Std(0x123),
            false,
            2,
            [0x11, 0xA2, 0, 0, 0, 0, 0, 0],
        ),
        (
            b" (1436509052.249713)\tvcan0  123#11.a2 T \r",
            Ident::Std(0x123),
            false,
            2,
            [0x11, 0xA2, 0, 0, 0, 0, 0, 0],
        ),
    ];
    for (line, ident, remote, dlc, payload) in rows {
        let entry = entry_of(rt.alloc(), line)?;
        check_entry(&rt, &entry, (ident, remote, dlc, payload));
    }
    Ok(())
}

// A frame of CAN FD by python-can, an error frame by asc2log and by python-can, and a frame with a length
// code above 8 by candump (`-8`).
#[test]
fn lines_of_other_frames_are_passed_over(rt: HostRuntime) {
    let rows: [&[u8]; 4] = [
        b"(1436509052.850000) vcan0 123##1112233 R",
        b"(1795793318.582661) can0 20000080#0000000000000000",
        b"(1436509053.000000) vcan0 20000080#",
        b"(1436509053.000000) vcan0 123#1122334455667788_C",
    ];
    for line in rows {
        assert!(rt; matches!(read_line(rt.alloc(), line), Ok(Line::Skip)));
    }
    assert!(rt; matches!(read_line(rt.alloc(), b" \t\r"), Ok(Line::Empty)));
}

#[test]
fn what_is_no_line_is_refused(rt: HostRuntime) {
    let rows: [&[u8]; 8] = [
        b"hello",
        b"(1.000000) can0 800#",
        b"(1.000000) can0 123#R9",
        b"(1.000000) can0 123#1",
        b"(1.000000) can0 123#.11",
        b"(1.00000) can0 123#",
        b"(1.000000)can0 123#",
        b"(1.000000) can0 123# r",
    ];
    for line in rows {
        assert!(rt; matches!(read_line(rt.alloc(), line), Err(LineRefusal::NotALine)));
        assert!(rt; view_line(line).is_none());
    }
}

#[test]
fn lines_of_some_frames_are_written(rt: HostRuntime) -> Result<(), Fail> {
    let rows = [
        (
            0,
            100,
            Ident::Std(0),
            false,
            0,
            "(0000000000.000100) can0 000#\n",
        ),
        (
            0,
            248,
            Ident::Ext(0),
            false,
            0,
            "(0000000000.000248) can0 00000000#\n",
        ),
        (
            0,
            0,
            Ident::Std(0x7FF),
            true,
            8,
            "(0000000000.000000) can0 7FF#R8\n",
        ),
        (
            0,
            0,
            Ident::Std(0),
            true,
            0,
            "(0000000000.000000) can0 000#R\n",
        ),
        (
            0,
            0,
            Ident::Ext(0x1ABC_DEF0),
            false,
            1,
            "(0000000000.000000) can0 1ABCDEF0#00\n",
        ),
        (
            18_446_744_073_709,
            551_615,
            Ident::Std(0),
            false,
            0,
            "(18446744073709.551615) can0 000#\n",
        ),
    ];
    for (seconds, micros, ident, remote, dlc, text) in rows {
        let frame = Frame::make(ident, remote, dlc, [0; 8], 1).ok_or("a frame")?;
        let line = write_line(rt.alloc(), seconds, micros, b"can0", &frame)?;
        assert_eq!(rt; line.bytes(), text.as_bytes());
    }
    Ok(())
}

#[test]
fn lines_stand_behind_one_another(rt: HostRuntime) -> Result<(), Fail> {
    let frame = Frame::make(Ident::Std(0x12), false, 2, [0xAB; 8], 1).ok_or("a frame")?;
    let mut lines = Vec::new(rt.alloc());
    append_line(&mut lines, 1, 2, b"can0", &frame)?;
    append_line(&mut lines, 3, 4, b"x", &frame)?;
    let text = "(0000000001.000002) can0 012#ABAB\n(0000000003.000004) x 012#ABAB\n";
    assert_eq!(rt; lines.as_slice(), text.as_bytes());
    Ok(())
}

#[test]
fn laws_can_be_called() {
    laws::one_reading();
    laws::read_frames_are_loggable();
    laws::written_lines_read();
}
