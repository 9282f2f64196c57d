// The lines that are printed.

use items::Items;
use run_effects::{Event, Selector};
use sim_text::{append_window_line, blame_line, profile_line, summary_line, window_line};
use stack_vm::MeterRow;
use std::test::Fail;
use texts::{Blame, Rule, Text};

#[test]
fn lines_of_some_texts(rt: HostRuntime) -> Result<(), Fail> {
    let rows: [(u64, &[u8], &[u8]); 5] = [
        (0, b"hi", b"w 0.000000 N hi\n"),
        (0, b"", b"w 0.000000 N \n"),
        (1_000_001, b"a\nb\r", b"w 1.000001 N a\\nb\\r\n"),
        (
            86_400_000_000,
            b"\\ \x00\xFF",
            b"w 86400.000000 N \\ \x00\xFF\n",
        ),
        (u64::MAX, b"x", b"w 18446744073709.551615 N x\n"),
    ];
    for (now, text, line) in rows {
        assert_eq!(rt; window_line(rt.alloc(), now, b"N", text)?.bytes(), line);
    }
    Ok(())
}

#[test]
fn lines_stand_behind_one_another(rt: HostRuntime) -> Result<(), Fail> {
    let mut lines = Vec::new(rt.alloc());
    append_window_line(&mut lines, 0, b"N", b"hi")?;
    append_window_line(&mut lines, 1, b"M", b"a\n")?;
    assert_eq!(rt;
        lines.as_slice(),
        b"w 0.000000 N hi\nw 0.000001 M a\\n\n".as_slice()
    );
    Ok(())
}

#[test]
fn lines_of_the_events(rt: HostRuntime) -> Result<(), Fail> {
    let row = MeterRow {
        runs: 3,
        turns: 18_446_744_073_709_551_615,
    };
    let selectors: Items<Selector> = Items::new(rt.alloc());
    let rows = [
        (Event::PreStart, "preStart"),
        (Event::Start, "start"),
        (Event::Stop, "stopMeasurement"),
        (Event::Message(selectors), "message"),
        (Event::Timer(7), "timer"),
        (Event::Key(Some(b'a')), "key"),
    ];
    for (event, word) in &rows {
        let line = profile_line(rt.alloc(), b"N", b"d/n.can", 12, event, row)?;
        let wanted = format!(in rt.alloc(); "p N d/n.can:12 {word} 3 18446744073709551615\n")?;
        assert_eq!(rt; line.bytes(), wanted.as_bytes());
    }
    Ok(())
}

#[test]
fn lines_of_some_blames(rt: HostRuntime) -> Result<(), Fail> {
    let rows = [
        ("d/n.can", None, None, b'L', 1, "refused d/n.can L01\n"),
        ("d/n.can", Some(3), None, b'E', 7, "refused d/n.can:3 E07\n"),
        (
            "d/n.can",
            Some(12),
            Some(40),
            b'E',
            28,
            "refused d/n.can:12:40 E28\n",
        ),
        (
            "d\n/n\r.can",
            None,
            None,
            b'F',
            1,
            "refused d\\n/n\\r.can F01\n",
        ),
    ];
    for (file, line, column, group, number, text) in rows {
        let blame = Blame {
            file: Text::make(rt.alloc(), file.as_bytes())?,
            line,
            column,
            rule: Rule { group, number },
        };
        assert_eq!(rt; blame_line(rt.alloc(), &blame)?.bytes(), text.as_bytes());
    }
    Ok(())
}

#[test]
fn line_of_a_run(rt: HostRuntime) -> Result<(), Fail> {
    let line = summary_line(rt.alloc(), 64, 0, 20, 18_446_744_073_709_551_615)?;
    let wanted = "gen 64 frames 0 lines 20 turns 18446744073709551615\n";
    assert_eq!(rt; line.bytes(), wanted.as_bytes());
    Ok(())
}
