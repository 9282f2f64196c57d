// Runs that are shown as they happen.

use crate::shown::played;
use run_bench::{has_rows, plain_start};
use sim_play::Show;
use stack_vm::Meter;
use std::process::Abort;
use std::test::Fail;

/// A meter has these rows of runs and turns, and no other.
fn check_rows(rt: &impl Abort, meter: &Meter, wanted: &[(u64, u64)]) {
    assert!(rt; has_rows(meter, wanted), "{meter:?} for {wanted:?}");
}

/// What is shown of the run, how many lines of the replay were passed over, the calls that fail, whether all
/// was written, what was written, and the runs and turns of each procedure.
type Case = (
    Show,
    u64,
    &'static [(u64, usize)],
    bool,
    &'static str,
    &'static [(u64, u64)],
);

const SOURCES: [&str; 2] = [
    "variables { message 0x1 a = {dlc = 0}; message 0x0 b = {dlc = 0}; } \
     on start { write(\"go\"); output(a); output(b); } on key 'k' { write(\"key\"); stop(); }",
    "on start { write(\"b\"); }\n\non message 0x0 { int i; while (i < 2) i++; write(\"m\"); }",
];

const WHOLE: &[(u64, u64)] = &[(1, 0), (1, 0), (1, 0), (1, 2)];

const WINDOW: &str = "w 0.000000 A go\nw 0.000000 B b\nw 0.000100 B m\nw 0.001000 A key\n";

// A line that is refused ends the run: its task is not counted, and no later one happens.
const CASES: [Case; 13] = [
    (Show::Window, 0, &[], true, WINDOW, WHOLE),
    (
        Show::Window,
        2,
        &[],
        true,
        "w 0.000000 replay skipped 2\n\
         w 0.000000 A go\nw 0.000000 B b\nw 0.000100 B m\nw 0.001000 A key\n",
        WHOLE,
    ),
    (
        Show::Log,
        2,
        &[],
        true,
        "(0000000007.000100) vcan1 000#\n(0000000007.000200) vcan1 001#\n",
        WHOLE,
    ),
    (
        Show::Both,
        0,
        &[],
        true,
        "w 0.000000 A go\nw 0.000000 B b\n(0000000007.000100) vcan1 000#\nw 0.000100 B m\n\
         (0000000007.000200) vcan1 001#\nw 0.001000 A key\n",
        WHOLE,
    ),
    (
        Show::Profile,
        2,
        &[],
        true,
        "p A A.can:1 start 1 0\np A A.can:1 key 1 0\np B B.can:1 start 1 0\np B B.can:3 message 1 2\n",
        WHOLE,
    ),
    (
        Show::Window,
        0,
        &[(1, 0)],
        false,
        "",
        &[(0, 0), (0, 0), (0, 0), (0, 0)],
    ),
    (
        Show::Window,
        0,
        &[(2, 0)],
        false,
        "w 0.000000 A go\n",
        &[(1, 0), (0, 0), (0, 0), (0, 0)],
    ),
    (
        Show::Log,
        0,
        &[(2, 3)],
        false,
        "(0000000007.000100) vcan1 000#\n(00",
        &[(1, 0), (0, 0), (1, 0), (1, 2)],
    ),
    (
        Show::Profile,
        0,
        &[(2, 3)],
        false,
        "p A A.can:1 start 1 0\np A",
        WHOLE,
    ),
    (
        Show::Summary,
        0,
        &[],
        true,
        "gen 2 frames 2 lines 4 turns 2\n",
        WHOLE,
    ),
    (
        Show::Summary,
        2,
        &[],
        true,
        "gen 2 frames 2 lines 5 turns 2\n",
        WHOLE,
    ),
    (Show::Summary, 0, &[(1, 0)], false, "", WHOLE),
    (Show::Summary, 0, &[(1, 5)], false, "gen 2", WHOLE),
];

#[test]
fn texts_are_written_as_runs_happen(rt: HostRuntime) -> Result<(), Fail> {
    let alloc = rt.alloc();
    for (show, skipped, failing, whole, written, rows) in CASES {
        let start = plain_start(alloc, "key 1 k", &SOURCES)?;
        let shown = played(alloc, start, &["A", "B"], show, skipped, failing)?;
        assert_eq!(rt; shown.out.sink().written(), written.as_bytes());
        assert_eq!(rt; shown.is_whole, whole);
        check_rows(&rt, &shown.meter, rows);
    }
    Ok(())
}
