// Runs to their ends.

use crate::checks::{check_entries, check_rows};
use crate::pairs::{PAIRS, Run};
use can_bus::Bus;
use run_bench::{Entry, Start, heap_start, plain_start};
use run_records::MemRecord;
use stack_vm::Meter;
use std::alloc::Global;
use std::process::Abort;
use std::test::Fail;

/// What a run leaves, and how often its procedures ran.
pub(crate) fn ran<B: Bus + Drop>(
    alloc: Global,
    start: Start<B>,
) -> Result<(MemRecord, Meter), Fail> {
    let Start {
        mut core,
        mut meter,
    } = start;
    let mut into = MemRecord::new(alloc);
    core.run_until(&mut into, &mut meter)?;
    Ok((into, meter))
}

const RUNS: [Run; 5] = [
    // Of two requests the one with the lower identifier goes first; the node sees its own frames.
    Run {
        items: "",
        sources: &[
            "variables { message 0x1 a = {dlc = 0}; message 0x0 b = {dlc = 0}; } \
             on start { output(a); output(b); write(\"go\"); } on message 0x1 { write(\"%d\", this.dir); }",
        ],
        entries: &[
            Entry::Line(0, "go"),
            Entry::Frame(100, 0, 0),
            Entry::Frame(200, 1, 0),
            Entry::Line(200, "1"),
        ],
        rows: &[(1, 0), (1, 0)],
    },
    // Without a frame or a key the moments are those of the timers.
    Run {
        items: "",
        sources: &[
            "variables { msTimer t; msTimer c; int n; } on start { setTimer(t, 5); setTimerCyclic(c, 2); } \
             on timer c { n++; } on timer t { write(\"%d\", n); stop(); } \
             on stopMeasurement { write(\"end\"); }",
        ],
        entries: &[Entry::Line(5000, "2"), Entry::Line(5000, "end")],
        rows: &[(1, 0), (2, 0), (1, 0), (1, 0)],
    },
    // A key at the end moment is pressed, and a later one is not.
    Run {
        items: "until 1\nkey 0 a\nkey 1 b\nkey 2 a",
        sources: &["on stopMeasurement { write(\"end\"); } on key * { write(\"%c\", this); }"],
        entries: &[
            Entry::Line(0, "a"),
            Entry::Line(1000, "b"),
            Entry::Line(1000, "end"),
        ],
        rows: &[(1, 0), (2, 0)],
    },
    // A frame that has not ended at the end moment is not there.
    Run {
        items: "until 0",
        sources: &[
            "variables { message 0x0 m; } on preStart { output(m); write(\"before\"); } \
             on message * { stop(); }",
        ],
        entries: &[Entry::Line(0, "before")],
        rows: &[(1, 0), (0, 0)],
    },
    Run {
        items: "",
        sources: &[""],
        entries: &[],
        rows: &[],
    },
];

/// A run leaves what it must.
fn check_run<B: Bus + Drop>(
    rt: &(impl AllocGlobal + Abort),
    start: Start<B>,
    run: &Run,
) -> Result<(), Fail> {
    let (into, meter) = ran(rt.alloc(), start)?;
    check_entries(rt, into.noted(), run.entries);
    check_rows(rt, &meter, run.rows);
    Ok(())
}

// On either bus each run leaves the same entries and rows.
#[test]
fn runs_leave_what_they_must(rt: HostRuntime) -> Result<(), Fail> {
    let alloc = rt.alloc();
    for run in RUNS.iter().chain(&PAIRS) {
        check_run(&rt, plain_start(alloc, run.items, run.sources)?, run)?;
        check_run(&rt, heap_start(alloc, run.items, run.sources)?, run)?;
    }
    Ok(())
}

/// A source, cut where a procedure ends: before the start, at it, for a frame, for a timer, for a key, and
/// at the end.
const PIECES: [&str; 6] = [
    "variables { msTimer t; message 0x0 m = {dlc = 0}; int zero; } on preStart { write(\"before\"); ",
    "} on start { write(\"start\"); setTimer(t, 1); output(m); ",
    "} on message * { write(\"frame\"); ",
    "} on timer t { write(\"timer\"); ",
    "} on key 'k' { write(\"key\"); ",
    "} on stopMeasurement { write(\"end\"); ",
];

/// The entries of that source as it stands.
const USUAL: [Entry; 7] = [
    Entry::Line(0, "before"),
    Entry::Line(0, "start"),
    Entry::Frame(100, 0, 0),
    Entry::Line(100, "frame"),
    Entry::Line(1000, "timer"),
    Entry::Line(2000, "key"),
    Entry::Line(3000, "end"),
];

/// The source, with a statement at the end of the procedure of this number.
fn source_with(alloc: Global, place: usize, statement: &str) -> Result<String, Fail> {
    let mut source = String::new(alloc);
    for (number, piece) in PIECES.iter().enumerate() {
        source.push_str(piece)?;
        if number == place {
            source.push_str(statement)?;
        }
    }
    source.push_str("}")?;
    Ok(source)
}

/// The number of a procedure, the statement at its end, how many of the usual entries come, and what comes
/// behind them.
type End = (usize, &'static str, usize, &'static [Entry]);

const TRAP: &str = "zero = 1 / zero; write(\"never\"); ";

const CUT: &str = "while (1) ; ";

const STOP: &str = "stop(); ";

// A trap or a cut halts the node at once, and no procedure runs any more: what it had requested is sent all
// the same. A wish to stop waits for the end of the instant, and is none at the end.
const ENDS: [End; 18] = [
    (0, TRAP, 1, &[Entry::Line(0, "trap zero divisor")]),
    (
        1,
        TRAP,
        2,
        &[Entry::Line(0, "trap zero divisor"), Entry::Frame(100, 0, 0)],
    ),
    (2, TRAP, 4, &[Entry::Line(100, "trap zero divisor")]),
    (3, TRAP, 5, &[Entry::Line(1000, "trap zero divisor")]),
    (4, TRAP, 6, &[Entry::Line(2000, "trap zero divisor")]),
    (5, TRAP, 7, &[Entry::Line(3000, "trap zero divisor")]),
    (0, CUT, 1, &[Entry::Line(0, "turn limit")]),
    (
        1,
        CUT,
        2,
        &[Entry::Line(0, "turn limit"), Entry::Frame(100, 0, 0)],
    ),
    (2, CUT, 4, &[Entry::Line(100, "turn limit")]),
    (3, CUT, 5, &[Entry::Line(1000, "turn limit")]),
    (4, CUT, 6, &[Entry::Line(2000, "turn limit")]),
    (5, CUT, 7, &[Entry::Line(3000, "turn limit")]),
    (0, STOP, 2, &[Entry::Line(0, "end")]),
    (1, STOP, 2, &[Entry::Line(0, "end")]),
    (2, STOP, 4, &[Entry::Line(100, "end")]),
    (3, STOP, 5, &[Entry::Line(1000, "end")]),
    (4, STOP, 6, &[Entry::Line(2000, "end")]),
    (5, STOP, 7, &[]),
];

#[test]
fn each_procedure_can_end_a_run(rt: HostRuntime) -> Result<(), Fail> {
    let alloc = rt.alloc();
    for (place, statement, usual, then) in ENDS {
        let source = source_with(alloc, place, statement)?;
        let (into, _) = ran(
            alloc,
            plain_start(alloc, "until 3\nkey 2 k\nturns 3", &[&source])?,
        )?;
        let mut wanted = Vec::new(alloc);
        for entry in USUAL.iter().take(usual).chain(then) {
            wanted.push(*entry)?;
        }
        check_entries(&rt, into.noted(), &wanted);
    }
    Ok(())
}
