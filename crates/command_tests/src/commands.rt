// Whole runs over files and a sink in memory.

use crate::files::add_file;
use sim_outside::{MemFiles, MemSink};
use sim_play::Out;
use sim_run::{Status, laws, simulate};
use stack_vm::Meter;
use std::alloc::Global;
use std::process::Abort;
use std::test::Fail;
use texts::Text;

/// A run, and what it must end with, write and count.
#[derive(Clone, Copy)]
struct Run {
    /// The words of the command line.
    words: &'static [&'static str],
    /// The scenario, where its file is there.
    scenario: Option<&'static str>,
    /// The other files.
    files: &'static [(&'static str, &'static str)],
    failing_reads: &'static [u64],
    failing_writes: &'static [(u64, usize)],
    status: Status,
    written: &'static str,
    /// The runs and turns of each event procedure, node by node and in program order.
    rows: &'static [(u64, u64)],
}

/// A run of the node N with an empty source.
const EMPTY: Run = Run {
    words: &["window", "s.scn"],
    scenario: Some("scenario 1\nnode N n.can\n"),
    files: &[("n.can", "")],
    failing_reads: &[],
    failing_writes: &[],
    status: Status::Done,
    written: "",
    rows: &[],
};

/// A run in which the node N writes one line.
const HELLO: Run = Run {
    files: &[("n.can", "on start { write(\"hello\"); }")],
    written: "w 0.000000 N hello\n",
    rows: &[(1, 0)],
    ..EMPTY
};

/// A run in which the node N asks for two frames, of which the one that it asks for second goes first.
const FRAMES: Run = Run {
    words: &["log", "s.scn"],
    files: &[(
        "n.can",
        "variables { message 0x1 a = {dlc=0}; message 0x0 b = {dlc=0}; } on start { output(a); output(b); }",
    )],
    written: "(0000000000.000100) can0 000#\n(0000000000.000200) can0 001#\n",
    rows: &[(1, 0)],
    ..EMPTY
};

/// A run in which two tasks of the node N each write a line.
const LINES: Run = Run {
    scenario: Some("scenario 1\nnode N n.can\nkey 1 k\nkey 2 k\n"),
    files: &[(
        "n.can",
        "on start { write(\"a\"); } on key 'k' { write(\"b\"); }",
    )],
    written: "w 0.000000 N a\nw 0.001000 N b\nw 0.002000 N b\n",
    rows: &[(1, 0), (2, 0)],
    ..EMPTY
};

/// The profile of these two tasks.
const PROFILE: Run = Run {
    words: &["profile", "s.scn"],
    written: "p N n.can:1 start 1 0\np N n.can:1 key 2 0\n",
    ..LINES
};

/// A check of what is accepted.
const CHECKED: Run = Run {
    words: &["check", "s.scn"],
    written: "ok\n",
    rows: &[],
    ..HELLO
};

/// A generated scenario: its timer is due 50 times, and the frame of the last is still on the wire.
const GENERATED: Run = Run {
    words: &["gen", "1"],
    scenario: None,
    files: &[],
    written: "gen 1 frames 49 lines 1 turns 50000\n",
    rows: &[(1, 0), (50, 50000), (49, 0), (1, 0)],
    ..EMPTY
};

static RUNS: [Run; 26] = [
    EMPTY,
    HELLO,
    CHECKED,
    // The turns of the procedures stand in the meter's rows, in program order.
    Run {
        words: &["profile", "s.scn"],
        scenario: Some("scenario 1\nnode N n.can\nkey 1 a\nkey 2 a\n"),
        files: &[(
            "n.can",
            "on start { int i; while (i < 3) i++; }\non key 'a' { stop(); }\n\non preStart { write(\"x\"); }",
        )],
        written: "p N n.can:1 start 1 3\np N n.can:2 key 1 0\np N n.can:4 preStart 1 0\n",
        rows: &[(1, 3), (1, 0), (1, 0)],
        ..EMPTY
    },
    // A procedure of a file that is included stands before those of the file that includes it.
    Run {
        words: &["profile", "d/s.scn"],
        scenario: None,
        files: &[
            ("d/s.scn", "scenario 1\nnode N n.can\n"),
            (
                "d/n.can",
                "includes { #include \"u.cin\" }\non start { }\non message * { }",
            ),
            (
                "d/u.cin",
                "variables { msTimer t; }\non timer t { }\n\non stopMeasurement { }",
            ),
        ],
        written: "p N d/u.cin:2 timer 0 0\np N d/u.cin:4 stopMeasurement 1 0\n\
            p N d/n.can:2 start 1 0\np N d/n.can:3 message 0 0\n",
        rows: &[(0, 0), (1, 0), (1, 0), (0, 0)],
        ..EMPTY
    },
    FRAMES,
    Run {
        scenario: Some("scenario 1\nnode N n.can\nuntil 0\n"),
        written: "",
        ..FRAMES
    },
    Run {
        scenario: Some("scenario 1\nnode N n.can\nepoch 7\ninterface x\n"),
        written: "(0000000007.000100) x 000#\n(0000000007.000200) x 001#\n",
        ..FRAMES
    },
    Run {
        words: &["window", "s.scn"],
        written: "",
        ..FRAMES
    },
    Run {
        words: &["run", "s.scn"],
        ..FRAMES
    },
    // Of a command that shows a run each line is written before a later task happens, and the task of a line
    // that is not taken is not counted.
    LINES,
    Run {
        failing_writes: &[(2, 3)],
        status: Status::WriteFault,
        written: "w 0.000000 N a\nw 0",
        rows: &[(1, 0), (0, 0)],
        ..LINES
    },
    Run {
        words: &["run", "s.scn"],
        failing_writes: &[(3, 0)],
        status: Status::WriteFault,
        written: "w 0.000000 N a\nw 0.001000 N b\n",
        rows: &[(1, 0), (1, 0)],
        ..LINES
    },
    Run {
        words: &["profile", "s.scn"],
        failing_writes: &[(2, 4)],
        status: Status::WriteFault,
        written: "p N n.can:1 start 1 0\np N ",
        ..LINES
    },
    Run {
        failing_writes: &[(2, 0)],
        status: Status::WriteFault,
        written: "(0000000000.000100) can0 000#\n",
        ..FRAMES
    },
    Run {
        words: &["check", "s.scn"],
        failing_writes: &[(1, 2)],
        status: Status::WriteFault,
        written: "ok",
        ..EMPTY
    },
    Run {
        files: &[("n.can", "on start {")],
        status: Status::Refused,
        written: "refused n.can:1:11 E02\n",
        ..EMPTY
    },
    Run {
        words: &["check", "s.scn"],
        files: &[("n.can", "on start {\n  x = 1; }")],
        status: Status::Refused,
        written: "refused n.can:2:3 E09\n",
        ..EMPTY
    },
    Run {
        scenario: None,
        status: Status::Refused,
        written: "refused s.scn F01\n",
        ..EMPTY
    },
    // A log that is replayed is looked at behind the sources.
    Run {
        scenario: Some("scenario 1\nnode N n.can\nreplay r\n"),
        status: Status::Refused,
        written: "refused r F01\n",
        ..EMPTY
    },
    Run {
        scenario: Some("scenario 1\nnode N n.can\nreplay r\n"),
        files: &[("n.can", ""), ("r", "\nhello\n")],
        status: Status::Refused,
        written: "refused r:2 L01\n",
        ..EMPTY
    },
    // It gives its own bytes again where nobody else sends.
    Run {
        words: &["log", "s.scn"],
        scenario: Some("scenario 1\nnode N n.can\nreplay r\n"),
        files: &[
            ("n.can", ""),
            (
                "r",
                "(0000000000.000100) can0 000#\n(0000000000.000200) can0 001#\n",
            ),
        ],
        written: "(0000000000.000100) can0 000#\n(0000000000.000200) can0 001#\n",
        ..EMPTY
    },
    // Its frames are received, and the window begins with what was passed over.
    Run {
        scenario: Some("scenario 1\nnode N n.can\nepoch first\nuntil 2000\nreplay r\n"),
        files: &[
            (
                "n.can",
                "on message * { write(\"%x %d\", this.id, this.dir == RX); }",
            ),
            (
                "r",
                "(7.000500) can1 001#\n(7.000600) can0 123#0102\n(7.000900) can0 123##1112233\n",
            ),
        ],
        written: "w 0.000000 replay skipped 2\nw 1.000600 N 123 1\n",
        rows: &[(1, 0)],
        ..EMPTY
    },
    GENERATED,
    Run {
        files: &[],
        status: Status::Refused,
        written: "refused n.can E07\n",
        ..EMPTY
    },
    Run {
        failing_reads: &[2],
        status: Status::ReadFault,
        ..EMPTY
    },
];

/// A run of the nodes M and N with one source, where both write.
const TWICE: Run = Run {
    scenario: Some("scenario 1\nnode M n.can\nnode N n.can\n"),
    written: "w 0.000000 M hello\nw 0.000000 N hello\n",
    rows: &[(1, 0), (1, 0)],
    ..HELLO
};

/// A run in which each of two nodes writes, asks for a frame and writes of it, and picks put the second
/// first.
const PAIR: Run = Run {
    scenario: Some("scenario 1\nnode M m.can\nnode N n.can\npicks 1 0 0 0 1\nuntil 1\n"),
    files: &[
        (
            "m.can",
            "variables { message 0x1 m = {dlc=0}; } on start { write(\"a\"); output(m); }\n\
             on message * { write(\"a %d\", this.dir); }",
        ),
        (
            "n.can",
            "variables { message 0x0 m = {dlc=0}; } on start { write(\"b\"); output(m); }\n\
             on message * { int i; i = 0; while (i < 2) i++; write(\"b %d\", this.dir); }",
        ),
    ],
    written: "w 0.000000 N b\nw 0.000000 M a\n\
        w 0.000100 M a 0\nw 0.000100 N b 1\n\
        w 0.000200 N b 0\nw 0.000200 M a 1\n",
    rows: &[(1, 0), (2, 0), (1, 0), (2, 4)],
    ..EMPTY
};

/// All that is shown of it.
const BOTH: Run = Run {
    words: &["run", "s.scn"],
    written: "w 0.000000 N b\nw 0.000000 M a\n\
        (0000000000.000100) can0 000#\nw 0.000100 M a 0\nw 0.000100 N b 1\n\
        (0000000000.000200) can0 001#\nw 0.000200 N b 0\nw 0.000200 M a 1\n",
    ..PAIR
};

static PAIRS: [Run; 9] = [
    TWICE,
    Run {
        scenario: Some("scenario 1\nnode M n.can\nnode N n.can\npicks 1\n"),
        written: "w 0.000000 N hello\nw 0.000000 M hello\n",
        ..TWICE
    },
    PAIR,
    Run {
        words: &["check", "s.scn"],
        written: "ok\n",
        rows: &[],
        ..PAIR
    },
    Run {
        words: &["log", "s.scn"],
        written: "(0000000000.000100) can0 000#\n(0000000000.000200) can0 001#\n",
        ..PAIR
    },
    BOTH,
    Run {
        words: &["profile", "s.scn"],
        written: "p M m.can:1 start 1 0\np M m.can:2 message 2 0\n\
            p N n.can:1 start 1 0\np N n.can:2 message 2 4\n",
        ..PAIR
    },
    Run {
        words: &["run", "s.scn"],
        failing_writes: &[(2, 0)],
        status: Status::WriteFault,
        written: "w 0.000000 N b\n",
        rows: &[(0, 0), (0, 0), (1, 0), (0, 0)],
        ..PAIR
    },
    Run {
        files: &[("m.can", ""), ("n.can", "\non start { x = 1; }")],
        status: Status::Refused,
        written: "refused n.can:2:12 E09\n",
        rows: &[],
        ..PAIR
    },
];

static USAGES: [Run; 6] = [
    Run {
        words: &[],
        status: Status::Usage,
        ..EMPTY
    },
    Run {
        words: &["window"],
        status: Status::Usage,
        ..EMPTY
    },
    Run {
        words: &["Window", "s.scn"],
        status: Status::Usage,
        ..EMPTY
    },
    Run {
        words: &["gen", "01"],
        status: Status::Usage,
        ..EMPTY
    },
    Run {
        words: &["gen", "65"],
        status: Status::Usage,
        ..EMPTY
    },
    Run {
        words: &["check", "s.scn", "s.scn"],
        status: Status::Usage,
        ..EMPTY
    },
];

/// A run of each command.
static FAULTY: [Run; 6] = [LINES, FRAMES, BOTH, PROFILE, CHECKED, GENERATED];

/// The files of a run.
fn held_by(alloc: Global, run: &Run) -> Result<Vec<(Text, Vec<u8>)>, Fail> {
    let mut held = Vec::new(alloc);
    if let Some(text) = run.scenario {
        add_file(alloc, &mut held, b"s.scn", text.as_bytes())?;
    }
    for (name, text) in run.files {
        add_file(alloc, &mut held, name.as_bytes(), text.as_bytes())?;
    }
    Ok(held)
}

/// The files of a run, of which these reads fail.
fn files(alloc: Global, run: &Run, failing_reads: &[u64]) -> Result<MemFiles, Fail> {
    let failing = failing_reads.to_vec(alloc)?;
    let held = held_by(alloc, run)?;
    Ok(MemFiles::new(held, failing))
}

/// The words of a run.
fn words(alloc: Global, words: &[&str]) -> Result<Vec<String>, Fail> {
    let mut held = Vec::new(alloc);
    for word in words {
        held.push(String::from_str(alloc, word)?)?;
    }
    Ok(held)
}

/// A meter has these rows of runs and turns, and no other.
fn check_rows(rt: &impl Abort, meter: &Meter, wanted: &[(u64, u64)]) {
    assert_eq!(rt; meter.rows(), wanted.len(), "{wanted:?}");
    for (place, (runs, turns)) in wanted.iter().enumerate() {
        let row = meter.row(place);
        assert!(rt;
            row.is_some_and(|row| row.runs == *runs && row.turns == *turns),
            "{row:?} in place {place} of {wanted:?}"
        );
    }
}

/// What a run leaves.
#[derive(Drop)]
struct End {
    status: Status,
    out: Out<MemSink>,
    meter: Meter,
}

/// What a run leaves where these reads fail, and these writes after so many bytes of their piece.
fn end_of(
    alloc: Global,
    run: &Run,
    failing_reads: &[u64],
    failing_writes: &[(u64, usize)],
) -> Result<End, Fail> {
    let words = words(alloc, run.words)?;
    let failing = failing_writes.to_vec(alloc)?;
    let mut files = files(alloc, run, failing_reads)?;
    let mut out = Out::new(MemSink::new(alloc, failing));
    let mut meter = Meter::new(alloc);
    let status = simulate(alloc, &words, &mut files, &mut out, &mut meter);
    Ok(End { status, out, meter })
}

/// A run ends, writes and counts as it must.
fn check_run(rt: &(impl AllocGlobal + Abort), run: &Run) -> Result<(), Fail> {
    let end = end_of(rt.alloc(), run, run.failing_reads, run.failing_writes)?;
    assert_eq!(rt;
        end.out.sink().written(),
        run.written.as_bytes(),
        "{}",
        run.written
    );
    assert_eq!(rt; end.status, run.status);
    check_rows(rt, &end.meter, run.rows);
    Ok(())
}

/// A run in which these reads and writes fail ends with this status and has written these bytes.
fn check_end(
    rt: &(impl AllocGlobal + Abort),
    run: &Run,
    failing_reads: &[u64],
    failing_writes: &[(u64, usize)],
    status: Status,
    written: &[u8],
) -> Result<(), Fail> {
    let end = end_of(rt.alloc(), run, failing_reads, failing_writes)?;
    assert_eq!(rt;
        end.out.sink().written(),
        written,
        "{failing_reads:?} {failing_writes:?}"
    );
    assert_eq!(rt; end.status, status);
    Ok(())
}

/// How many files a run reads: none where it has no scenario.
fn reads_of(run: &Run) -> u64 {
    if run.scenario.is_none() {
        return 0;
    }
    u64::saturating_add(run.files.len() as u64, 1)
}

/// Each read of a run fails in turn, and nothing is written. A further one is never asked for.
fn check_reads(rt: &(impl AllocGlobal + Abort), run: &Run) -> Result<(), Fail> {
    let reads = reads_of(run);
    for passed in 0..reads {
        check_end(
            rt,
            run,
            &[passed.saturating_add(1)],
            &[],
            Status::ReadFault,
            b"",
        )?;
    }
    let further = reads.saturating_add(1);
    check_end(rt, run, &[further], &[], run.status, run.written.as_bytes())
}

/// The write of the line of a number, which stands between these places of the answer, fails, and keeps none
/// of its bytes, the first or all but the last: what was written is the answer up to there.
fn check_write(
    rt: &(impl AllocGlobal + Abort),
    run: &Run,
    number: u64,
    start: usize,
    end: usize,
) -> Result<(), Fail> {
    let whole = run.written.as_bytes();
    for place in [start, start.saturating_add(1), end] {
        let fault = (number, place.saturating_sub(start));
        let front = &whole[..place.min(whole.len())];
        check_end(rt, run, &[], &[fault], Status::WriteFault, front)?;
    }
    Ok(())
}

/// The write of each line of a run fails in turn.
fn check_writes(rt: &(impl AllocGlobal + Abort), run: &Run) -> Result<(), Fail> {
    let mut number = 0;
    let mut start: usize = 0;
    for (end, byte) in run.written.as_bytes().iter().enumerate() {
        if *byte == b'\n' {
            number = u64::saturating_add(number, 1);
            check_write(rt, run, number, start, end)?;
            start = end.saturating_add(1);
        }
    }
    Ok(())
}

#[test]
fn runs_end_and_write_as_they_must(rt: HostRuntime) -> Result<(), Fail> {
    for run in RUNS.iter().chain(&PAIRS).chain(&USAGES) {
        check_run(&rt, run)?;
    }
    Ok(())
}

// Each command meets each fault of a read and of a write.
#[test]
fn each_fault_ends_a_run_with_the_answer_so_far(rt: HostRuntime) -> Result<(), Fail> {
    for run in FAULTY.iter() {
        check_reads(&rt, run)?;
        check_writes(&rt, run)?;
    }
    Ok(())
}

/// The files of a scenario whose source is so many spaces.
fn files_of_spaces(alloc: Global, count: usize) -> Result<MemFiles, Fail> {
    let spaces = vec![in alloc; b' '; count]?;
    let mut held = Vec::new(alloc);
    add_file(alloc, &mut held, b"s.scn", b"scenario 1\nnode N n.can\n")?;
    add_file(alloc, &mut held, b"n.can", &spaces)?;
    Ok(MemFiles::new(held, Vec::new(alloc)))
}

/// The status of a check of such a scenario.
fn status_of_spaces(alloc: Global, count: usize) -> Result<Status, Fail> {
    let words = words(alloc, &["check", "s.scn"])?;
    let mut files = files_of_spaces(alloc, count)?;
    let mut out = Out::new(MemSink::new(alloc, Vec::new(alloc)));
    let mut meter = Meter::new(alloc);
    Ok(simulate(alloc, &words, &mut files, &mut out, &mut meter))
}

// A source is taken up to 1 MiB.
#[test]
fn long_sources_are_refused(rt: HostRuntime) -> Result<(), Fail> {
    assert_eq!(rt; status_of_spaces(rt.alloc(), 1 << 20)?, Status::Done);
    assert_eq!(rt;
        status_of_spaces(rt.alloc(), (1 << 20) + 1)?,
        Status::Refused
    );
    Ok(())
}

#[test]
fn runs_have_laws() {
    laws::one_answer();
    laws::accepted_inputs_have_an_answer();
    laws::logs_are_recorded();
    laws::logs_are_reproduced();
    laws::numbers_are_numerals();
    laws::picks_change_order_alone();
}

#[test]
fn statuses_are_numbered_in_order(rt: HostRuntime) {
    let statuses = [
        Status::Done,
        Status::Refused,
        Status::Usage,
        Status::ReadFault,
        Status::WriteFault,
        Status::OutOfMemory,
    ];
    for (number, status) in statuses.iter().enumerate() {
        assert_eq!(rt; usize::from(status.number()), number);
    }
}
