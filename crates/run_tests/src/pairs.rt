// What a run is and must leave, and such runs of two nodes.

use run_bench::Entry;

/// A run, and what it must leave.
#[derive(Clone, Copy)]
pub struct Run {
    /// The further items of its scenario.
    pub items: &'static str,
    /// The sources of its nodes.
    pub sources: &'static [&'static str],
    /// Its entries.
    pub entries: &'static [Entry],
    /// The runs and turns of each procedure, node by node.
    pub rows: &'static [(u64, u64)],
}

/// Runs of two nodes.
pub const PAIRS: [Run; 6] = [
    // One pick takes the second node first; then one node is left, and the pick that is missing takes it.
    Run {
        items: "picks 1",
        sources: &["on start { write(\"a\"); }", "on start { write(\"b\"); }"],
        entries: &[Entry::Second(0, "b"), Entry::Line(0, "a")],
        rows: &[(1, 0), (1, 0)],
    },
    // Each task takes one pick, also where one node is left, and what is left of them is for the next round:
    // 5 is the second of two nodes, 1 the first of one, and 3 the second of two. Then none is left.
    Run {
        items: "picks 5 1\npicks 3",
        sources: &[
            "on preStart { write(\"a\"); } on start { write(\"c\"); }",
            "on preStart { write(\"b\"); } on start { write(\"d\"); }",
        ],
        entries: &[
            Entry::Second(0, "b"),
            Entry::Line(0, "a"),
            Entry::Second(0, "d"),
            Entry::Line(0, "c"),
        ],
        rows: &[(1, 0), (1, 0), (1, 0), (1, 0)],
    },
    // Of equal frames that of the node named first goes first, though it asked second. Who sent a frame sees
    // it as sent (1), and the other as received (0).
    Run {
        items: "picks 1",
        sources: &[
            "variables { message 0x0 m = {dlc = 0}; } on start { write(\"a\"); output(m); } \
             on message 0x0 { write(\"%d\", this.dir); }",
            "variables { message 0x0 m = {dlc = 0}; } on start { write(\"b\"); output(m); } \
             on message 0x0 { write(\"%d\", this.dir); }",
        ],
        entries: &[
            Entry::Second(0, "b"),
            Entry::Line(0, "a"),
            Entry::Frame(100, 0, 0),
            Entry::Line(100, "1"),
            Entry::Second(100, "0"),
            Entry::Frame(206, 0, 0),
            Entry::Line(206, "0"),
            Entry::Second(206, "1"),
        ],
        rows: &[(1, 0), (2, 0), (1, 0), (2, 0)],
    },
    // A wish to stop lets the tasks of the instant happen, and no later instant comes. The end of the
    // measurement is at the present moment.
    Run {
        items: "key 1 k\nkey 2 l",
        sources: &[
            "on key 'k' { stop(); } on stopMeasurement { write(\"end\"); }",
            "on key 'k' { write(\"k\"); } on key 'l' { write(\"l\"); } \
             on stopMeasurement { write(\"end\"); }",
        ],
        entries: &[
            Entry::Second(1000, "k"),
            Entry::Line(1000, "end"),
            Entry::Second(1000, "end"),
        ],
        rows: &[(1, 0), (1, 0), (1, 0), (0, 0), (1, 0)],
    },
    // Each task of each node has its own turns: that of the first is cut, which halts this node alone.
    Run {
        items: "key 1 k\nturns 3\nuntil 2",
        sources: &[
            "on start { while (1) ; } on key 'k' { write(\"never\"); }",
            "variables { int n; } on start { while (n < 3) n++; write(\"b\"); } \
             on key 'k' { while (n < 6) n++; write(\"k\"); }",
        ],
        entries: &[
            Entry::Line(0, "turn limit"),
            Entry::Second(0, "b"),
            Entry::Second(1000, "k"),
        ],
        rows: &[(1, 3), (0, 0), (1, 3), (1, 3)],
    },
    // What is due at one moment is done in one round, in the order of the picks. A due timer without a
    // procedure is a task too, which takes a pick.
    Run {
        items: "picks 0 0 0 1 0",
        sources: &[
            "variables { msTimer t; msTimer none; } on start { setTimer(none, 1); setTimer(t, 1); } \
             on timer t { write(\"a\"); }",
            "variables { msTimer t; msTimer u; } on start { setTimer(t, 1); setTimer(u, 1); } \
             on timer t { write(\"t\"); stop(); } on timer u { write(\"u\"); }",
        ],
        entries: &[
            Entry::Second(1000, "t"),
            Entry::Line(1000, "a"),
            Entry::Second(1000, "u"),
        ],
        rows: &[(1, 0), (1, 0), (1, 0), (1, 0), (1, 0)],
    },
];
