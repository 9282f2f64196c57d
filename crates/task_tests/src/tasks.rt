// The rounds of a node, task by task.

use can_bus::Bus;
use can_frame::{Frame, Ident};
use node_run::{Round, Seen};
use run_bench::{Bench, Entry, are_noted};
use std::process::Abort;
use std::test::Fail;

/// A round, and how the node stands when its tasks are done.
#[derive(Clone, Copy)]
struct Step {
    round: Round,
    now: u32,
    /// The identifier of the frame that the node sees, and whether it sent it.
    seen: Option<(u16, bool)>,
    keys: &'static str,
    /// Of each task, whether it asks to stop.
    stops: &'static [bool],
    /// When the next timer is due.
    due: Option<u64>,
    is_halted: bool,
    /// What the first variable of the source holds.
    variable: i128,
    /// The next moment of the bus.
    bus: Option<u64>,
}

/// A round before anything has happened.
const FIRST: Step = Step {
    round: Round::PreStart,
    now: 0,
    seen: None,
    keys: "",
    stops: &[],
    due: None,
    is_halted: false,
    variable: 0,
    bus: None,
};

/// A source, how many procedures it has, its rounds, and their entries.
type Life = (&'static str, usize, &'static [Step], &'static [Entry]);

const LIVES: [Life; 3] = [
    // A life without a trap. A key without a procedure is no task.
    (
        "variables { int n = 3; msTimer t; message 0x5 m = {dlc = 0}; } \
         on preStart { n++; setTimer(t, 1); write(\"before\"); } \
         on start { write(\"start\"); output(m); } \
         on message 0x5 { n = 10 + this.dir; write(\"frame\"); stop(); } \
         on timer t { n = 5; write(\"timer\"); } \
         on key 'k' { n = this; write(\"key\"); stop(); } \
         on stopMeasurement { n = isTimerActive(t); setTimer(t, 1); \
         output(m); stop(); write(\"end\"); }",
        6,
        &[
            Step {
                stops: &[false],
                due: Some(1000),
                variable: 4,
                ..FIRST
            },
            Step {
                round: Round::Start,
                keys: "xk",
                stops: &[false, true],
                due: Some(1000),
                variable: 107,
                bus: Some(0),
                ..FIRST
            },
            Step {
                round: Round::Moment,
                now: 500,
                seen: Some((5, true)),
                stops: &[true],
                due: Some(1000),
                variable: 11,
                bus: Some(0),
                ..FIRST
            },
            Step {
                round: Round::Moment,
                now: 1000,
                seen: Some((6, false)),
                keys: "x",
                stops: &[false],
                variable: 5,
                bus: Some(0),
                ..FIRST
            },
            Step {
                round: Round::Moment,
                now: 1500,
                seen: Some((5, false)),
                keys: "kk",
                stops: &[true, true, true],
                variable: 107,
                bus: Some(0),
                ..FIRST
            },
            Step {
                round: Round::Stop,
                now: 1500,
                stops: &[false],
                variable: 0,
                bus: Some(0),
                ..FIRST
            },
        ],
        &[
            Entry::Line(0, "before"),
            Entry::Line(0, "start"),
            Entry::Line(0, "key"),
            Entry::Line(500, "frame"),
            Entry::Line(1000, "timer"),
            Entry::Line(1500, "frame"),
            Entry::Line(1500, "key"),
            Entry::Line(1500, "key"),
            Entry::Line(1500, "end"),
        ],
    ),
    // A trap halts the node: the keys behind it are no tasks, and what the task did before stays.
    (
        "variables { byte n; msTimer t; message 0x5 m; } \
         on start { n = 2; setTimer(t, 1); output(m); stop(); n /= n - 2; n = 9; } \
         on key * { write(\"key\"); } on timer t { write(\"timer\"); } \
         on stopMeasurement { write(\"end\"); }",
        4,
        &[
            FIRST,
            Step {
                round: Round::Start,
                keys: "kk",
                stops: &[true],
                is_halted: true,
                variable: 2,
                bus: Some(0),
                ..FIRST
            },
            Step {
                round: Round::Moment,
                now: 1000,
                is_halted: true,
                variable: 2,
                bus: Some(0),
                ..FIRST
            },
            Step {
                round: Round::Stop,
                now: 2000,
                is_halted: true,
                variable: 2,
                bus: Some(0),
                ..FIRST
            },
        ],
        &[Entry::Line(0, "trap zero divisor")],
    ),
    // Each task has its own turns. The timer that was set first goes first, also where it has no procedure.
    (
        "variables { long n; msTimer t; msTimer u; msTimer none; } \
         on preStart { setTimer(none, 1); setTimer(u, 1); setTimer(t, 1); while (n < 4) n++; } \
         on timer t { while (n) n++; } on timer u { while (n < 8) n++; write(\"u\"); }",
        3,
        &[
            Step {
                stops: &[false],
                due: Some(1000),
                variable: 4,
                ..FIRST
            },
            Step {
                round: Round::Moment,
                now: 1000,
                stops: &[false, false, false],
                is_halted: true,
                variable: 12,
                ..FIRST
            },
        ],
        &[Entry::Line(1000, "u"), Entry::Line(1000, "turn limit")],
    ),
];

/// The frame without bytes of this identifier, as the node sees it.
fn seen((name, sent): (u16, bool)) -> Option<Seen> {
    let frame = Frame::make(Ident::Std(name), false, 0, [0; 8], 1)?;
    Some(Seen { frame, sent })
}

/// Begins a round and does its tasks one by one, each of which asks to stop or not as it must.
fn do_round(rt: &impl Abort, bench: &mut Bench, step: &Step) -> Result<(), Fail> {
    let seen = step.seen.and_then(seen);
    bench.begin(step.round, step.now, seen, step.keys.as_bytes())?;
    for stop in step.stops {
        assert_eq!(rt; bench.step()?, Some(*stop));
    }
    assert_eq!(rt; bench.step()?, None);
    Ok(())
}

/// The node and its bus stand as they must behind a round.
fn check_stand(rt: &impl Abort, bench: &Bench, step: &Step) {
    assert!(rt; !bench.node.has_task());
    assert_eq!(rt; bench.node.next_due(), step.due);
    assert_eq!(rt; bench.node.halted(), step.is_halted);
    assert_eq!(rt; bench.node.cells().get(15), Some(&step.variable));
    assert_eq!(rt; bench.bus.next_time(), step.bus);
}

/// Does these rounds, behind each of which the node and its bus stand as they must.
fn do_rounds(rt: &impl Abort, bench: &mut Bench, steps: &[Step]) -> Result<(), Fail> {
    for step in steps {
        do_round(rt, bench, step)?;
        check_stand(rt, bench, step);
    }
    Ok(())
}

/// The node left these entries, in this order, and no other.
fn check_left(rt: &impl Abort, bench: &Bench, wanted: &[Entry]) {
    let noted = bench.into.noted();
    assert!(rt; are_noted(noted, wanted), "{noted:?} for {wanted:?}");
}

#[test]
fn rounds_are_done_task_by_task(rt: HostRuntime) -> Result<(), Fail> {
    for (source, procedures, steps, wanted) in LIVES {
        let mut bench = Bench::make(rt.alloc(), source, 4)?;
        assert_eq!(rt; bench.node.code().code().handlers.len(), procedures);
        do_rounds(&rt, &mut bench, steps)?;
        check_left(&rt, &bench, wanted);
    }
    Ok(())
}
