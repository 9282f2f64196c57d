// Simulations that are run instant by instant.

ghost use Rattle.std.specs.Prelude.{◌≢◌};
ghost use Rattle.sim_core.specs.Core.{HaveRows};
ghost use Rattle.sim_core.specs.declared.simulation.Phase.TheVariants.{Over};

use arbitration::PlainBus;
use run_bench::{Entry, Start, are_noted, has_rows, plain_start};
use run_records::MemRecord;
use sim_core::{Core, Step};
use stack_vm::Meter;
use std::alloc::Global;
use std::process::Abort;
use std::test::Fail;

/// A simulation that is not over, and what it has left so far.
#[derive(Drop)]
struct Desk {
    core: Core<PlainBus>,
    into: MemRecord,
    meter: Meter,
    ghost goes: { core.phase ≢ Over },
    ghost rows: { HaveRows meter core.nodes },
}

impl Desk {
    /// A simulation of which nothing has happened yet, and which has a run.
    fn make(alloc: Global, start: Start<PlainBus>) -> Desk {
        let Start { core, meter } = start;
        core.has_a_run();
        Desk {
            core,
            into: MemRecord::new(alloc),
            meter,
        }
    }

    /// Does the next instant, and tells what was done.
    fn step(self) -> Result<(Desk, Step), Fail> {
        let Desk {
            mut core,
            mut into,
            mut meter,
        } = self;
        let step = core.step_instant(&mut into, &mut meter)?;
        Ok((Desk { core, into, meter }, step))
    }
}

/// The further items of a scenario, the sources of its nodes, how many entries there are after each of its
/// instants, the entries, and the runs and turns of each procedure.
type Course = (
    &'static str,
    &'static [&'static str],
    &'static [usize],
    &'static [Entry],
    &'static [(u64, u64)],
);

const COURSES: [Course; 3] = [
    // The instant at 0 comes first, though nothing happens in it, and the last one may be at the end moment.
    // The procedures for the end of the measurement belong to none.
    (
        "until 2\nkey 1 k\nkey 3 k",
        &[
            "on key 'k' { write(\"k\"); } on stopMeasurement { write(\"end\"); }",
            "variables { msTimer t; } on preStart { setTimer(t, 2); } on timer t { write(\"t\"); }",
        ],
        &[0, 1, 2],
        &[Entry::Line(1000, "k"), Entry::Second(2000, "t")],
        &[(1, 0), (0, 0), (1, 0), (1, 0)],
    ),
    // Where a node asked to stop there is no further instant, though a frame is on the wire.
    (
        "",
        &[
            "variables { message 0x0 m = {dlc = 0}; } on start { output(m); write(\"a\"); }",
            "on start { stop(); write(\"b\"); }",
        ],
        &[2],
        &[Entry::Line(0, "a"), Entry::Second(0, "b")],
        &[(1, 0), (1, 0)],
    ),
    // A frame ends in an instant of its own, and what waits begins in another, three bits later.
    (
        "",
        &[
            "variables { message 0x0 m = {dlc = 0}; } on start { output(m); output(m); }",
            "on message 0x0 { write(\"m\"); }",
        ],
        &[0, 2, 2, 4],
        &[
            Entry::Frame(100, 0, 0),
            Entry::Second(100, "m"),
            Entry::Frame(206, 0, 0),
            Entry::Second(206, "m"),
        ],
        &[(1, 0), (2, 0)],
    ),
];

/// Does the instants of a simulation, after each of which there are so many entries.
fn done(rt: &impl Abort, mut desk: Desk, counts: &[usize]) -> Result<Desk, Fail> {
    for count in counts {
        let (after, step) = desk.step()?;
        assert_eq!(rt; step, Step::Went);
        assert_eq!(rt; after.into.noted().len(), *count);
        desk = after;
    }
    Ok(desk)
}

// Behind its last instant a simulation has ended, and nothing changes any more.
#[test]
fn instants_come_one_by_one(rt: HostRuntime) -> Result<(), Fail> {
    let alloc = rt.alloc();
    for (items, sources, counts, entries, rows) in COURSES {
        let desk = Desk::make(alloc, plain_start(alloc, items, sources)?);
        let mut desk = done(&rt, desk, counts)?;
        for _ in 0..2 {
            let (after, step) = desk.step()?;
            assert_eq!(rt; step, Step::Ended);
            assert!(rt; are_noted(after.into.noted(), entries));
            assert!(rt; has_rows(&after.meter, rows));
            desk = after;
        }
    }
    Ok(())
}
