// One simulation over a list of requests and over a heap of them.

ghost use Rattle.std.specs.Prelude.{◌≡◌, [], IfOk};
ghost use Rattle.sim_core.specs.Core.{HasRun, states_of};

use arbitration::PlainBus;
use bus_heap::HeapBus;
use can_bus::Bus;
use node_run::TaskFault;
use run_bench::{Start, are_noted, has_rows, heap_start, plain_start};
use run_records::{MemRecord, Record};
use run_tests::pairs::{PAIRS, Run};
use sim_core::Core;
use sim_core::laws::one_result;
use stack_vm::Meter;
use std::alloc::Global;
use std::process::Abort;
use std::test::Fail;

/// A simulation that was run to its end, and what it left.
#[derive(Drop)]
struct Left<B: Bus> {
    core: Core<B>,
    into: MemRecord,
    meter: Meter,
}

/// Runs a simulation to its end.
fn left_by<B: Bus + Drop>(alloc: Global, start: Start<B>) -> Result<Left<B>, TaskFault>
    ensures { IfOk result (λ left. HasRun B.meaning ⟦<MemRecord as Record>⟧.meaning
        start.core [] start.meter left.core left.into left.meter) }
{
    let Start {
        mut core,
        mut meter,
    } = start;
    let mut into = MemRecord::new(alloc);
    core.run_until(&mut into, &mut meter)?;
    Ok(Left { core, into, meter })
}

/// Runs a simulation over a list and one over a heap. Where they begin alike, they leave the same record and
/// the same rows, and their nodes stand alike.
fn left_by_both(
    alloc: Global,
    list: Start<PlainBus>,
    heap: Start<HeapBus>,
) -> Result<(Left<PlainBus>, Left<HeapBus>), TaskFault>
    ensures record { list.core ≡ heap.core → list.meter ≡ heap.meter →
        IfOk result (λ left. left.0.into ≡ left.1.into) }
    ensures rows { list.core ≡ heap.core → list.meter ≡ heap.meter →
        IfOk result (λ left. left.0.meter ≡ left.1.meter) }
    ensures nodes { list.core ≡ heap.core → list.meter ≡ heap.meter →
        IfOk result (λ left. states_of left.0.core.nodes ≡ states_of left.1.core.nodes) }
{
    one_result::<PlainBus, MemRecord>();
    let list = left_by(alloc, list)?;
    let heap = left_by(alloc, heap)?;
    Ok((list, heap))
}

/// A run left its entries and its rows, in this order, and no other.
fn check_left<B: Bus>(rt: &impl Abort, left: &Left<B>, run: &Run) {
    let noted = left.into.noted();
    let meter = &left.meter;
    assert!(rt;
        are_noted(noted, run.entries),
        "{noted:?} for {:?}",
        run.entries
    );
    assert!(rt; has_rows(meter, run.rows), "{meter:?} for {:?}", run.rows);
}

#[test]
fn a_list_and_a_heap_leave_the_same(rt: HostRuntime) -> Result<(), Fail> {
    let alloc = rt.alloc();
    let run = &PAIRS[2];
    let list = plain_start(alloc, run.items, run.sources)?;
    let heap = heap_start(alloc, run.items, run.sources)?;
    let (list, heap) = left_by_both(alloc, list, heap)?;
    check_left(&rt, &list, run);
    check_left(&rt, &heap, run);
    Ok(())
}
