// The run of one handler of a node.

ghost use Rattle.std.specs.Prelude.{◌≡◌, ◌<◌, ◌≤◌, ◌^◌, ℕ, Bool, false, length, IfOk, OnErr, IsErrOf, IsOk};
ghost use Rattle.bytecode.specs.declared.code.Code.{Code};
ghost use Rattle.run_records.specs.Record.{RecordFaultsRise};
ghost use Rattle.timer_queue.specs.Timers.{IsTimers};
ghost use Rattle.stack_vm.specs.Memory.{IsMemoryOf};
ghost use Rattle.stack_vm.specs.Quiet.{IsQuietHandler};
ghost use Rattle.node_run.specs.Inside.Handler.{RefusesHandler, RunsHandler};
ghost use Rattle.node_run.specs.Inside.Host.{parts};

use crate::host::NodeHost;
use bytecode::Verified;
use can_bus::Bus;
use run_effects::Outcome;
use run_records::Record;
use stack_vm::{Memory, Meter, run};
use timer_queue::TimerQueue;
use vm_host::RecordFault;

/// Runs a handler on a host, whose references stay.
fn run_on<'a, B: Bus, R: Record>(
    code: &Verified,
    handler: u32,
    memory: &mut Memory,
    host: &mut NodeHost<'a, B, R>,
    turns: u64,
    meter: &mut Meter,
    row: usize,
) -> Result<Outcome, RecordFault>
    requires handler { handler < length code.now.handlers }
    requires memory { IsMemoryOf code.now memory.old }
    requires timers { length code.now.timers ≤ host.old.timers.now.count }
    requires row { row < length meter.old }
    ensures same_bus { host.new.bus.ghost_name ≡ host.old.bus.ghost_name }
    ensures same_record { host.new.into.ghost_name ≡ host.old.into.ghost_name }
    ensures same_timers { host.new.timers.ghost_name ≡ host.old.timers.ghost_name }
    ensures ends { IfOk result (λ outcome. RunsHandler B.meaning.after_request R.meaning
        code.now host.old.closed handler turns row memory.old
        (parts host.old.number host.old.moment host.old.stops
        host.old.bus.now host.old.into.now host.old.timers.now)
        meter.old outcome memory.new
        (parts host.new.number host.new.moment host.new.stops
        host.new.bus.now host.new.into.now host.new.timers.now)
        meter.new) }
    ensures of_code { IsMemoryOf code.now memory.new }
    ensures refused { OnErr result (RefusesHandler B.meaning.after_request R.meaning
        code.now host.old.closed handler turns memory.old
        (parts host.old.number host.old.moment host.old.stops
        host.old.bus.now host.old.into.now host.old.timers.now)
        (parts host.new.number host.new.moment host.new.stops
        host.new.bus.now host.new.into.now host.new.timers.now)) }
    ensures meter_stays { OnErr result (meter.new ≡ meter.old) }
    ensures quiet { IsQuietHandler code.now handler → IsOk result }
    ensures sink { IsErrOf result RecordFault.Sink →
        RecordFaultsRise R.meaning host.old.into.now host.new.into.now }
    ensures faults_stay { R.meaning.faults host.old.into.now ≤ R.meaning.faults host.new.into.now }
    ensures as_many { host.new.timers.now.count ≡ host.old.timers.now.count }
    ensures valid { IsTimers host.old.timers.now → IsTimers host.new.timers.now }
{
    let outcome = run(code, handler, memory, host, turns, meter, row)?;
    Ok(outcome)
}

/// Runs a handler for the node of a number at a moment, and answers how it ended and whether it asked to
/// stop the measurement.
pub(crate) fn run_handler<B: Bus, R: Record>(
    code: &Verified,
    handler: u32,
    memory: &mut Memory,
    timers: &mut TimerQueue,
    turns: u64,
    number: u32,
    now: u64,
    closed: bool,
    bus: &mut B,
    into: &mut R,
    meter: &mut Meter,
    row: usize,
) -> Result<(Outcome, bool), RecordFault>
    requires handler { handler < length code.now.handlers }
    requires memory { IsMemoryOf code.now memory.old }
    requires timers { length code.now.timers ≤ timers.old.count }
    requires row { row < length meter.old }
    requires serves { number < B.meaning.nodes bus.old }
    requires in_time { now ≤ 2 ^ 63 }
    ensures ends { IfOk result (λ ended. RunsHandler B.meaning.after_request R.meaning
        code.now closed handler turns row memory.old (parts number now false bus.old into.old timers.old)
        meter.old ended.0 memory.new (parts number now ended.1 bus.new into.new timers.new) meter.new) }
    ensures of_code { IsMemoryOf code.now memory.new }
    ensures refused { OnErr result ((n m : ℕ) × (stops : Bool)
        × RefusesHandler B.meaning.after_request R.meaning
        code.now closed handler turns memory.old (parts number now false bus.old into.old timers.old)
        (parts n m stops bus.new into.new timers.new)) }
    ensures meter_stays { OnErr result (meter.new ≡ meter.old) }
    ensures quiet { IsQuietHandler code.now handler → IsOk result }
    ensures sink { IsErrOf result RecordFault.Sink → RecordFaultsRise R.meaning into.old into.new }
    ensures faults_stay { R.meaning.faults into.old ≤ R.meaning.faults into.new }
    ensures as_many { timers.new.count ≡ timers.old.count }
    ensures valid { IsTimers timers.old → IsTimers timers.new }
{
    let mut host = NodeHost::new(number, now, closed, bus, into, timers);
    let outcome = run_on(code, handler, memory, &mut host, turns, meter, row)?;
    Ok((outcome, host.stops()))
}
