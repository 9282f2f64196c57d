// Runs of verified code.

ghost use Rattle.std.specs.Prelude.{◌≡◌, ◌<◌, ◌≤◌, ℕ, [], length, OnErr, IfOk, IsErrOf, IsOk};
ghost use Rattle.bytecode.specs.Runs.{HoldKinds, IsStartOf};
ghost use Rattle.bytecode.specs.Verified.{IsVerified};
ghost use Rattle.stack_vm.specs.Cases.{IsIndexOf};
ghost use Rattle.stack_vm.specs.Inside.Runs.{EndsWith, HasRoomOn, IsRefused, machine_on};
ghost use Rattle.stack_vm.specs.Inside.State.{HasSameRoom};
ghost use Rattle.stack_vm.specs.Memory.{IsMemoryOf};
ghost use Rattle.stack_vm.specs.Quiet.{IsQuietHandler};
ghost use Rattle.stack_vm.specs.Runs.{IsRunRefused, Runs};
ghost use Rattle.vm_host.specs.Host.{FaultsRise, HostStays};

use crate::cases::{has_run, pass_run};
use crate::state::State;
use crate::step::{Needs, ask, step};
use crate::{Memory, Meter};
use bytecode::{Code, Verified};
use items::Items;
use run_effects::Outcome;
use vm_host::{Host, RecordFault};

/// Runs a handler of verified code with so many turns, in the memory of this code.
///
/// It ends as the machine's definition ends: with its outcome, its cells, and its effects given to
/// the host in order. One run with the turns that it took is added to the row, and no other row
/// changes. The host has at least as many timers as the code. Its moment, whether it is closed and
/// how many timers it has stay.
///
/// Takes time linear in the steps that the machine takes, of which those at a run of 32 or more
/// neighbouring Cases are done in time logarithmic in their number, and memory only for the line of
/// a `Write` and in the host: a handler whose function is quiet, since neither it nor a function
/// that it calls has `Write` or `Send`, runs to its end whatever memory there is.
///
/// # Errors
///
/// What the host answered to the line of a `Write` or the frame of a `Send`, or `NoMemory` where
/// there was none for a line. The host then stands where the effects before led, or where it refused
/// this one. The effects before and then this one begin those of the whole run, and the meter is as
/// before. `Sink` comes only where the host's faults rose.
pub fn run<H: Host>(
    code: &Verified,
    handler: u32,
    memory: &mut Memory,
    host: &mut H,
    turns: u64,
    meter: &mut Meter,
    row: usize,
) -> Result<Outcome, RecordFault>
    requires handler { handler < length code.now.handlers }
    requires memory { IsMemoryOf code.now memory.old }
    requires timers { length code.now.timers ≤ length (H.meaning.active_timers host.old) }
    requires row { row < length meter.old }
    ensures ends { IfOk result (λ outcome.
        Runs H.meaning code.now handler turns row memory.old host.old meter.old
        outcome memory.new host.new meter.new) }
    ensures of_code { IsMemoryOf code.now memory.new }
    ensures refused { OnErr result (
        IsRunRefused H.meaning code.now handler turns memory.old host.old host.new) }
    ensures meter_stays { OnErr result (meter.new ≡ meter.old) }
    ensures quiet { IsQuietHandler code.now handler → IsOk result }
    ensures sink { IsErrOf result RecordFault.Sink → FaultsRise H.meaning host.old host.new }
    ensures host_stays { HostStays H.meaning host.old host.new }
{
    let code = code.code();
    let function = code.handlers.as_slice()[handler as usize].function;
    let start = code.functions.as_slice()[function as usize].start;
    memory.state.begin(start as usize, turns);
    let outcome = run_on(&mut memory.state, code, &memory.cases, host)?;
    meter.add_run(row, turns.saturating_sub(memory.state.turns()));
    Ok(outcome)
}

/// Runs from where the state stands up to the end.
#[inline(never)]
fn run_on<H: Host>(
    state: &mut State,
    code: &Code,
    cases: &Items<Items<(i128, usize)>>,
    host: &mut H,
) -> Result<Outcome, RecordFault>
    requires verified { IsVerified code.now }
    requires indexed { IsIndexOf code.now cases.now }
    requires starts { (handler : ℕ) ×
        IsStartOf code.now handler (machine_on H.meaning state.old host.old []) }
    requires room { HasRoomOn H.meaning code.now state.old host.old }
    ensures ends { IfOk result (λ outcome.
        EndsWith H.meaning code.now state.old host.old outcome state.new host.new) }
    ensures refused { OnErr result (IsRefused H.meaning code.now state.old host.old host.new) }
    ensures cells_held { HoldKinds code.now.cells state.new.cells }
    ensures same_room { HasSameRoom state.old state.new }
    ensures sink { IsErrOf result RecordFault.Sink → FaultsRise H.meaning host.old host.new }
    ensures host_stays { HostStays H.meaning host.old host.new }
{
    let instrs = code.instrs.as_slice();
    let indexed = !cases.is_empty();
    // The state stands in a local value while no host is asked and no long run is searched, so that
    // its parts stay in registers.
    let mut own = state.move_out();
    loop {
        let instr = &instrs[own.place()];
        match step(&mut own, code, indexed, instr) {
            Ok(None) => {}
            Ok(Some(outcome)) => {
                *state = own;
                return Ok(outcome);
            }
            Err(Needs::Cases) => {
                if has_run(cases, own.place()) {
                    *state = own;
                    pass_run(state, cases);
                    own = state.move_out();
                } else {
                    own.go_on();
                }
            }
            Err(Needs::Host) => {
                *state = own;
                ask(state, code, host, instr)?;
                own = state.move_out();
            }
        }
    }
}
