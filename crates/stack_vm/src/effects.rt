// The rows of instructions on the host.

ghost use Rattle.std.specs.Prelude.{◌≡◌, ◌^◌, ◌<◌, ◌≤◌, length, reverse, take, All, IfOk, IsErrOf, None, OnErr, OnOk};
ghost use Rattle.bytecode.specs.declared.code.Code.{Code};
ghost use Rattle.bytecode.specs.declared.instr.Instr.TheVariants.{Stop, Send, Set, Write, Cancel, Active, Now};
ghost use Rattle.run_effects.specs.Effect.{micros};
ghost use Rattle.bytecode.specs.Verified.{IsVerified};
ghost use Rattle.int_kinds.specs.Kind.{IsNumber};
ghost use Rattle.stack_vm.specs.Inside.State.{HasSameRoom};
ghost use Rattle.stack_vm.specs.Inside.Step.{DoesOn, IsReady, RefusesOn};
ghost use Rattle.vm_host.specs.Host.{FaultsRise, HostStays};
ghost use Rattle.write_format.specs.Line.{HoldsBytes, char_arrays, numbers_taken, rendered};

use crate::frame::frame;
use crate::state::State;
use bytecode::Code;
use int_kinds::{Kind, truth, wrap};
use texts::NoMemory;
use vm_host::{Host, RecordFault};
use write_format::{Format, render_list};

/// Asks to stop the measurement.
#[inline]
pub(crate) fn stop<H: Host>(state: &mut State, host: &mut H)
    requires { (code : Code) × IsReady code Stop state.old }
    ensures does { (code : Code) → DoesOn H.meaning code Stop state.old host.old None state.new host.new }
    ensures host_stays { HostStays H.meaning host.old host.new }
{
    host.stop();
    state.go_on();
}

/// Cancels a timer.
#[inline]
pub(crate) fn cancel<H: Host>(state: &mut State, host: &mut H, timer: u32)
    requires ready { (code : Code) × IsReady code (Cancel timer) state.old }
    requires exists { timer < length (H.meaning.active_timers host.old) }
    ensures does { (code : Code) →
        DoesOn H.meaning code (Cancel timer) state.old host.old None state.new host.new }
    ensures host_stays { HostStays H.meaning host.old host.new }
{
    host.cancel(timer);
    state.go_on();
}

/// Gives 1 where a timer is active, and 0 elsewhere.
#[inline]
pub(crate) fn active<H: Host>(state: &mut State, host: &H, timer: u32)
    requires ready { (code : Code) × IsReady code (Active timer) state.old }
    requires exists { timer < length (H.meaning.active_timers host.now) }
    ensures { (code : Code) →
        DoesOn H.meaning code (Active timer) state.old host.now None state.new host.now }
{
    state.give(truth(host.active(timer)));
}

/// Gives the present moment in units of ten microseconds.
#[inline]
pub(crate) fn now<H: Host>(state: &mut State, host: &H)
    requires { (code : Code) × IsReady code Now state.old }
    ensures { (code : Code) → DoesOn H.meaning code Now state.old host.now None state.new host.now }
{
    state.give(wrap(Kind::Dword, i128::from(host.now() / 10)));
}

/// Takes a duration and sets a timer, which is cyclic or not.
#[inline]
pub(crate) fn set<H: Host>(state: &mut State, code: &Code, host: &mut H, timer: u32, cyclic: bool)
    requires verified { IsVerified code.now }
    requires ready { IsReady code.now (Set timer cyclic) state.old }
    requires exists { timer < length (H.meaning.active_timers host.old) }
    ensures does { DoesOn H.meaning code.now (Set timer cyclic) state.old host.old None state.new host.new }
    ensures host_stays { HostStays H.meaning host.old host.new }
{
    let unit = code.timers.as_slice()[timer as usize];
    let duration = micros(unit, state.top());
    host.set_timer(timer, duration, cyclic);
    state.forget(1);
}

/// How many microseconds a duration in a unit is: wrapped to long, and below 1 it is 1.
#[inline]
fn micros(unit: u64, n: i128) -> u64
    requires some { 1 ≤ unit }
    requires unit { unit ≤ 1000000 }
    requires number { IsNumber n }
    ensures value { result ≡ micros unit n }
    ensures later { 0 < result }
    ensures in_range { result < 2 ^ 63 }
{
    let long = wrap(Kind::Long, n);
    if long >= 1 { long as u64 * unit } else { unit }
}

/// Sends a message.
#[inline]
pub(crate) fn send<H: Host>(state: &mut State, host: &mut H, at: u32) -> Result<(), NoMemory>
    requires { (code : Code) × IsReady code (Send at) state.old }
    ensures does { OnOk result ((code : Code) →
        DoesOn H.meaning code (Send at) state.old host.old None state.new host.new) }
    ensures refused { OnErr result ((code : Code) →
        RefusesOn H.meaning code (Send at) state.old host.old host.new) }
    ensures stays { OnErr result (state.new ≡ state.old) }
    ensures same_room { HasSameRoom state.old state.new }
    ensures host_stays { HostStays H.meaning host.old host.new }
{
    host.send(&frame(state, at))?;
    state.go_on();
    Ok(())
}

/// Takes the numbers of a format and writes its line.
pub(crate) fn write<H: Host>(
    state: &mut State,
    code: &Code,
    host: &mut H,
    f: u32,
) -> Result<(), RecordFault>
    requires verified { IsVerified code.now }
    requires ready { IsReady code.now (Write f) state.old }
    ensures does { OnOk result (
        DoesOn H.meaning code.now (Write f) state.old host.old None state.new host.new) }
    ensures refused { OnErr result (
        RefusesOn H.meaning code.now (Write f) state.old host.old host.new) }
    ensures sink { IsErrOf result RecordFault.Sink → FaultsRise H.meaning host.old host.new }
    ensures stays { OnErr result (state.new ≡ state.old) }
    ensures same_room { HasSameRoom state.old state.new }
    ensures host_stays { HostStays H.meaning host.old host.new }
{
    let format = &code.formats.as_slice()[f as usize];
    let text = line(state, format)?;
    host.line(text.as_slice())?;
    state.forget(format.numbers_taken());
    Ok(())
}

/// The line of a format with the numbers that were given last.
fn line(state: &State, format: &Format) -> Result<Vec<u8>, NoMemory>
    requires numbers { numbers_taken format.now ≤ length state.now.stack }
    requires arrays { All (HoldsBytes state.now.cells) (char_arrays format.now) }
    ensures { IfOk result (λ line. line.items ≡ rendered format.now
        (reverse (take (numbers_taken format.now) state.now.stack)) state.now.cells) }
{
    let numbers = state.last_given(format.numbers_taken());
    render_list(state.alloc(), format, numbers, state.cells())
}
