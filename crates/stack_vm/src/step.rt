// One step of the machine.

ghost use Rattle.std.specs.Prelude.{◌≡◌, ◌≤◌, length, IfErr, IfOk, IsErrOf, None, OnErr, OnOk};
ghost use Rattle.bytecode.specs.Verified.{IsVerified};
ghost use Rattle.stack_vm.specs.Inside.Step.{AsksHost, DoesIn, DoesOn, IsNeededBy, IsReady, RefusesOn};
ghost use Rattle.vm_host.specs.Host.{FaultsRise, HostStays};

use crate::state::State;
use crate::{calls, cells, effects, jumps, messages, operands};
use bytecode::{Code, Instr};
use run_effects::Outcome;
use vm_host::{Host, RecordFault};

/// What an instruction needs that a step does not have at hand.
#[derive(Clone, Copy, Debug)]
pub(crate) enum Needs {
    /// The host, of which it asks something.
    Host,
    /// The index of Cases, since it is a Case whose label is not the top.
    Cases,
}

/// Does an instruction of a code that has an index of Cases or none. Gives how the run has ended,
/// or `None` where it goes on.
///
/// # Errors
///
/// What the instruction needs besides. The state is then as before.
#[inline(always)]
#[tactic(auto, using(crate::proofs::StepLemmas::by_name))]
pub(crate) fn step(
    state: &mut State,
    code: &Code,
    indexed: bool,
    instr: &Instr,
) -> Result<Option<Outcome>, Needs>
    requires { IsReady code.now instr.now state.old }
    ensures does { IfOk result (λ end. DoesIn code.now instr.now state.old end state.new) }
    ensures needs { IfErr result (IsNeededBy instr.now state.new) }
    ensures stays { OnErr result (state.new ≡ state.old) }
{
    match *instr {
        Instr::Push(n) => operands::push(state, n),
        Instr::Load(cell) => cells::load(state, cell),
        Instr::Store(cell) => cells::store(state, code, cell),
        Instr::Check(len) => return Ok(cells::check(state, len).err()),
        Instr::Elem(base, len) => return Ok(cells::element(state, base, len).err()),
        Instr::SetElem(base, len) => return Ok(cells::set_element(state, code, base, len).err()),
        Instr::Bytes(kind, at) => return Ok(messages::bytes(state, kind, at).err()),
        Instr::SetBytes(kind, at) => return Ok(messages::set_bytes(state, kind, at).err()),
        Instr::Sig(layout, at) => messages::signal(state, layout, at),
        Instr::SetSig(layout, at) => messages::set_signal(state, layout, at),
        Instr::SetField(field, at) => messages::set_field(state, field, at),
        Instr::Bin(op, kind) => return Ok(operands::operate(state, op, kind).err()),
        Instr::Neg(kind) => operands::negate(state, kind),
        Instr::Inv(kind) => operands::invert(state, kind),
        Instr::Conv(kind) => operands::convert(state, kind),
        Instr::Not => operands::not(state),
        Instr::Dup => operands::duplicate(state),
        Instr::Drop => operands::take(state),
        Instr::Jump(target) => jumps::jump(state, target),
        Instr::Zero(target) => jumps::jump_at_zero(state, target),
        Instr::Case(target, label) => jumps::jump_at(state, indexed, label, target)?,
        Instr::Back(target) => return Ok(jumps::jump_back(state, target).err()),
        Instr::Turn => return Ok(calls::turn(state).err()),
        Instr::Call(f) => return Ok(calls::call(state, code, f).err()),
        Instr::Ret => return Ok(calls::leave(state).err()),
        Instr::Copy(to, from) => messages::copy(state, to, from),
        Instr::Write(_)
        | Instr::Send(_)
        | Instr::Stop
        | Instr::Set(..)
        | Instr::Cancel(_)
        | Instr::Active(_)
        | Instr::Now => return Err(Needs::Host),
    }
    Ok(None)
}

/// Does an instruction that asks the host. It is cold, so that the loop that calls it keeps its
/// values in registers.
#[cold]
#[inline(never)]
#[tactic(auto, using(crate::proofs::StepLemmas::by_name))]
pub(crate) fn ask<H: Host>(
    state: &mut State,
    code: &Code,
    host: &mut H,
    instr: &Instr,
) -> Result<(), RecordFault>
    requires verified { IsVerified code.now }
    requires ready { IsReady code.now instr.now state.old }
    requires asks { AsksHost instr.now }
    requires timers { length code.now.timers ≤ length (H.meaning.active_timers host.old) }
    ensures does { OnOk result (
        DoesOn H.meaning code.now instr.now state.old host.old None state.new host.new) }
    ensures refused { OnErr result (
        RefusesOn H.meaning code.now instr.now state.old host.old host.new) }
    ensures sink { IsErrOf result RecordFault.Sink → FaultsRise H.meaning host.old host.new }
    ensures stays { OnErr result (state.new ≡ state.old) }
    ensures host_stays { HostStays H.meaning host.old host.new }
{
    match *instr {
        Instr::Write(f) => effects::write(state, code, host, f)?,
        Instr::Send(at) => effects::send(state, host, at)?,
        Instr::Stop => effects::stop(state, host),
        Instr::Set(timer, cyclic) => effects::set(state, code, host, timer, cyclic),
        Instr::Cancel(timer) => effects::cancel(state, host, timer),
        Instr::Active(timer) => effects::active(state, host, timer),
        Instr::Now => effects::now(state, host),
        _ => unreachable!(),
    }
    Ok(())
}
