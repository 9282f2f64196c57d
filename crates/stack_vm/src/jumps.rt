// The rows of jumps.

ghost use Rattle.std.specs.Prelude.{◌≡◌, IfErr, None, OnErr, OnOk};
ghost use Rattle.std.specs.Result.{result_err};
ghost use Rattle.bytecode.specs.declared.code.Code.{Code};
ghost use Rattle.bytecode.specs.declared.instr.Instr.TheVariants.{Jump, Zero, Case, Back};
ghost use Rattle.stack_vm.specs.Inside.Step.{Does, IsNeededBy, IsReady};

use crate::state::State;
use crate::step::Needs;
use int_kinds::is_equal;
use run_effects::Outcome;

/// Goes to a place.
#[inline]
pub(crate) fn jump(state: &mut State, target: u32)
    requires { (code : Code) × IsReady code (Jump target) state.old }
    ensures { Does (Jump target) state.old None state.new }
{
    state.jump(target as usize, 0);
}

/// Takes a number and goes to a place where it is 0.
#[inline]
pub(crate) fn jump_at_zero(state: &mut State, target: u32)
    requires { (code : Code) × IsReady code (Zero target) state.old }
    ensures { Does (Zero target) state.old None state.new }
{
    if is_equal(state.top(), 0) {
        state.jump(target as usize, 1);
    } else {
        state.forget(1);
    }
}

/// Where the top is this number, takes it and goes to a place.
///
/// # Errors
///
/// The top is another number, and there is an index of Cases. The state is then as before.
#[inline]
pub(crate) fn jump_at(
    state: &mut State,
    indexed: bool,
    label: i128,
    target: u32,
) -> Result<(), Needs>
    requires { (code : Code) × IsReady code (Case target label) state.old }
    ensures jumps { OnOk result (Does (Case target label) state.old None state.new) }
    ensures needs { IfErr result (IsNeededBy (Case target label) state.new) }
    ensures stays { OnErr result (state.new ≡ state.old) }
{
    if is_equal(state.top(), label) {
        state.jump(target as usize, 1);
    } else if indexed {
        return Err(Needs::Cases);
    } else {
        state.go_on();
    }
    Ok(())
}

/// Takes a number and, where it is not 0, takes a turn and goes to a place.
#[inline]
pub(crate) fn jump_back(state: &mut State, target: u32) -> Result<(), Outcome>
    requires { (code : Code) × IsReady code (Back target) state.old }
    ensures { Does (Back target) state.old (result_err result) state.new }
{
    if is_equal(state.top(), 0) {
        state.forget(1);
        return Ok(());
    }
    state.take_turn()?;
    state.jump(target as usize, 1);
    Ok(())
}
