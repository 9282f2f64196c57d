// The rows of turns and calls.

ghost use Rattle.std.specs.Prelude.{◌<◌, length};
ghost use Rattle.std.specs.Result.{result_err};
ghost use Rattle.bytecode.specs.declared.code.Code.{Code};
ghost use Rattle.bytecode.specs.declared.instr.Instr.TheVariants.{Turn, Call, Ret};
ghost use Rattle.stack_vm.specs.Inside.Step.{Does, DoesIn, IsReady};

use crate::state::State;
use bytecode::Code;
use run_effects::Outcome;

/// Takes a turn.
#[inline]
pub(crate) fn turn(state: &mut State) -> Result<(), Outcome>
    requires { (code : Code) × IsReady code Turn state.old }
    ensures { Does Turn state.old (result_err result) state.new }
{
    state.take_turn()?;
    state.go_on();
    Ok(())
}

/// Takes a turn and runs a function.
#[inline]
pub(crate) fn call(state: &mut State, code: &Code, f: u32) -> Result<(), Outcome>
    requires { IsReady code.now (Call f) state.old }
    ensures { DoesIn code.now (Call f) state.old (result_err result) state.new }
{
    let start = code.functions.as_slice()[f as usize].start;
    state.take_turn()?;
    state.call(start as usize);
    Ok(())
}

/// Ends the function.
#[inline]
pub(crate) fn leave(state: &mut State) -> Result<(), Outcome>
    requires { (code : Code) × IsReady code Ret state.old }
    ensures { Does Ret state.old (result_err result) state.new }
{
    if !state.is_called() {
        return Err(Outcome::Done);
    }
    state.give_back();
    Ok(())
}
