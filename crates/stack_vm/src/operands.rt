// The rows of instructions on numbers.

ghost use Rattle.std.specs.Prelude.{None};
ghost use Rattle.std.specs.Result.{result_err};
ghost use Rattle.bytecode.specs.declared.code.Code.{Code};
ghost use Rattle.bytecode.specs.declared.instr.Instr.TheVariants.{Push, Bin, Neg, Inv, Conv, Not, Dup, Drop};
ghost use Rattle.stack_vm.specs.Inside.Step.{Does, IsReady};

use crate::state::State;
use int_kinds::{BinOp, Kind, inv, is_equal, neg, truth, value, wrap};
use run_effects::{Outcome, TrapKind};

/// Gives a number.
#[inline]
pub(crate) fn push(state: &mut State, n: i128)
    requires { (code : Code) × IsReady code (Push n) state.old }
    ensures { Does (Push n) state.old None state.new }
{
    state.give(n);
}

/// Gives the negative of a number.
#[inline]
pub(crate) fn negate(state: &mut State, kind: Kind)
    requires { (code : Code) × IsReady code (Neg kind) state.old }
    ensures { Does (Neg kind) state.old None state.new }
{
    let n = neg(kind, state.top());
    state.replace(n);
}

/// Gives a number with each bit turned.
#[inline]
pub(crate) fn invert(state: &mut State, kind: Kind)
    requires { (code : Code) × IsReady code (Inv kind) state.old }
    ensures { Does (Inv kind) state.old None state.new }
{
    let n = inv(kind, state.top());
    state.replace(n);
}

/// Gives a number wrapped to a kind.
#[inline]
pub(crate) fn convert(state: &mut State, kind: Kind)
    requires { (code : Code) × IsReady code (Conv kind) state.old }
    ensures { Does (Conv kind) state.old None state.new }
{
    let n = wrap(kind, state.top());
    state.replace(n);
}

/// Gives 1 for 0, and 0 for any other number.
#[inline]
pub(crate) fn not(state: &mut State)
    requires { (code : Code) × IsReady code Not state.old }
    ensures { Does Not state.old None state.new }
{
    let n = truth(is_equal(state.top(), 0));
    state.replace(n);
}

/// Gives the top once more.
#[inline]
pub(crate) fn duplicate(state: &mut State)
    requires { (code : Code) × IsReady code Dup state.old }
    ensures { Does Dup state.old None state.new }
{
    let n = state.top();
    state.give(n);
}

/// Takes a number.
#[inline]
pub(crate) fn take(state: &mut State)
    requires { (code : Code) × IsReady code Drop state.old }
    ensures { Does Drop state.old None state.new }
{
    state.forget(1);
}

/// Gives the value of an operator.
#[inline]
pub(crate) fn operate(state: &mut State, op: BinOp, kind: Kind) -> Result<(), Outcome>
    requires { (code : Code) × IsReady code (Bin op kind) state.old }
    ensures { Does (Bin op kind) state.old (result_err result) state.new }
{
    let given = value(op, kind, state.under(), state.top());
    let n = given.ok_or(Outcome::Trapped(TrapKind::ZeroDivisor))?;
    state.replace_two(n);
    Ok(())
}
