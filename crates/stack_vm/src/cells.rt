// The rows of instructions on cells.

ghost use Rattle.std.specs.Prelude.{◌≡◌, None};
ghost use Rattle.std.specs.Result.{result_err};
ghost use Rattle.bytecode.specs.declared.code.Code.{Code};
ghost use Rattle.bytecode.specs.declared.instr.Instr.TheVariants.{Load, Store, Check, Elem, SetElem};
ghost use Rattle.stack_vm.specs.Inside.Index.{index_of};
ghost use Rattle.stack_vm.specs.Inside.Step.{Does, DoesIn, IsReady};

use crate::state::State;
use bytecode::Code;
use int_kinds::wrap;
use run_effects::{Outcome, TrapKind};

/// Gives the number in a cell.
#[inline]
pub(crate) fn load(state: &mut State, cell: u32)
    requires { (code : Code) × IsReady code (Load cell) state.old }
    ensures { Does (Load cell) state.old None state.new }
{
    let n = state.cell(cell as usize);
    state.give(n);
}

/// Stores a number in a cell and gives what is stored.
#[inline]
pub(crate) fn store(state: &mut State, code: &Code, cell: u32)
    requires { IsReady code.now (Store cell) state.old }
    ensures { DoesIn code.now (Store cell) state.old None state.new }
{
    let kind = code.cells.as_slice()[cell as usize];
    let n = wrap(kind, state.top());
    state.set_cell(cell as usize, n);
    state.replace(n);
}

/// Ends the run where the top is no index below this length.
#[inline]
pub(crate) fn check(state: &mut State, len: u32) -> Result<(), Outcome>
    requires { (code : Code) × IsReady code (Check len) state.old }
    ensures { Does (Check len) state.old (result_err result) state.new }
{
    index(state.top(), len as usize)?;
    state.go_on();
    Ok(())
}

/// Gives the number of an element of an array.
#[inline]
pub(crate) fn element(state: &mut State, base: u32, len: u32) -> Result<(), Outcome>
    requires { (code : Code) × IsReady code (Elem base len) state.old }
    ensures { Does (Elem base len) state.old (result_err result) state.new }
{
    let i = index(state.top(), len as usize)?;
    let n = state.cell(base as usize + i);
    state.replace(n);
    Ok(())
}

/// Stores a number in an element of an array and gives what is stored.
#[inline]
pub(crate) fn set_element(
    state: &mut State,
    code: &Code,
    base: u32,
    len: u32,
) -> Result<(), Outcome>
    requires { IsReady code.now (SetElem base len) state.old }
    ensures { DoesIn code.now (SetElem base len) state.old (result_err result) state.new }
{
    let cell = base as usize + index(state.under(), len as usize)?;
    let kind = code.cells.as_slice()[cell];
    let n = wrap(kind, state.top());
    state.set_cell(cell, n);
    state.replace_two(n);
    Ok(())
}

/// A number as an index below a length. One that is none ends the run.
#[inline]
pub(crate) fn index(n: i128, len: usize) -> Result<usize, Outcome>
    ensures { result ≡ index_of n len }
{
    if n >= 0 && n < len as i128 {
        Ok(n as usize)
    } else {
        Err(Outcome::Trapped(TrapKind::Index))
    }
}
