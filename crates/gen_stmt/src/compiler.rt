// The compiler.

ghost use Rattle.std.specs.Prelude.{◌≡◌, ◌↔◌, ◌<◌, ◌≤◌, ◌⊎◌, IfOk, IsErrOf};
ghost use Rattle.capl_tree.specs.Weight.{saturated, weight};
ghost use Rattle.typed_tree.specs.Size.{size};
ghost use Rattle.typed_tree.specs.Sound.{IsSound};
ghost use Rattle.code_listing.specs.Program.{IsCodeOf};
ghost use Rattle.code_meaning.specs.Ending.{DoesWhatItMeans};
ghost use Rattle.gen_stmt.specs.Cells.{cell_count};

use crate::program::make_code;
use bytecode::{Verified, VerifyRefusal, verify};
use capl_tree::{Program, weight_of};
use code_meaning::laws::code_means_its_tree;
use code_verified::laws::code_is_verified;
use std::alloc::Global;
use texts::NoMemory;
use typed_tree::Typed;

/// Why a program is not compiled.
#[derive(Clone, Copy, Debug, PartialEq, Eq)]
pub enum CompileRefusal {
    /// Its cells or its weight exceed 1,000,000.
    Size,
    /// There was no memory.
    NoMemory,
}

impl From<NoMemory> for CompileRefusal {
    ghost use Rattle.std.specs.Prelude.{◌≡◌};
    ghost use Rattle.gen_stmt.specs.declared.compiler.CompileRefusal.TheVariants.{NoMemory};

    ghost from_gives = { λ _ refusal. refusal ≡ NoMemory };

    fn from(_: NoMemory) -> CompileRefusal {
        CompileRefusal::NoMemory
    }
}

/// The most cells, and the greatest weight, of a program that is compiled.
const MOST: u64 = 1_000_000;

// The cells of the event that a procedure is run for; they are no cells of the program.
const EVENT_CELLS: u64 = 15;

/// How many cells a typed program has, the cells of the event left out: one for each number of its
/// variables and parameters, also in arrays and messages, and one for each timer; or 2^64 - 1 where it
/// has more.
pub fn cells_of(typed: &Typed) -> u64
    ensures { result ≡ saturated (cell_count typed.now) }
{
    let cells = (typed.cells.len() as u64).saturating_sub(EVENT_CELLS);
    cells.saturating_add(typed.timers.len() as u64)
}

/// Compiles a typed program: its code is verified, and does what the program means. The program's
/// source is asked for its weight alone, which bounds the code.
///
/// Takes time and memory linear in the code and in the tables, but for sorting the selectors and the timers
/// of the event procedures, and for the time of expressions, whose code counts once for each level of `&&`,
/// `||` and `?:`.
pub fn compile(alloc: Global, program: &Program, typed: &Typed) -> Result<Verified, CompileRefusal>
    requires sound { IsSound typed.now }
    requires bounded { size typed.now ≤ weight program.now }
    ensures size { IsErrOf result CompileRefusal.Size
        ↔ ((1000000 < cell_count typed.now) ⊎ (1000000 < weight program.now)) }
    ensures code { IfOk result (IsCodeOf typed.now) }
    ensures means { IfOk result (DoesWhatItMeans typed.now) }
{
    compile_weighed(alloc, weight_of(program), typed)
}

/// The same as [`compile`] of a program of this weight, whose source need not be there any more. A weight
/// above 1,000,000 is too great, whatever it is.
pub fn compile_weighed(
    alloc: Global,
    weight: u64,
    typed: &Typed,
) -> Result<Verified, CompileRefusal>
    requires sound { IsSound typed.now }
    requires bounded { weight ≤ 1000000 → size typed.now ≤ weight }
    ensures size { IsErrOf result CompileRefusal.Size
        ↔ ((1000000 < cell_count typed.now) ⊎ (1000000 < weight)) }
    ensures code { IfOk result (IsCodeOf typed.now) }
    ensures means { IfOk result (DoesWhatItMeans typed.now) }
{
    if cells_of(typed) > MOST || weight > MOST {
        return Err(CompileRefusal::Size);
    }
    let verified = verified_code(alloc, typed)?;
    Ok(verified)
}

/// The code of a typed program, verified.
fn verified_code(alloc: Global, typed: &Typed) -> Result<Verified, NoMemory>
    requires sound { IsSound typed.now }
    requires size { size typed.now ≤ 1000000 }
    ensures code { IfOk result (IsCodeOf typed.now) }
    ensures means { IfOk result (DoesWhatItMeans typed.now) }
{
    let code = make_code(alloc, typed)?;
    code_is_verified();
    code_means_its_tree();
    match verify(alloc, code) {
        Ok(verified) => Ok(verified),
        // No rule fails for this code.
        Err(VerifyRefusal::Unverified { .. }) => unreachable!(),
        Err(VerifyRefusal::NoMemory) => Err(NoMemory),
    }
}
