// The compiler for any typed program.

ghost use Rattle.std.specs.Prelude.{◌<◌, ◌≤◌, ◌⊎◌, IfOk, IsErrOf, OnOk};
ghost use Rattle.capl_tree.specs.Weight.{weight};
ghost use Rattle.typed_tree.specs.Size.{size};
ghost use Rattle.typed_tree.specs.Sound.{IsSound};
ghost use Rattle.code_listing.specs.Program.{IsCodeOf};
ghost use Rattle.code_meaning.specs.Ending.{DoesWhatItMeans};
ghost use Rattle.gen_stmt.specs.Cells.{cell_count};

use bytecode::Verified;
use capl_tree::{Program, weight_of};
use code_size::size_of;
use gen_stmt::{CompileRefusal, compile};
use sound_check::is_sound;
use std::alloc::Global;
use texts::NoMemory;
use typed_tree::Typed;

/// Why a typed program is not compiled.
#[derive(Clone, Copy, Debug, PartialEq, Eq)]
pub enum CheckedRefusal {
    /// It is not sound.
    Unsound,
    /// Its cells, or the weight of its source, exceed 1,000,000.
    Size,
    /// Its code has more instructions than its source weighs.
    Outweighs,
    /// There was no memory.
    NoMemory,
}

impl From<NoMemory> for CheckedRefusal {
    ghost use Rattle.std.specs.Prelude.{◌≡◌};
    ghost use Rattle.compiler_tests.specs.declared.checked.CheckedRefusal.TheVariants.{NoMemory};

    ghost from_gives = { λ _ refusal. refusal ≡ NoMemory };

    fn from(_: NoMemory) -> CheckedRefusal {
        CheckedRefusal::NoMemory
    }
}

/// The greatest weight of a source that is compiled.
const MOST: u64 = 1_000_000;

/// Compiles a typed program of which nothing is known: it is asked for soundness and size first.
pub fn compile_checked(
    alloc: Global,
    program: &Program,
    typed: &Typed,
) -> Result<Verified, CheckedRefusal>
    ensures sound { OnOk result (IsSound typed.now) }
    ensures code { IfOk result (IsCodeOf typed.now) }
    ensures means { IfOk result (DoesWhatItMeans typed.now) }
    ensures unsound { IsErrOf result CheckedRefusal.Unsound → ¬ (IsSound typed.now) }
    ensures size { IsErrOf result CheckedRefusal.Size
        → (1000000 < cell_count typed.now) ⊎ (1000000 < weight program.now) }
    ensures outweighs { IsErrOf result CheckedRefusal.Outweighs → weight program.now < size typed.now }
{
    if !is_sound(alloc, typed)? {
        return Err(CheckedRefusal::Unsound);
    }
    let weight = weight_of(program);
    if weight > MOST {
        return Err(CheckedRefusal::Size);
    }
    if size_of(alloc, typed)? > weight {
        return Err(CheckedRefusal::Outweighs);
    }
    match compile(alloc, program, typed) {
        Ok(code) => Ok(code),
        Err(CompileRefusal::Size) => Err(CheckedRefusal::Size),
        Err(CompileRefusal::NoMemory) => Err(CheckedRefusal::NoMemory),
    }
}
