// Cells with their first numbers, one behind the other.

ghost use Rattle.std.specs.Prelude.{◌+◌, ◌<◌, ◌^◌, ◌∷◌, [], length, map, pos, OnOk};
ghost use Rattle.type_starts.specs.Starts.{Goes};

use texts::NoMemory;

/// The cells so far that begin with another number than 0.
#[derive(Drop)]
pub(crate) struct Starts {
    /// The next cell.
    pub(crate) cell: u32,
    /// The cells, with their numbers.
    pub(crate) all: Vec<(u32, i128)>,
}

/// Puts a number in the next cell.
#[tactic(auto, using(crate::proofs::StartLemmas::form))]
pub(crate) fn push(starts: &mut Starts, n: i128) -> Result<(), NoMemory>
    requires { starts.old.cell + 1 < 2 ^ 32 }
    ensures { OnOk result (Goes starts.old starts.new (n ∷ [])) }
{
    if n != 0 {
        starts.all.push((starts.cell, n))?;
    }
    starts.cell += 1;
    Ok(())
}

/// Puts bytes in the next cells.
pub(crate) fn push_bytes(starts: &mut Starts, bytes: &[u8]) -> Result<(), NoMemory>
    requires { starts.old.cell + length bytes.now < 2 ^ 32 }
    ensures { OnOk result (Goes starts.old starts.new (map pos bytes.now)) }
{
    for byte in bytes {
        push(starts, i128::from(*byte))?;
    }
    Ok(())
}

/// Puts natural numbers in the next cells.
pub(crate) fn push_naturals(starts: &mut Starts, numbers: &[u64]) -> Result<(), NoMemory>
    requires { starts.old.cell + length numbers.now < 2 ^ 32 }
    ensures { OnOk result (Goes starts.old starts.new (map pos numbers.now)) }
{
    for n in numbers {
        push(starts, i128::from(*n))?;
    }
    Ok(())
}
