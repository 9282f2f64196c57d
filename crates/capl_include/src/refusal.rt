// Why a program has no files.

ghost use Rattle.std.specs.Prelude.{◌≡◌};
ghost use Rattle.capl_include.specs.declared.refusal.ExpandRefusal.TheVariants.{NoMemory};

use std::alloc::AllocFailed;
use texts::{Blame, NoMemory};

/// Why a program was not expanded.
#[derive(Debug, Drop)]
pub enum ExpandRefusal {
    /// A file breaks a rule here, and nothing met before does: E29 for a file met when there are 32, E07
    /// for a missing file, F02 for one of more than 1 MiB, E01 where no token begins, E04 for more than
    /// 300,000 tokens in the files met so far, and E08 for a name that is none.
    Blamed(Blame),
    /// A read failed.
    Failed,
    /// There was no memory.
    NoMemory,
}

impl From<NoMemory> for ExpandRefusal {
    ghost from_gives = { λ _ refusal. refusal ≡ NoMemory };

    fn from(_: NoMemory) -> ExpandRefusal {
        ExpandRefusal::NoMemory
    }
}

impl<T: Drop> From<AllocFailed<T>> for ExpandRefusal {
    ghost from_gives = { λ _ refusal. refusal ≡ NoMemory };

    fn from(_: AllocFailed<T>) -> ExpandRefusal {
        ExpandRefusal::NoMemory
    }
}
