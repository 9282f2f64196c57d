// Why there are no inputs.

use std::alloc::{AllocError, AllocFailed};
use texts::{Blame, NoMemory};

/// Why there are no inputs.
#[derive(Debug, Drop)]
pub enum InputRefusal {
    /// A file breaks a rule, and nothing that is looked at before does.
    Blamed(Blame),
    /// A read failed.
    Failed,
    /// There was no memory.
    NoMemory,
}

impl From<NoMemory> for InputRefusal {
    ghost use Rattle.std.specs.Prelude.{◌≡◌};
    ghost use Rattle.input_refusals.specs.declared.refusal.InputRefusal.TheVariants as refusal;

    ghost from_gives = { λ _ e. e ≡ refusal.NoMemory };

    fn from(_: NoMemory) -> InputRefusal {
        InputRefusal::NoMemory
    }
}

impl From<AllocError> for InputRefusal {
    ghost use Rattle.std.specs.Prelude.{◌≡◌};
    ghost use Rattle.input_refusals.specs.declared.refusal.InputRefusal.TheVariants as refusal;

    ghost from_gives = { λ _ e. e ≡ refusal.NoMemory };

    fn from(_: AllocError) -> InputRefusal {
        InputRefusal::NoMemory
    }
}

impl<T: Drop> From<AllocFailed<T>> for InputRefusal {
    ghost use Rattle.std.specs.Prelude.{◌≡◌};
    ghost use Rattle.input_refusals.specs.declared.refusal.InputRefusal.TheVariants as refusal;

    ghost from_gives = { λ _ e. e ≡ refusal.NoMemory };

    fn from(_: AllocFailed<T>) -> InputRefusal {
        InputRefusal::NoMemory
    }
}
