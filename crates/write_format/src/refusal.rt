// Why a format is refused.

use texts::NoMemory;

/// Why a format is refused.
#[derive(Clone, Copy, Debug, PartialEq, Eq)]
pub enum FormatRefusal {
    /// The format or an argument is wrong.
    Wrong {
        /// The argument that is wrong, counted from 0, or `None` where the format is.
        arg: Option<usize>,
    },
    /// There was no memory.
    NoMemory,
}

impl From<NoMemory> for FormatRefusal {
    ghost use Rattle.std.specs.Prelude.{◌≡◌};
    ghost use Rattle.write_format.specs.declared.refusal.FormatRefusal.TheVariants.{NoMemory};

    ghost from_gives = { λ _ refusal. refusal ≡ NoMemory };

    fn from(_: NoMemory) -> FormatRefusal {
        FormatRefusal::NoMemory
    }
}
