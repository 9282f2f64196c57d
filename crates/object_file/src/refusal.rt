// Why no code is stored or loaded.

use texts::NoMemory;

/// Why no code is stored.
#[derive(Clone, Copy, Debug, PartialEq, Eq)]
pub enum StoreRefusal {
    /// A format is too long for a text: it, or a text among its arguments, has 2^32 bytes or more.
    TooLong,
    /// There was no memory.
    NoMemory,
}

impl From<NoMemory> for StoreRefusal {
    ghost use Rattle.std.specs.Prelude.{◌≡◌};
    ghost use Rattle.object_file.specs.declared.refusal.StoreRefusal.TheVariants.{NoMemory};

    ghost from_gives = { λ _ refusal. refusal ≡ NoMemory };

    fn from(_: NoMemory) -> StoreRefusal {
        StoreRefusal::NoMemory
    }
}

/// Why no code is loaded.
#[derive(Clone, Copy, Debug, PartialEq, Eq)]
pub enum LoadRefusal {
    /// The bytes are the text of no code.
    Bad,
    /// The bytes are the text of code that is not verified.
    Unverified {
        /// The first place whose rule fails, which is the number of instructions where it is a rule
        /// of the functions' places, of the number of depths or of the tables.
        place: u32,
    },
    /// There was no memory.
    NoMemory,
}
