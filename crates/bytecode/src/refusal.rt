// Why code is not verified.

use crate::code::Code;
use texts::NoMemory;

/// Why code is not verified.
#[derive(Debug, Drop)]
pub enum VerifyRefusal {
    /// A rule of the verifier fails.
    Unverified {
        /// The first place whose rule fails, which is the number of instructions where it is a rule
        /// of the functions' places, of the number of depths or of the tables.
        place: u32,
        /// The code, unchanged.
        code: Code,
    },
    /// There was no memory.
    NoMemory,
}

impl From<NoMemory> for VerifyRefusal {
    ghost use Rattle.std.specs.Prelude.{◌≡◌};
    ghost use Rattle.bytecode.specs.declared.refusal.VerifyRefusal.TheVariants.{NoMemory};

    ghost from_gives = { λ _ refusal. refusal ≡ NoMemory };

    fn from(_: NoMemory) -> VerifyRefusal {
        VerifyRefusal::NoMemory
    }
}
