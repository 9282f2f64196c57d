// Why a text has no tokens.

ghost use Rattle.std.specs.Prelude.{◌≡◌};
ghost use Rattle.capl_lexer.specs.declared.refusal.LexRefusal.TheVariants.{NoMemory};

use std::alloc::AllocFailed;
use texts::NoMemory;

/// Why a text was not read.
#[derive(Debug, Drop)]
pub enum LexRefusal {
    /// No blank, comment or token begins at this line and column, both counted from 1. A column counts
    /// bytes.
    Bad {
        /// The line.
        line: u32,
        /// The column.
        column: u32,
    },
    /// All is blanks, comments and tokens, and there are more than 300,000 tokens.
    Many,
    /// There was no memory for the tokens.
    NoMemory,
}

impl From<NoMemory> for LexRefusal {
    ghost from_gives = { λ _ refusal. refusal ≡ NoMemory };

    fn from(_: NoMemory) -> LexRefusal {
        LexRefusal::NoMemory
    }
}

impl<T: Drop> From<AllocFailed<T>> for LexRefusal {
    ghost from_gives = { λ _ refusal. refusal ≡ NoMemory };

    fn from(_: AllocFailed<T>) -> LexRefusal {
        LexRefusal::NoMemory
    }
}
