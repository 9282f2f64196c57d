// Why tokens have no tree.

ghost use Rattle.std.specs.Prelude.{◌≡◌};
ghost use Rattle.capl_parser.specs.declared.refusal.ParseRefusal.TheVariants.{NoMemory};

use texts::NoMemory;

/// Why tokens have no tree.
#[derive(Debug, Drop)]
pub enum ParseRefusal {
    /// They nest more than 200 deep.
    Deep,
    /// They nest at most 200 deep, and no tree is spelled so. With the token of this number, counted from 0,
    /// they begin no tree any more; it is the number of the tokens where all of them begin one.
    NotSpelled { token: u32 },
    /// There was no memory for the tree.
    NoMemory,
}

impl From<NoMemory> for ParseRefusal {
    ghost from_gives = { λ _ refusal. refusal ≡ NoMemory };

    fn from(_: NoMemory) -> ParseRefusal {
        ParseRefusal::NoMemory
    }
}
