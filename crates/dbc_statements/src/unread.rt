// Why no statement was read.

ghost use Rattle.std.specs.Prelude.{◌≡◌};

use texts::NoMemory;

/// Why no statement, or no part of one, was read.
#[derive(Clone, Copy, Debug, PartialEq, Eq)]
pub enum Unread {
    /// It is not spelled here.
    NotSpelled,
    /// The system gave no memory.
    NoMemory,
}

impl From<NoMemory> for Unread {
    ghost use Rattle.dbc_statements.specs.declared.unread.Unread.TheVariants as unread;

    ghost from_gives = { λ _ made. made ≡ unread.NoMemory };

    fn from(_: NoMemory) -> Unread {
        Unread::NoMemory
    }
}
