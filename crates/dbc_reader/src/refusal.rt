// Why a text is refused.

ghost use Rattle.std.specs.Prelude.{◌≡◌};

use std::alloc::{AllocError, AllocFailed};
use texts::NoMemory;
use thiserror::Error;

/// Why a text has no database.
#[derive(Clone, Copy, Debug, PartialEq, Eq, Error)]
pub enum DbcRefusal {
    /// The statement that begins in this line, counted from 1, has no spelling.
    #[error("line {line}: no statement of a database")]
    Text { line: u32 },
    /// In this line, counted from 1, a message's identifier or name, or a signal's name within a
    /// message, stands for the second time.
    #[error("line {line}: a name or an identifier for the second time")]
    Twice { line: u32 },
    /// The system gave no memory.
    #[error("no memory")]
    NoMemory,
}

/// Why a statement was not added to those before it.
#[derive(Clone, Copy)]
pub(crate) enum NotAdded {
    /// It gives a name or an identifier for the second time, in this line.
    Twice { line: u32 },
    /// The system gave no memory.
    NoMemory,
}

impl From<NoMemory> for NotAdded {
    ghost use Rattle.dbc_reader.specs.declared.refusal.NotAdded.TheVariants as not_added;

    ghost from_gives = { λ _ made. made ≡ not_added.NoMemory };

    fn from(_: NoMemory) -> NotAdded {
        NotAdded::NoMemory
    }
}

impl From<AllocError> for NotAdded {
    ghost use Rattle.dbc_reader.specs.declared.refusal.NotAdded.TheVariants as not_added;

    ghost from_gives = { λ _ made. made ≡ not_added.NoMemory };

    fn from(_: AllocError) -> NotAdded {
        NotAdded::NoMemory
    }
}

impl<T: Drop> From<AllocFailed<T>> for NotAdded {
    ghost use Rattle.dbc_reader.specs.declared.refusal.NotAdded.TheVariants as not_added;

    ghost from_gives = { λ _ made. made ≡ not_added.NoMemory };

    fn from(_: AllocFailed<T>) -> NotAdded {
        NotAdded::NoMemory
    }
}
