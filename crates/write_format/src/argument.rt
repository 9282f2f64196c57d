// What is known of an argument of `write` before the program runs.

ghost use Rattle.std.specs.Prelude.{◌≡◌, IfOk};

use int_kinds::Kind;
use std::alloc::Global;
use texts::{NoMemory, Text};

/// What is known of an argument of `write` before the program runs.
#[derive(Debug, Drop)]
pub enum ArgKind {
    /// A number of this kind.
    Number(Kind),
    /// An array of characters in neighbouring cells.
    Chars {
        /// The first cell.
        base: u32,
        /// How many cells there are.
        len: u32,
    },
    /// A text that stands in the source.
    Str(Text),
}

impl ArgKind {
    /// The same argument once more.
    pub(crate) fn copy(&self, alloc: Global) -> Result<ArgKind, NoMemory>
        ensures { IfOk result (λ arg. arg ≡ self.now) }
    {
        match self {
            ArgKind::Number(kind) => Ok(ArgKind::Number(*kind)),
            ArgKind::Chars { base, len } => Ok(ArgKind::Chars {
                base: *base,
                len: *len,
            }),
            ArgKind::Str(text) => Ok(ArgKind::Str(Text::make(alloc, text.bytes())?)),
        }
    }
}
