// Of which sort expressions are.

use int_kinds::Kind;

/// Of which sort an expression is.
#[derive(Clone, Copy, Debug, PartialEq, Eq)]
pub enum Sort {
    /// A number of this kind.
    Number(Kind),
    /// An array of numbers of this kind.
    Array(Kind),
    /// A message, or the frame of a message procedure.
    Message,
    /// A timer.
    Timer,
    /// A text between quotes.
    Text,
    /// It gives nothing.
    Nothing,
    /// It breaks a rule, or a part of it that is needed is bad.
    Bad,
}
