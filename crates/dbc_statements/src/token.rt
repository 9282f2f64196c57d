// The tokens of a text.

/// A token of a database's text.
#[derive(Clone, Copy)]
pub(crate) enum Token<'a> {
    /// A letter or `_`, and then letters, digits and `_`.
    Word(&'a [u8]),
    /// Digits with perhaps a sign, a point and an exponent.
    Number(&'a [u8]),
    /// What stands between two `"`, with them.
    Quoted,
    /// Any other byte.
    Byte(u8),
}
