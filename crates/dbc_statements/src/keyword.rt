// Keywords.

ghost use Rattle.std.specs.Prelude.{◌≡◌};
ghost use Rattle.std.specs.List.{list_all};
ghost use Rattle.dbc_statements.specs.Statement as spec;

/// The keywords, by how a statement goes on behind them.
#[derive(Clone, Copy)]
pub(crate) enum Keyword {
    /// `VERSION`.
    Version,
    /// `NS_`.
    NewSymbols,
    /// `BS_`.
    BitTiming,
    /// `BU_`.
    Nodes,
    /// `BO_`.
    Message,
    /// `SG_`.
    Signal,
    /// `SIG_VALTYPE_`.
    ValueType,
    /// Any other.
    Other,
}

/// The keyword of a word, or None where it is none.
pub(crate) fn keyword_of(word: &[u8]) -> Option<Keyword>
    ensures { result ≡ spec.keyword_of word.now }
{
    if !is_keyword(word) {
        None
    } else if word == b"VERSION".as_slice() {
        Some(Keyword::Version)
    } else if word == b"NS_".as_slice() {
        Some(Keyword::NewSymbols)
    } else if word == b"BS_".as_slice() {
        Some(Keyword::BitTiming)
    } else if word == b"BU_".as_slice() {
        Some(Keyword::Nodes)
    } else if word == b"BO_".as_slice() {
        Some(Keyword::Message)
    } else if word == b"SG_".as_slice() {
        Some(Keyword::Signal)
    } else if word == b"SIG_VALTYPE_".as_slice() {
        Some(Keyword::ValueType)
    } else {
        Some(Keyword::Other)
    }
}

/// Whether a word is a keyword: `VERSION`, or upper-case letters and `_` with a `_` at the end.
fn is_keyword(word: &[u8]) -> bool
    ensures { result ≡ spec.is_keyword word.now }
{
    word == b"VERSION".as_slice() || word.ends_with(b"_") && is_upper(word)
}

/// Whether a word has upper-case letters and `_` alone.
fn is_upper(word: &[u8]) -> bool
    ensures { result ≡ list_all spec.is_upper word.now }
{
    word.iter().all(
        |byte: &u8| -> bool
            ensures { result ≡ spec.is_upper byte.now }
        { matches!(byte, b'A'..=b'Z' | b'_') },
    )
}
