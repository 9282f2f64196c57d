// How reserved words are written.

ghost use Rattle.std.specs.Prelude.{◌≡◌};
ghost use Rattle.items.specs.Search.{Finds};
ghost use Rattle.capl_lexer.specs.Spelling.{word_spelling};
ghost use Rattle.capl_lexer.specs.Inside.Words.{words_beginning_as};

use crate::token::Word;

/// The reserved word that the bytes spell, or None where they spell none. Few words begin with one letter, so
/// that a name is told from them at once.
pub(crate) fn reserved_word(bytes: &[u8]) -> Option<Word>
    ensures { Finds (λ word. bytes.now ≡ word_spelling word) result }
{
    words_beginning_as(bytes)
        .iter()
        .copied()
        .find(|word| word.spelling() == bytes)
}

/// The reserved words that begin with the first of these bytes.
fn words_beginning_as(bytes: &[u8]) -> &'static [Word]
    ensures { result.now ≡ words_beginning_as bytes.now }
{
    let Some(first) = bytes.first() else {
        return &[];
    };
    match *first {
        b'b' => &[Word::Break, Word::Byte],
        b'c' => &[Word::Case, Word::Char, Word::Const, Word::Continue],
        b'd' => &[
            Word::Do,
            Word::Double,
            Word::Dword,
            Word::Default,
            Word::DiagRequest,
            Word::DiagResponse,
        ],
        b'e' => &[Word::Else, Word::Enum, Word::EthernetPacket],
        b'f' => &[Word::For, Word::Float, Word::FrFrame],
        b'i' => &[Word::If, Word::Int, Word::Int64, Word::Includes],
        b'l' => &[Word::Long, Word::LinFrame],
        b'm' => &[Word::Message, Word::MsTimer],
        b'o' => &[Word::On],
        b'q' => &[Word::Qword],
        b'r' => &[Word::Return],
        b's' => &[Word::Switch, Word::Struct, Word::Stack],
        b't' => &[Word::This, Word::Timer, Word::Testcase, Word::Testfunction],
        b'v' => &[Word::Void, Word::Variables],
        b'w' => &[Word::Word, Word::While],
        _ => &[],
    }
}
