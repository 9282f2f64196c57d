// The token at the front of a text.

ghost use Rattle.std.specs.Prelude.{IfOk, MatchOption};
ghost use Rattle.capl_lexer.specs.Inside.ByteClass.{IsFirstInClass};
ghost use Rattle.capl_lexer.specs.Inside.Front.{IsTokenFront, HasNoToken};

use crate::byte_class::ByteClass;
use crate::directive::directive;
use crate::number::number;
use crate::quoted::{character, string};
use crate::signs::sign;
use crate::token::Tok;
use crate::words::reserved_word;
use std::alloc::Global;
use texts::{NoMemory, Text};

/// A token at the front of a text.
#[derive(Debug, Drop)]
pub(crate) struct Front {
    /// What stands there.
    pub tok: Tok,
    /// How many bytes spell it.
    pub length: usize,
}

/// The longest token at the front of the text, or None where none stands there. Takes time and
/// memory linear in the token's bytes.
pub(crate) fn token_front(alloc: Global, text: &[u8]) -> Result<Option<Front>, NoMemory>
    ensures { IfOk result (λ found.
        MatchOption found (HasNoToken text.now) (IsTokenFront text.now)) }
{
    let Some(first) = text.first() else {
        return Ok(None);
    };
    match *first {
        b'A'..=b'Z' | b'a'..=b'z' | b'_' => Ok(Some(name_or_word(alloc, text)?)),
        b'0'..=b'9' => Ok(Some(number(text))),
        b'"' => string(alloc, text),
        b'\'' => Ok(character(text)),
        b'#' => directive(alloc, text),
        _ => Ok(sign(text)),
    }
}

/// The name or the reserved word at the front of a text that begins as one.
fn name_or_word(alloc: Global, text: &[u8]) -> Result<Front, NoMemory>
    requires { IsFirstInClass ByteClass.NameStart text.now }
    ensures { IfOk result (IsTokenFront text.now) }
{
    let length = ByteClass::NamePart.run(text);
    let spelling = &text[..length];
    let tok = match reserved_word(spelling) {
        Some(word) => Tok::Word(word),
        None => Tok::Name(Text::make(alloc, spelling)?),
    };
    Ok(Front { tok, length })
}
