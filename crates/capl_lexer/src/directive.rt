// What begins with `#`.

ghost use Rattle.std.specs.Prelude.{IfOk, MatchOption};
ghost use Rattle.capl_lexer.specs.Inside.Directive.{IsHash, HasNoInclude};
ghost use Rattle.capl_lexer.specs.Inside.Front.{IsTokenFront, HasNoToken};

use crate::byte_class::ByteClass;
use crate::front::Front;
use crate::token::Tok;
use std::alloc::Global;
use texts::{NoMemory, Text};

/// The token at the front of a text that begins with `#`, or None where no letter follows it.
pub(crate) fn directive(alloc: Global, text: &[u8]) -> Result<Option<Front>, NoMemory>
    requires { IsHash text.now }
    ensures { IfOk result (λ found.
        MatchOption found (HasNoToken text.now) (IsTokenFront text.now)) }
{
    let letters = ByteClass::Letter.run(&text[1..]);
    if letters == 0 {
        return Ok(None);
    }
    match include(alloc, text)? {
        Some(front) => Ok(Some(front)),
        None => Ok(Some(Front {
            tok: Tok::Directive,
            length: 1 + letters,
        })),
    }
}

/// `#include` and the name of a file at the front of the text, or None where they do not stand there.
fn include(alloc: Global, text: &[u8]) -> Result<Option<Front>, NoMemory>
    ensures { IfOk result (λ found. MatchOption found (HasNoInclude text.now) (IsTokenFront text.now)) }
{
    if !text.starts_with(b"#include") {
        return Ok(None);
    }
    let blanks = ByteClass::BlankInLine.run(&text[8..]);
    let opening = 8 + blanks;
    if !ByteClass::Quote.begins(&text[opening..]) {
        return Ok(None);
    }
    let rest = &text[opening + 1..];
    let count = ByteClass::NameByte.run(rest);
    if !ByteClass::Quote.begins(&rest[count..]) {
        return Ok(None);
    }
    Ok(Some(Front {
        tok: Tok::Include(Text::make(alloc, &rest[..count])?),
        length: opening + 1 + count + 1,
    }))
}
