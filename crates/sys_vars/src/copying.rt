// Tokens once more.

ghost use Rattle.std.specs.Prelude.{◌≡◌, IfOk};
ghost use Rattle.sys_vars.specs.Lowering.{in_place};

use capl_lexer::{Tok, Token};
use std::alloc::Global;
use texts::{NoMemory, Text};

/// The same token once more. Takes time and memory linear in its text.
pub(crate) fn copy_of(alloc: Global, token: &Token) -> Result<Token, NoMemory>
    ensures { IfOk result (λ copy. copy ≡ token.now) }
{
    let tok = tok_copy(alloc, &token.tok)?;
    Ok(in_place(token, tok))
}

/// Another token at the place of this one.
pub(crate) fn in_place(token: &Token, tok: Tok) -> Token
    ensures { result ≡ in_place token.now tok }
{
    Token {
        tok,
        from: token.from,
        to: token.to,
        line: token.line,
        column: token.column,
    }
}

/// What a token is, once more.
fn tok_copy(alloc: Global, tok: &Tok) -> Result<Tok, NoMemory>
    ensures { IfOk result (λ copy. copy ≡ tok.now) }
{
    match tok {
        Tok::Name(text) => Ok(Tok::Name(Text::make(alloc, text.bytes())?)),
        Tok::Word(word) => Ok(Tok::Word(*word)),
        Tok::Sign(sign) => Ok(Tok::Sign(*sign)),
        Tok::Num { ext, value } => Ok(Tok::Num {
            value: *value,
            ext: *ext,
        }),
        Tok::Float => Ok(Tok::Float),
        Tok::Char(byte) => Ok(Tok::Char(*byte)),
        Tok::Str(text) => Ok(Tok::Str(Text::make(alloc, text.bytes())?)),
        Tok::Include(text) => Ok(Tok::Include(Text::make(alloc, text.bytes())?)),
        Tok::Directive => Ok(Tok::Directive),
    }
}
