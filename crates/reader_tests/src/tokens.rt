// The tokens of sources that have one byte a token.

use capl_lexer::{Sign, Tok, Token, Word};
use std::alloc::Global;
use std::test::Fail;
use texts::Text;

/// The token that stands for a byte: a name for a small letter, a number for a digit, and else a sign or a
/// word.
fn token(alloc: Global, byte: u8) -> Result<Token, Fail> {
    let tok = match byte {
        b'a'..=b'z' => Tok::Name(Text::make(alloc, &[byte])?),
        b'0'..=b'9' => Tok::Num {
            value: Some(7),
            ext: false,
        },
        b'C' => Tok::Char(b'c'),
        b'Q' => Tok::Str(Text::make(alloc, b"q")?),
        b'T' => Tok::Word(Word::This),
        b'K' => Tok::Word(Word::Byte),
        b'X' => Tok::Word(Word::Const),
        b'M' => Tok::Word(Word::Message),
        b'W' => Tok::Word(Word::Timer),
        b'Z' => Tok::Word(Word::MsTimer),
        _ => Tok::Sign(sign(byte)),
    };
    Ok(Token {
        tok,
        from: 0,
        to: 0,
        line: 1,
        column: 1,
    })
}

/// The sign that stands for a byte.
fn sign(byte: u8) -> Sign {
    match byte {
        b'(' => Sign::OpenParen,
        b')' => Sign::CloseParen,
        b'[' => Sign::OpenBracket,
        b']' => Sign::CloseBracket,
        b'{' => Sign::OpenBrace,
        b'}' => Sign::CloseBrace,
        b'.' => Sign::Dot,
        b',' => Sign::Comma,
        b';' => Sign::Semi,
        b'?' => Sign::Question,
        b':' => Sign::Colon,
        b'=' => Sign::Assign,
        b'-' => Sign::Minus,
        b'*' => Sign::Star,
        b'&' => Sign::Amp,
        b'|' => Sign::Bar,
        b'I' => Sign::PlusPlus,
        _ => Sign::Plus,
    }
}

/// The tokens that stand for the bytes of a source.
pub(crate) fn tokens(alloc: Global, source: &str) -> Result<Vec<Token>, Fail> {
    let mut all = Vec::new(alloc);
    for byte in source.as_bytes() {
        all.push(token(alloc, *byte)?)?;
    }
    Ok(all)
}
