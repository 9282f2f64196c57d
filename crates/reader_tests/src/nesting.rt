// How deep sources nest.

use capl_lexer::{Sign, Tok, Token, Word};
use capl_nesting::is_deeper_than;
use std::alloc::Global;
use std::test::Fail;

/// The token that this piece of a source is; a number where it is none of these.
fn tok_of(piece: &str) -> Tok {
    match piece.as_bytes() {
        b"(" => Tok::Sign(Sign::OpenParen),
        b")" => Tok::Sign(Sign::CloseParen),
        b"[" => Tok::Sign(Sign::OpenBracket),
        b"]" => Tok::Sign(Sign::CloseBracket),
        b"{" => Tok::Sign(Sign::OpenBrace),
        b"}" => Tok::Sign(Sign::CloseBrace),
        b";" => Tok::Sign(Sign::Semi),
        b"," => Tok::Sign(Sign::Comma),
        b"=" => Tok::Sign(Sign::Assign),
        b"if" => Tok::Word(Word::If),
        b"else" => Tok::Word(Word::Else),
        b"while" => Tok::Word(Word::While),
        b"byte" => Tok::Word(Word::Byte),
        _ => Tok::Num {
            value: Some(1),
            ext: false,
        },
    }
}

/// The tokens of a source that has these pieces, between blanks, so many times.
fn repeated(alloc: Global, source: &str, count: usize) -> Result<Vec<Token>, Fail> {
    let mut tokens = Vec::new(alloc);
    for _ in 0..count {
        for piece in source.split_whitespace() {
            tokens.push(Token {
                tok: tok_of(piece),
                from: 0,
                to: 0,
                line: 1,
                column: 1,
            })?;
        }
    }
    Ok(tokens)
}

#[test]
fn tokens_nest_as_deep_as_the_scan_says(rt: HostRuntime) -> Result<(), Fail> {
    let cases = [
        ("(", 199, 199),
        ("while ( 1 ) ;", 199, 200),
        ("{ while ( 1 ) ; }", 7, 3),
        ("if ( 1 ) ; else", 4, 5),
        ("( byte )", 5, 5),
        ("[ 1 ]", 3, 3),
        ("( 1 )", 9, 1),
        ("1 = 1 ,", 6, 1),
        ("1 = 1 ;", 6, 1),
        ("1 = 1", 6, 6),
    ];
    for (source, count, nesting) in cases {
        let tokens = repeated(rt.alloc(), source, count)?;
        assert!(rt;
            !is_deeper_than(rt.alloc(), tokens.as_slice(), nesting)?,
            "{source}"
        );
        assert!(rt;
            is_deeper_than(rt.alloc(), tokens.as_slice(), nesting - 1)?,
            "{source}"
        );
    }
    Ok(())
}
