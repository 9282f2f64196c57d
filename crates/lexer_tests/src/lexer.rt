// Texts with their tokens, and texts that are refused.

ghost use Rattle.std.specs.Prelude.{◌<◌, ◌^◌, length};

use capl_lexer::{LexRefusal, Sign, TOKEN_LIMIT, Tok, Token, Word, is_name, lex};
use std::alloc::Global;
use std::process::Abort;
use std::test::Fail;

/// What a token shall be.
#[derive(Clone, Copy)]
enum Expected<'a> {
    Name(&'a [u8]),
    Word(Word),
    Sign(Sign),
    Num(Option<u64>),
    Ext(Option<u64>),
    Float,
    Char(u8),
    Str(&'a [u8]),
    Include(&'a [u8]),
    Directive,
}

/// Whether the token is the expected one.
fn is_expected(tok: &Tok, expected: Expected<'_>) -> bool {
    match (tok, expected) {
        (Tok::Name(name), Expected::Name(bytes)) => name.bytes() == bytes,
        (Tok::Word(word), Expected::Word(other)) => *word == other,
        (Tok::Sign(sign), Expected::Sign(other)) => *sign == other,
        (Tok::Num { ext: false, value }, Expected::Num(other)) => *value == other,
        (Tok::Num { ext: true, value }, Expected::Ext(other)) => *value == other,
        (Tok::Char(value), Expected::Char(byte)) => *value == byte,
        (Tok::Str(text), Expected::Str(bytes)) => text.bytes() == bytes,
        (Tok::Include(name), Expected::Include(bytes)) => name.bytes() == bytes,
        (Tok::Float, Expected::Float) | (Tok::Directive, Expected::Directive) => true,
        _ => false,
    }
}

/// What a token shall be, where it begins and ends, its line and its column.
type Row<'a> = (Expected<'a>, u32, u32, u32, u32);

/// Each token is as expected, with its place, its line and its column.
fn expect(rt: &impl Abort, tokens: &[Token], expected: &[Row<'_>]) {
    assert!(rt; tokens.len() == expected.len());
    for (token, (tok, from, to, line, column)) in tokens.iter().zip(expected) {
        assert!(rt; is_expected(&token.tok, *tok));
        assert!(rt; token.from == *from && token.to == *to);
        assert!(rt; token.line == *line && token.column == *column);
    }
}

/// Texts with their tokens: what each is, where it begins and ends, its line and its column.
const TEXTS: [(&[u8], &[Row<'static>]); 6] = [
    (b"", &[]),
    (
        b"on start {\n\twrite(\"a b\");\n}",
        &[
            (Expected::Word(Word::On), 0, 2, 1, 1),
            (Expected::Name(b"start"), 3, 8, 1, 4),
            (Expected::Sign(Sign::OpenBrace), 9, 10, 1, 10),
            (Expected::Name(b"write"), 12, 17, 2, 2),
            (Expected::Sign(Sign::OpenParen), 17, 18, 2, 7),
            (Expected::Str(b"a b"), 18, 23, 2, 8),
            (Expected::Sign(Sign::CloseParen), 23, 24, 2, 13),
            (Expected::Sign(Sign::Semi), 24, 25, 2, 14),
            (Expected::Sign(Sign::CloseBrace), 26, 27, 3, 1),
        ],
    ),
    (
        b"0x1 0x 0xx 12x 123abc 00x1 0X1Fx 0xg 0xfF 18446744073709551615 18446744073709551616",
        &[
            (Expected::Num(Some(1)), 0, 3, 1, 1),
            (Expected::Ext(Some(0)), 4, 6, 1, 5),
            (Expected::Ext(Some(0)), 7, 9, 1, 8),
            (Expected::Name(b"x"), 9, 10, 1, 10),
            (Expected::Ext(Some(12)), 11, 14, 1, 12),
            (Expected::Num(Some(123)), 15, 18, 1, 16),
            (Expected::Name(b"abc"), 18, 21, 1, 19),
            (Expected::Ext(Some(0)), 22, 25, 1, 23),
            (Expected::Num(Some(1)), 25, 26, 1, 26),
            (Expected::Ext(Some(31)), 27, 32, 1, 28),
            (Expected::Ext(Some(0)), 33, 35, 1, 34),
            (Expected::Name(b"g"), 35, 36, 1, 36),
            (Expected::Num(Some(255)), 37, 41, 1, 38),
            (Expected::Num(Some(u64::MAX)), 42, 62, 1, 43),
            (Expected::Num(None), 63, 83, 1, 64),
        ],
    ),
    (
        b"\xEF\xBB\xBF;\r\n,",
        &[
            (Expected::Sign(Sign::Semi), 3, 4, 1, 4),
            (Expected::Sign(Sign::Comma), 6, 7, 2, 1),
        ],
    ),
    (
        b"1.5 1. 1.5.2 .5 0x1.5 1x.5 m.byte(1.)",
        &[
            (Expected::Float, 0, 3, 1, 1),
            (Expected::Float, 4, 6, 1, 5),
            (Expected::Float, 7, 10, 1, 8),
            (Expected::Sign(Sign::Dot), 10, 11, 1, 11),
            (Expected::Num(Some(2)), 11, 12, 1, 12),
            (Expected::Sign(Sign::Dot), 13, 14, 1, 14),
            (Expected::Num(Some(5)), 14, 15, 1, 15),
            (Expected::Num(Some(1)), 16, 19, 1, 17),
            (Expected::Sign(Sign::Dot), 19, 20, 1, 20),
            (Expected::Num(Some(5)), 20, 21, 1, 21),
            (Expected::Ext(Some(1)), 22, 24, 1, 23),
            (Expected::Sign(Sign::Dot), 24, 25, 1, 25),
            (Expected::Num(Some(5)), 25, 26, 1, 26),
            (Expected::Name(b"m"), 27, 28, 1, 28),
            (Expected::Sign(Sign::Dot), 28, 29, 1, 29),
            (Expected::Word(Word::Byte), 29, 33, 1, 30),
            (Expected::Sign(Sign::OpenParen), 33, 34, 1, 34),
            (Expected::Float, 34, 36, 1, 35),
            (Expected::Sign(Sign::CloseParen), 36, 37, 1, 37),
        ],
    ),
    (
        b"a//*\nb/*/ \n**/c/**/d/ *e /=//",
        &[
            (Expected::Name(b"a"), 0, 1, 1, 1),
            (Expected::Name(b"b"), 5, 6, 2, 1),
            (Expected::Name(b"c"), 14, 15, 3, 4),
            (Expected::Name(b"d"), 19, 20, 3, 9),
            (Expected::Sign(Sign::Slash), 20, 21, 3, 10),
            (Expected::Sign(Sign::Star), 22, 23, 3, 12),
            (Expected::Name(b"e"), 23, 24, 3, 13),
            (Expected::Sign(Sign::SlashAssign), 25, 27, 3, 15),
        ],
    ),
];

#[test]
fn texts_have_their_tokens(rt: HostRuntime) -> Result<(), Fail> {
    for (text, expected) in TEXTS {
        assert!(rt; text.len() < 200);
        let tokens = lex(rt.alloc(), text)?;
        expect(&rt, tokens.as_slice(), expected);
    }
    Ok(())
}

/// The text is this one token, from its first byte to its last.
fn expect_one(rt: &impl Abort, alloc: Global, text: &[u8], tok: Expected<'_>) -> Result<(), Fail>
    requires { length text.now < 2 ^ 32 }
{
    let tokens = lex(alloc, text)?;
    let [token] = tokens.as_slice() else {
        assert!(rt; false);
        return Ok(());
    };
    assert!(rt; is_expected(&token.tok, tok));
    assert!(rt; token.from == 0 && token.to as usize == text.len());
    Ok(())
}

/// The signs with their spellings.
const SIGNS: [(&[u8], Sign); 47] = [
    (b"{", Sign::OpenBrace),
    (b"}", Sign::CloseBrace),
    (b"(", Sign::OpenParen),
    (b")", Sign::CloseParen),
    (b"[", Sign::OpenBracket),
    (b"]", Sign::CloseBracket),
    (b";", Sign::Semi),
    (b",", Sign::Comma),
    (b":", Sign::Colon),
    (b"::", Sign::Scope),
    (b"?", Sign::Question),
    (b".", Sign::Dot),
    (b"$", Sign::Dollar),
    (b"@", Sign::At),
    (b"~", Sign::Tilde),
    (b"!", Sign::Bang),
    (b"=", Sign::Assign),
    (b"==", Sign::Equal),
    (b"!=", Sign::NotEqual),
    (b"<", Sign::Less),
    (b"<=", Sign::LessEqual),
    (b">", Sign::Greater),
    (b">=", Sign::GreaterEqual),
    (b"<<", Sign::ShiftLeft),
    (b">>", Sign::ShiftRight),
    (b"+", Sign::Plus),
    (b"-", Sign::Minus),
    (b"*", Sign::Star),
    (b"/", Sign::Slash),
    (b"%", Sign::Percent),
    (b"&", Sign::Amp),
    (b"|", Sign::Bar),
    (b"^", Sign::Caret),
    (b"&&", Sign::AndAnd),
    (b"||", Sign::OrOr),
    (b"++", Sign::PlusPlus),
    (b"--", Sign::MinusMinus),
    (b"+=", Sign::PlusAssign),
    (b"-=", Sign::MinusAssign),
    (b"*=", Sign::StarAssign),
    (b"/=", Sign::SlashAssign),
    (b"%=", Sign::PercentAssign),
    (b"&=", Sign::AmpAssign),
    (b"|=", Sign::BarAssign),
    (b"^=", Sign::CaretAssign),
    (b"<<=", Sign::ShiftLeftAssign),
    (b">>=", Sign::ShiftRightAssign),
];

#[test]
fn each_reserved_word_is_one(rt: HostRuntime) -> Result<(), Fail> {
    for word in Word::ALL {
        let spelling = word.spelling();
        assert!(rt; spelling.len() < 100);
        expect_one(&rt, rt.alloc(), spelling, Expected::Word(word))?;
    }
    Ok(())
}

#[test]
fn each_sign_is_one(rt: HostRuntime) -> Result<(), Fail> {
    for (spelling, sign) in SIGNS {
        assert!(rt; spelling.len() < 4);
        expect_one(&rt, rt.alloc(), spelling, Expected::Sign(sign))?;
    }
    Ok(())
}

/// Characters, strings, names of files and directives with what they stand for.
const QUOTED: [(&[u8], Expected<'static>); 18] = [
    (b"'a'", Expected::Char(b'a')),
    (b"'\"'", Expected::Char(b'"')),
    (b"'\xC8'", Expected::Char(0xC8)),
    (b"'\\''", Expected::Char(b'\'')),
    (b"'\\n'", Expected::Char(10)),
    (b"'\\x4'", Expected::Char(4)),
    (b"'\\xfF'", Expected::Char(255)),
    (b"\"\"", Expected::Str(b"")),
    (b"\"a'\t\xC8\"", Expected::Str(b"a'\t\xC8")),
    (
        b"\"\\n\\r\\t\\0\\\\\\\"\\'\"",
        Expected::Str(b"\n\r\t\0\\\"'"),
    ),
    (b"\"\\x41B\"", Expected::Str(b"AB")),
    (b"\"\\x4g\\x4\"", Expected::Str(b"\x04g\x04")),
    (b"#include\"a b\\c.cin\"", Expected::Include(b"a b\\c.cin")),
    (b"#include \t\x0B\x0C\r\"\"", Expected::Include(b"")),
    (b"#include", Expected::Directive),
    (b"#pragma", Expected::Directive),
    (b"#i", Expected::Directive),
    (b"_a9", Expected::Name(b"_a9")),
];

#[test]
fn escapes_are_read(rt: HostRuntime) -> Result<(), Fail> {
    for (text, tok) in QUOTED {
        assert!(rt; text.len() < 100);
        expect_one(&rt, rt.alloc(), text, tok)?;
    }
    Ok(())
}

/// Texts with their bad places.
const REFUSED: [(&[u8], u32, u32); 20] = [
    (b"on start { write(\"a); }", 1, 18),
    (b"/* *", 1, 1),
    (b"a\n\t /*/", 2, 3),
    (b"// \n/***", 2, 1),
    (b"\"a\nb\"", 1, 1),
    (b"\"a\\\"b", 1, 1),
    (b"\"\\a\"", 1, 1),
    (b"\"\\x\"", 1, 1),
    (b"\"\\", 1, 1),
    (b"''", 1, 1),
    (b"'ab'", 1, 1),
    (b"'\n'", 1, 1),
    (b"'a", 1, 1),
    (b"#include \"a\n\"", 1, 10),
    (b"#", 1, 1),
    (b"a #1", 1, 3),
    (b"x \xC8", 1, 3),
    (b"\xEF\xBB\xBF\xEF\xBB\xBF", 1, 4),
    (b"\xEF\xBB", 1, 1),
    (b"\xEF\xBB\xBF'\\", 1, 4),
];

#[test]
fn a_text_is_refused_at_its_bad_place(rt: HostRuntime) {
    for (text, line, column) in REFUSED {
        assert!(rt; text.len() < 100);
        let is_refused = matches!(
            lex(rt.alloc(), text),
            Err(LexRefusal::Bad { line: at_line, column: at_column })
                if at_line == line && at_column == column
        );
        assert!(rt; is_refused);
    }
}

/// So many semicolons and then this text, read.
fn read(alloc: Global, count: usize, text: &[u8]) -> Result<Result<usize, LexRefusal>, Fail> {
    let mut bytes = vec![in alloc; b';'; count]?;
    bytes.extend_from_slice(text)?;
    if bytes.len() > 400_000 {
        return Err("too long".into());
    }
    Ok(lex(alloc, &bytes).map(|tokens| tokens.len()))
}

#[test]
fn more_tokens_than_the_limit_are_refused(rt: HostRuntime) -> Result<(), Fail> {
    let most = read(rt.alloc(), TOKEN_LIMIT, b"")?;
    assert!(rt; matches!(most, Ok(count) if count == TOKEN_LIMIT));
    let many = read(rt.alloc(), TOKEN_LIMIT, b";")?;
    assert!(rt; matches!(many, Err(LexRefusal::Many)));
    let bad = read(rt.alloc(), TOKEN_LIMIT, b";`")?;
    assert!(rt;
        matches!(
            bad,
            Err(LexRefusal::Bad {
                line: 1,
                column: 300_002
            })
        )
    );
    Ok(())
}

#[test]
fn names_are_told_by_themselves(rt: HostRuntime) {
    assert!(rt; is_name(b"_a1"));
    for bytes in [b"".as_slice(), b"1a", b"a b", b"on"] {
        assert!(rt; !is_name(bytes));
    }
}
