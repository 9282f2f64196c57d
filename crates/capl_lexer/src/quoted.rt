// Strings and characters, and what stands between their quotes.

ghost use Rattle.std.specs.Prelude.{◌≡◌, ◌<◌, ◌∷◌, IfOk, MatchOption};
ghost use Rattle.text_parts.specs.Number.{IsHexDigit, digit_value};
ghost use Rattle.capl_lexer.specs.Spelling.{escaped};
ghost use Rattle.capl_lexer.specs.Inside.ByteClass.{IsFirstInClass};
ghost use Rattle.capl_lexer.specs.Inside.Front.{IsTokenFront, HasNoToken};
ghost use Rattle.capl_lexer.specs.Inside.Item.{IsItemFront, HasNoItem, IsEscapeFront, HasNoEscape};

use crate::byte_class::ByteClass;
use crate::front::Front;
use crate::token::Tok;
use std::alloc::Global;
use texts::{NoMemory, Text};

/// A byte of a string or a character: what it is, and how many bytes stand for it.
#[derive(Clone, Copy, Debug)]
pub(crate) struct Item {
    /// The byte.
    pub value: u8,
    /// How many bytes stand for it.
    pub length: usize,
}

/// The string at the front of a text that begins with a quote, or None where none stands there.
pub(crate) fn string(alloc: Global, text: &[u8]) -> Result<Option<Front>, NoMemory>
    requires { IsFirstInClass ByteClass.Quote text.now }
    ensures { IfOk result (λ found.
        MatchOption found (HasNoToken text.now) (IsTokenFront text.now)) }
{
    let mut values = Vec::new(alloc);
    let mut place = 1;
    while !ByteClass::Quote.begins(&text[place..]) {
        let Some(item) = item_front(&text[place..], ByteClass::Plain) else {
            return Ok(None);
        };
        values.push(item.value)?;
        place += item.length;
    }
    Ok(Some(Front {
        tok: Tok::Str(Text::from_list(alloc, values)?),
        length: place + 1,
    }))
}

/// The character at the front of a text that begins with an apostrophe, or None where none stands
/// there.
pub(crate) fn character(text: &[u8]) -> Option<Front>
    requires { IsFirstInClass ByteClass.Apostrophe text.now }
    ensures { MatchOption result (HasNoToken text.now) (IsTokenFront text.now) }
{
    let item = item_front(&text[1..], ByteClass::PlainInChar)?;
    let length = 1 + item.length;
    if !ByteClass::Apostrophe.begins(&text[length..]) {
        return None;
    }
    Some(Front {
        tok: Tok::Char(item.value),
        length: length + 1,
    })
}

/// The byte that stands for itself, or the escape, at the front of the text.
#[inline(always)]
fn item_front(text: &[u8], plain: ByteClass) -> Option<Item>
    ensures { MatchOption result (HasNoItem plain text.now) (IsItemFront plain text.now) }
{
    let (first, rest) = text.split_first()?;
    if plain.contains(*first) {
        Some(Item {
            value: *first,
            length: 1,
        })
    } else if *first == b'\\' {
        escape(rest)
    } else {
        None
    }
}

/// The escape whose `\` stands before the text, or None where it is no escape.
fn escape(text: &[u8]) -> Option<Item>
    ensures { MatchOption result (HasNoEscape (92 ∷ text.now)) (IsEscapeFront (92 ∷ text.now)) }
{
    let (letter, rest) = text.split_first()?;
    if *letter == b'x' {
        hexadecimal_escape(rest)
    } else {
        escaped_byte(*letter).map(|value| Item { value, length: 2 })
    }
}

/// The byte that `\` and this byte stand for together, or None where they are no escape.
fn escaped_byte(letter: u8) -> Option<u8>
    ensures { result ≡ escaped letter }
{
    match letter {
        b'n' => Some(b'\n'),
        b'r' => Some(b'\r'),
        b't' => Some(b'\t'),
        b'0' => Some(0),
        b'\\' | b'"' | b'\'' => Some(letter),
        _ => None,
    }
}

/// The escape whose `\x` stands before the text, or None where no digit follows it.
fn hexadecimal_escape(text: &[u8]) -> Option<Item>
    ensures { MatchOption result
        (HasNoEscape (92 ∷ 120 ∷ text.now)) (IsEscapeFront (92 ∷ 120 ∷ text.now)) }
{
    let (first, rest) = text.split_first()?;
    if !ByteClass::HexDigit.contains(*first) {
        return None;
    }
    let high = digit_value(*first);
    match rest.split_first() {
        Some((second, _)) if ByteClass::HexDigit.contains(*second) => Some(Item {
            value: high * 16 + digit_value(*second),
            length: 4,
        }),
        _ => Some(Item {
            value: high,
            length: 3,
        }),
    }
}

/// What a hexadecimal digit stands for.
fn digit_value(digit: u8) -> u8
    requires { IsHexDigit digit }
    ensures value { result ≡ digit_value digit }
    ensures below { result < 16 }
{
    match digit {
        b'0'..=b'9' => digit - b'0',
        b'A'..=b'F' => digit - b'A' + 10,
        _ => digit - b'a' + 10,
    }
}
