// The sign at the front of a text.

ghost use Rattle.std.specs.Prelude.{◌≡◌, ◌∷◌, ◌++◌, [], MatchOption};
ghost use Rattle.items.specs.Search.{Finds};
ghost use Rattle.capl_lexer.specs.Spelling.{sign_spelling};
ghost use Rattle.capl_lexer.specs.Inside.Front.{IsTokenFront, HasNoToken, IsOtherFront};

use crate::front::Front;
use crate::token::{Sign, Tok};

/// The longest sign at the front of a text that begins as no other token does, or None where none
/// stands there.
pub(crate) fn sign(text: &[u8]) -> Option<Front>
    requires { IsOtherFront text.now }
    ensures { MatchOption result (HasNoToken text.now) (IsTokenFront text.now) }
{
    let (first, rest) = text.split_first()?;
    let mut sign = sign_of(*first)?;
    for (place, byte) in rest.iter().enumerate() {
        let Some(longer) = longer_sign(sign, *byte) else {
            return Some(Front {
                tok: Tok::Sign(sign),
                length: 1 + place,
            });
        };
        sign = longer;
    }
    Some(Front {
        tok: Tok::Sign(sign),
        length: text.len(),
    })
}

/// The sign that the byte alone spells, or None where it spells none.
fn sign_of(byte: u8) -> Option<Sign>
    ensures { Finds (λ sign. byte ∷ [] ≡ sign_spelling sign) result }
{
    match byte {
        b'{' => Some(Sign::OpenBrace),
        b'}' => Some(Sign::CloseBrace),
        b'(' => Some(Sign::OpenParen),
        b')' => Some(Sign::CloseParen),
        b'[' => Some(Sign::OpenBracket),
        b']' => Some(Sign::CloseBracket),
        b';' => Some(Sign::Semi),
        b',' => Some(Sign::Comma),
        b':' => Some(Sign::Colon),
        b'?' => Some(Sign::Question),
        b'.' => Some(Sign::Dot),
        b'$' => Some(Sign::Dollar),
        b'@' => Some(Sign::At),
        b'~' => Some(Sign::Tilde),
        b'!' => Some(Sign::Bang),
        b'=' => Some(Sign::Assign),
        b'<' => Some(Sign::Less),
        b'>' => Some(Sign::Greater),
        b'+' => Some(Sign::Plus),
        b'-' => Some(Sign::Minus),
        b'*' => Some(Sign::Star),
        b'/' => Some(Sign::Slash),
        b'%' => Some(Sign::Percent),
        b'&' => Some(Sign::Amp),
        b'|' => Some(Sign::Bar),
        b'^' => Some(Sign::Caret),
        _ => None,
    }
}

/// The sign that this one and one more byte spell, or None where they spell none.
fn longer_sign(sign: Sign, byte: u8) -> Option<Sign>
    ensures { Finds (λ longer. sign_spelling sign ++ byte ∷ [] ≡ sign_spelling longer) result }
{
    match (sign, byte) {
        (Sign::Colon, b':') => Some(Sign::Scope),
        (Sign::Assign, b'=') => Some(Sign::Equal),
        (Sign::Bang, b'=') => Some(Sign::NotEqual),
        (Sign::Less, b'=') => Some(Sign::LessEqual),
        (Sign::Greater, b'=') => Some(Sign::GreaterEqual),
        (Sign::Less, b'<') => Some(Sign::ShiftLeft),
        (Sign::Greater, b'>') => Some(Sign::ShiftRight),
        (Sign::Amp, b'&') => Some(Sign::AndAnd),
        (Sign::Bar, b'|') => Some(Sign::OrOr),
        (Sign::Plus, b'+') => Some(Sign::PlusPlus),
        (Sign::Minus, b'-') => Some(Sign::MinusMinus),
        (Sign::Plus, b'=') => Some(Sign::PlusAssign),
        (Sign::Minus, b'=') => Some(Sign::MinusAssign),
        (Sign::Star, b'=') => Some(Sign::StarAssign),
        (Sign::Slash, b'=') => Some(Sign::SlashAssign),
        (Sign::Percent, b'=') => Some(Sign::PercentAssign),
        (Sign::Amp, b'=') => Some(Sign::AmpAssign),
        (Sign::Bar, b'=') => Some(Sign::BarAssign),
        (Sign::Caret, b'=') => Some(Sign::CaretAssign),
        (Sign::ShiftLeft, b'=') => Some(Sign::ShiftLeftAssign),
        (Sign::ShiftRight, b'=') => Some(Sign::ShiftRightAssign),
        _ => None,
    }
}
