// The token at the front of a text.

ghost use Rattle.std.specs.Prelude.{◌≡◌, ◌<◌, ◌≤◌, length, IfSome};
ghost use Rattle.std.specs.List.{prefix_len};
ghost use Rattle.text_parts.specs.Number.{is_digit};
ghost use Rattle.dbc_statements.specs.Token as spec;
ghost use Rattle.dbc_statements.specs.Inside.Lexer.{front_of};

use crate::token::Token;

/// A token at the front of a text.
#[derive(Clone, Copy)]
pub(crate) struct Front<'a> {
    /// What stands there.
    pub token: Token<'a>,
    /// How many bytes it has.
    pub length: usize,
}

/// The longest token at the front of the text. Of a string it is given how many bytes stand behind
/// its first `"`.
#[tactic(auto, unfolding(crate::specs::Token::token_front))]
pub(crate) fn token_front(text: &[u8], quoted: Option<usize>) -> Front<'_>
    requires some { 0 < length text.now }
    requires quoted { quoted ≡ spec.quoted text.now }
    requires within { IfSome quoted (λ behind. behind < length text.now) }
    ensures front { front_of result ≡ spec.token_front text.now }
    ensures more { 0 < result.length }
    ensures within { result.length ≤ length text.now }
{
    if is_word_start(text[0]) {
        let letters = word_parts(text);
        return Front {
            token: Token::Word(&text[..letters]),
            length: letters,
        };
    }
    let number = number_length(text);
    if number > 0 {
        return Front {
            token: Token::Number(&text[..number]),
            length: number,
        };
    }
    match quoted {
        Some(behind) => Front {
            token: Token::Quoted,
            length: behind + 1,
        },
        None => Front {
            token: Token::Byte(text[0]),
            length: 1,
        },
    }
}

/// How many bytes there are up to and with the first `"` that has no `\` before it, where the text
/// stands behind a `"`.
pub(crate) fn closing(text: &[u8]) -> Option<usize>
    ensures closed { result ≡ spec.closing 34 text.now }
    ensures within { IfSome result (λ n. n ≤ length text.now) }
{
    let mut before = b'"';
    for (place, byte) in text.iter().enumerate() {
        if *byte == b'"' && before != b'\\' {
            return Some(place + 1);
        }
        before = *byte;
    }
    None
}

/// How many bytes of the front are blanks.
pub(crate) fn blanks(text: &[u8]) -> usize
    ensures count { result ≡ prefix_len spec.is_blank text.now }
    ensures within { result ≤ length text.now }
{
    for (place, byte) in text.iter().enumerate() {
        if !is_blank(*byte) {
            return place;
        }
    }
    text.len()
}

/// Whether the byte separates tokens.
fn is_blank(byte: u8) -> bool
    ensures { result ≡ spec.is_blank byte }
{
    matches!(byte, b' ' | b'\t' | b'\n' | b'\r')
}

/// Whether a word begins with the byte.
fn is_word_start(byte: u8) -> bool
    ensures { result ≡ spec.is_word_start byte }
{
    matches!(byte, b'A'..=b'Z' | b'a'..=b'z' | b'_')
}

/// Whether the byte is a decimal digit.
fn is_digit(byte: u8) -> bool
    ensures { result ≡ is_digit byte }
{
    matches!(byte, b'0'..=b'9')
}

/// How many bytes of the front are letters, digits and `_`.
fn word_parts(text: &[u8]) -> usize
    ensures count { result ≡ prefix_len spec.is_word_part text.now }
    ensures within { result ≤ length text.now }
{
    for (place, byte) in text.iter().enumerate() {
        if !is_word_start(*byte) && !is_digit(*byte) {
            return place;
        }
    }
    text.len()
}

/// How many bytes of the front are digits.
pub(crate) fn digits(text: &[u8]) -> usize
    ensures count { result ≡ prefix_len is_digit text.now }
    ensures within { result ≤ length text.now }
{
    for (place, byte) in text.iter().enumerate() {
        if !is_digit(*byte) {
            return place;
        }
    }
    text.len()
}

/// How many bytes of the front are a sign.
fn sign_length(text: &[u8]) -> usize
    ensures length { result ≡ spec.sign_length text.now }
    ensures within { result ≤ length text.now }
{
    match text {
        [b'+' | b'-', ..] => 1,
        _ => 0,
    }
}

/// How many bytes of the front are digits with perhaps a point before, between or behind them.
#[tactic(auto, unfolding(crate::specs::Token::mantissa_length))]
fn mantissa_length(text: &[u8]) -> usize
    ensures length { result ≡ spec.mantissa_length text.now }
    ensures within { result ≤ length text.now }
{
    let whole = digits(text);
    if text.get(whole) != Some(&b'.') {
        return whole;
    }
    let fraction = digits(&text[whole + 1..]);
    if whole + fraction == 0 {
        0
    } else {
        whole + 1 + fraction
    }
}

/// How many bytes of the front are `e` or `E`, perhaps a sign, and digits.
#[tactic(auto, unfolding(crate::specs::Token::exponent_length))]
fn exponent_length(text: &[u8]) -> usize
    ensures length { result ≡ spec.exponent_length text.now }
    ensures within { result ≤ length text.now }
{
    let Some((b'e' | b'E', behind)) = text.split_first() else {
        return 0;
    };
    let sign = sign_length(behind);
    let digits = digits(&behind[sign..]);
    if digits == 0 { 0 } else { 1 + sign + digits }
}

/// How many bytes of the front are a number: perhaps a sign, digits with perhaps a point, perhaps
/// an exponent.
#[tactic(auto, unfolding(crate::specs::Token::number_length))]
fn number_length(text: &[u8]) -> usize
    ensures length { result ≡ spec.number_length text.now }
    ensures within { result ≤ length text.now }
{
    let sign = sign_length(text);
    let mantissa = mantissa_length(&text[sign..]);
    if mantissa == 0 {
        return 0;
    }
    sign + mantissa + exponent_length(&text[sign + mantissa..])
}
