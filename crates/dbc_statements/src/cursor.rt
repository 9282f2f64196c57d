// The tokens of a text, read one after another.

ghost use Rattle.std.specs.Prelude.{◌≡◌, ◌+◌, ◌<◌, ◌≤◌, ◌^◌, ◌||◌, false, [], length, not, is_none, fold, IsTrue, IfSome, MatchOption};
ghost use Rattle.dbc_statements.specs.Token as spec;
ghost use Rattle.dbc_statements.specs.Inside.Lexer.{begins_with_blank, token_of, AreMore};

use crate::front::{blanks, closing, token_front};
use crate::token::Token;
use std::marker::Model;

/// A place in a text, before a token or at the end. Contracts see it as the tokens that are left.
#[derive(Drop)]
pub struct Cursor<'a> {
    rest: &'a [u8],
    line: usize,
    /// Whether it is known that no string begins in the rest. Without this, a text of many `"`
    /// that are never closed would be gone through from each of them.
    no_string: bool,
    ghost fits: { line + length rest.now ≤ 2 ^ 32 },
    ghost at_token: { begins_with_blank rest.now ≡ false },
    ghost open: { IsTrue (not no_string || is_none (spec.closing 92 rest.now)) },
}

impl<'a> Model for Cursor<'a> {
    ghost use Rattle.std.specs.Prelude.{List};
    ghost use Rattle.dbc_statements.specs.Token.{Placed, tokens_behind};

    ghost Value = { List Placed };

    ghost view = { λ cursor. tokens_behind 0 cursor.line cursor.rest.now };
}

impl<'a> Cursor<'a> {
    /// All tokens of the text.
    pub fn new(text: &'a [u8]) -> Cursor<'a>
        requires { length text.now < 2 ^ 32 }
        ensures { result ≡ spec.tokens_of text.now }
    {
        tokens_behind(text, 0, 1, false)
    }

    /// The line in which the next token begins, or None at the end.
    pub fn line(&self) -> Option<u32>
        ensures { result ≡ spec.first_line self.now }
    {
        if self.rest.is_empty() {
            None
        } else {
            Some(self.line as u32)
        }
    }

    /// The next token and the place behind it, or None at the end.
    pub(crate) fn first(&self) -> Option<(Token<'a>, Cursor<'a>)>
        ensures { MatchOption result (self.now ≡ []) (λ first. AreMore self.now (token_of first.0) first.1) }
    {
        if self.rest.is_empty() {
            return None;
        }
        let quoted = quoted_length(self.rest, self.no_string);
        let no_string = self.no_string || self.rest[0] == b'"' && quoted.is_none();
        let front = token_front(self.rest, quoted);
        Some((
            front.token,
            tokens_behind(self.rest, front.length, self.line, no_string),
        ))
    }
}

/// The tokens behind so many bytes of a text that begins in this line.
fn tokens_behind(text: &[u8], count: usize, line: usize, no_string: bool) -> Cursor<'_>
    requires within { count ≤ length text.now }
    requires fits { line + length text.now ≤ 2 ^ 32 }
    requires open { IsTrue (not no_string || is_none (spec.closing 92 text.now)) }
    ensures { result ≡ spec.tokens_behind count line text.now }
{
    let count = count + blanks(&text[count..]);
    Cursor {
        rest: &text[count..],
        line: line_behind(&text[..count], line),
        no_string,
    }
}

/// How many bytes behind a `"` at the front are the rest of a string, or None where no string
/// stands there.
fn quoted_length(text: &[u8], no_string: bool) -> Option<usize>
    requires { IsTrue (not no_string || is_none (spec.closing 92 text.now)) }
    ensures quoted { result ≡ spec.quoted text.now }
    ensures within { IfSome result (λ behind. behind < length text.now) }
{
    match text {
        [b'"', behind @ ..] if !no_string => closing(behind),
        _ => None,
    }
}

/// The line behind a text that begins in this line.
fn line_behind(text: &[u8], line: usize) -> usize
    requires { line + length text.now ≤ 2 ^ 32 }
    ensures line { result ≡ fold spec.line_behind line text.now }
    ensures within { result ≤ line + length text.now }
{
    let mut line = line;
    for byte in text {
        if *byte == b'\n' {
            line += 1;
        }
    }
    line
}
