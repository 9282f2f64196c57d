// The receivers of a signal.

ghost use Rattle.std.specs.Prelude.{◌≡◌, ◌≤◌, length};
ghost use Rattle.dbc_statements.specs.Statement as spec;
ghost use Rattle.dbc_statements.specs.Inside.Lexer.{token_of};
ghost use Rattle.dbc_statements.specs.Reading.{Gives};
ghost use Rattle.dbc_statements.specs.declared.receivers.Before.TheVariants as before;

use crate::cursor::Cursor;
use crate::token::Token;
use crate::unread::Unread;

/// What stands before the next part of a list of receivers.
#[derive(Clone, Copy)]
pub(crate) enum Before {
    /// No receiver yet.
    Nothing,
    /// A receiver.
    Word,
    /// A comma behind a receiver.
    Comma,
}

/// Words up to the next keyword or the end, between two of which perhaps a `,` stands.
pub(crate) fn receivers(cursor: &mut Cursor<'_>) -> Result<(), Unread>
    ensures read { Gives (λ u. u) (spec.receivers before.Nothing cursor.old) result cursor.new }
    ensures no_longer { length cursor.new ≤ length cursor.old }
{
    let mut last = Before::Nothing;
    while let Some((token, behind)) = cursor.first() {
        if token.begins_statement() {
            break;
        }
        last = after(last, token).ok_or(Unread::NotSpelled)?;
        *cursor = behind;
    }
    if may_end(last) {
        Ok(())
    } else {
        Err(Unread::NotSpelled)
    }
}

/// What stands before the part behind this token, or None where the token is no part here.
fn after(last: Before, token: Token<'_>) -> Option<Before>
    ensures { result ≡ spec.receiver_after last (token_of token.entry) }
{
    match (last, token) {
        (_, Token::Word(_)) => Some(Before::Word),
        (Before::Word, Token::Byte(b',')) => Some(Before::Comma),
        _ => None,
    }
}

/// Whether the list may end here.
fn may_end(last: Before) -> bool
    ensures { result ≡ spec.may_end last }
{
    !matches!(last, Before::Comma)
}
