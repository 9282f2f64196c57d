// What a token is, by itself.

ghost use Rattle.std.specs.Prelude.{◌≡◌};
ghost use Rattle.viable_prefixes.specs.Inside.Token as spec;

use capl_lexer::{Sign, Tok, Word};
use expr_parser::operator::{Operator, kind_of, operator_of};
use int_kinds::Kind;

/// Whether it is this sign.
pub(crate) fn is_sign(sign: Sign, token: &Tok) -> bool
    ensures { result ≡ spec.is_sign sign token.now }
{
    match token {
        Tok::Sign(found) => *found == sign,
        _ => false,
    }
}

/// Whether it is this word.
pub(crate) fn is_word(word: Word, token: &Tok) -> bool
    ensures { result ≡ spec.is_word word token.now }
{
    match token {
        Tok::Word(found) => *found == word,
        _ => false,
    }
}

/// The kind whose word it is.
pub(crate) fn kind_in(token: &Tok) -> Option<Kind>
    ensures { result ≡ spec.kind_in token.now }
{
    match token {
        Tok::Word(word) => kind_of(*word),
        _ => None,
    }
}

/// What it makes of an operand before it.
pub(crate) fn operator_in(token: &Tok) -> Option<Operator>
    ensures { result ≡ spec.operator_in token.now }
{
    match token {
        Tok::Sign(sign) => operator_of(*sign),
        _ => None,
    }
}
