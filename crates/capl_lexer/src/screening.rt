// The tokens that the profile leaves out.

ghost use Rattle.std.specs.Prelude.{◌≡◌, ◌↔◌, ◌<◌, ◌∷◌, ℕ, [], IsTrue, IfSome, IfNone, MatchOption};
ghost use Rattle.capl_lexer.specs.Screening.{kinds_of, EndsWith, BreaksBehind, Breaks};
ghost use Rattle.capl_lexer.specs.Inside.Screening.{IsBehind, behind_token, is_on, is_floating_point, is_outside_word, is_outside_sign, is_event_name, is_outside_name, is_outside};
ghost use Rattle.texts.specs.declared.blame.Rule.{Rule};

use crate::token::{Sign, Tok, Token, Word};
use texts::Rule;

/// The token is floating point.
const FLOATING_POINT: Rule = Rule {
    group: b'E',
    number: 5,
};

/// The token is outside the profile otherwise.
const OUTSIDE: Rule = Rule {
    group: b'E',
    number: 6,
};

/// The place and the rule of the first token that a program may not have, or None where there is none:
/// E05 for floating point, and E06 for the words from `struct` to `ethernetPacket`, `$`, `@`, `::`, a
/// directive, a `[` behind `]`, a name behind `on` other than those of event procedures, and a name
/// behind `on key`. Takes time linear in the number of tokens and the bytes of their names.
pub fn screen(tokens: &[Token]) -> Option<(usize, Rule)>
    // The token at the place breaks the rule, and no earlier one breaks any.
    ensures breaks { IfSome result (λ (place, rule). Breaks tokens.now place rule) }
    ensures first { IfSome result (λ (place, rule).
        (earlier : ℕ) (other : Rule) → earlier < place → Breaks tokens.now earlier other → ⊥) }
    ensures none { IfNone result ((place : ℕ) (rule : Rule) → Breaks tokens.now place rule → ⊥) }
{
    for (place, token) in tokens.iter().enumerate() {
        if let Some(rule) = broken_rule(&tokens[..place], &token.tok) {
            return Some((place, rule));
        }
    }
    None
}

/// What stands before a token, as far as a rule asks for it.
#[derive(Clone, Copy, Debug, PartialEq, Eq)]
enum Behind {
    /// `.`
    Point,
    /// `]`
    Bracket,
    /// `on`
    On,
    /// `on key`
    OnKey,
    /// Nothing, or other tokens.
    Other,
}

/// The rule that the token breaks behind these ones, or None where it breaks none.
fn broken_rule(before: &[Token], tok: &Tok) -> Option<Rule>
    ensures { MatchOption result
        ((rule : Rule) → BreaksBehind (kinds_of before.now) tok.now rule → ⊥)
        (BreaksBehind (kinds_of before.now) tok.now) }
{
    let place = place_behind(before);
    if is_floating_point(place, tok) {
        Some(FLOATING_POINT)
    } else if is_outside(place, tok) {
        Some(OUTSIDE)
    } else {
        None
    }
}

/// How the tokens before a token end.
fn place_behind(before: &[Token]) -> Behind
    ensures { IsBehind (kinds_of before.now) result }
{
    match before.split_last() {
        Some((last, rest)) => behind_token(&last.tok, ends_with_on(rest)),
        None => Behind::Other,
    }
}

/// How the tokens before a token end, by the last one and by whether `on` stands before it.
fn behind_token(last: &Tok, after_on: bool) -> Behind
    ensures { result ≡ behind_token last.now after_on }
{
    match last {
        Tok::Sign(Sign::Dot) => Behind::Point,
        Tok::Sign(Sign::CloseBracket) => Behind::Bracket,
        Tok::Word(Word::On) => Behind::On,
        Tok::Name(name) if name.bytes() == b"key".as_slice() && after_on => Behind::OnKey,
        _ => Behind::Other,
    }
}

/// Whether the tokens end with `on`.
fn ends_with_on(tokens: &[Token]) -> bool
    ensures { IsTrue result ↔ EndsWith (kinds_of tokens.now) (Tok.Word Word.On ∷ []) }
{
    match tokens.split_last() {
        Some((last, _)) => is_on(&last.tok),
        None => false,
    }
}

/// Whether the token is `on`.
fn is_on(tok: &Tok) -> bool
    ensures { result ≡ is_on tok.now }
{
    matches!(tok, Tok::Word(Word::On))
}

/// Whether the token is floating point there.
fn is_floating_point(place: Behind, tok: &Tok) -> bool
    ensures { result ≡ is_floating_point place tok.now }
{
    match tok {
        Tok::Word(word) => matches!(word, Word::Float | Word::Double),
        Tok::Float => true,
        Tok::Name(name) => matches!(place, Behind::Point) && name.bytes() == b"phys".as_slice(),
        _ => false,
    }
}

/// Whether the token is outside the profile there, other than by floating point.
fn is_outside(place: Behind, tok: &Tok) -> bool
    ensures { result ≡ is_outside place tok.now }
{
    match tok {
        Tok::Word(word) => is_outside_word(*word),
        Tok::Sign(sign) => is_outside_sign(place, *sign),
        Tok::Directive => true,
        Tok::Name(name) => is_outside_name(place, name.bytes()),
        _ => false,
    }
}

/// Whether the profile leaves out the reserved word, other than by floating point.
fn is_outside_word(word: Word) -> bool
    ensures { result ≡ is_outside_word word }
{
    matches!(
        word,
        Word::Struct
            | Word::Enum
            | Word::Stack
            | Word::Testcase
            | Word::Testfunction
            | Word::DiagRequest
            | Word::DiagResponse
            | Word::LinFrame
            | Word::FrFrame
            | Word::EthernetPacket
    )
}

/// Whether the profile leaves out the sign there.
fn is_outside_sign(place: Behind, sign: Sign) -> bool
    ensures { result ≡ is_outside_sign place sign }
{
    match sign {
        Sign::Dollar | Sign::At | Sign::Scope => true,
        Sign::OpenBracket => matches!(place, Behind::Bracket),
        _ => false,
    }
}

/// Whether the name is outside the profile there.
fn is_outside_name(place: Behind, name: &[u8]) -> bool
    ensures { result ≡ is_outside_name place name.now }
{
    match place {
        Behind::On => !is_event_name(name),
        Behind::OnKey => true,
        _ => false,
    }
}

/// Whether the name is one of an event procedure.
fn is_event_name(name: &[u8]) -> bool
    ensures { result ≡ is_event_name name.now }
{
    name == b"preStart".as_slice()
        || name == b"start".as_slice()
        || name == b"stopMeasurement".as_slice()
        || name == b"key".as_slice()
}
