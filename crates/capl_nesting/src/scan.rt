// How deep the tokens of a source nest.

ghost use Rattle.std.specs.Prelude.{◌≡◌, ◌<◌, ◌≤◌, ◌+◌, ◌^◌, ◌↔◌, IsTrue, IfOk, OnOk, Some};
ghost use Rattle.capl_tree.specs.Nesting.{nesting};
ghost use Rattle.capl_tree.specs.Nesting as nest;
ghost use Rattle.capl_nesting.specs.Inside.Levels.{counts, IsSummed, told, sign_levels, is_counted};
ghost use Rattle.capl_nesting.specs.Tokens.{toks};

use crate::levels::Levels;
use capl_lexer::{Sign, Tok, Token, Word};
use std::alloc::Global;
use texts::NoMemory;

/// Whether the tokens nest deeper than `most`. Takes time linear in their number, and memory for as many
/// levels as they open up to `most`.
pub fn is_deeper_than(alloc: Global, tokens: &[Token], most: u32) -> Result<bool, NoMemory>
    requires { most < 2 ^ 31 }
    ensures { IfOk result (λ deep. IsTrue deep ↔ (most < nesting (toks tokens.now))) }
{
    let mut levels = Levels::new(alloc);
    let mut before: Option<&Token> = None;
    let mut rest = tokens;
    while let Some((first, behind)) = rest.split_first() {
        pass(&mut levels, before, first, behind)?;
        if levels.depth > most {
            return Ok(true);
        }
        before = Some(first);
        rest = behind;
    }
    Ok(false)
}

/// Passes over a token, by the one before it and those behind it.
#[tactic(auto, using(crate::proofs::LevelLemmas::behind_sign, crate::proofs::LevelLemmas::behind_word))]
fn pass(
    levels: &mut Levels,
    before: Option<&Token>,
    first: &Token,
    behind: &[Token],
) -> Result<(), NoMemory>
    requires summed { IsSummed levels.old }
    requires small { levels.old.depth < 2 ^ 31 }
    ensures levels { OnOk result (counts levels.new
        ≡ nest.levels_behind (counts levels.old) (told before.entry) first.now.tok (toks behind.now)) }
    ensures summed { OnOk result (IsSummed levels.new) }
    ensures little { OnOk result (levels.new.depth ≤ levels.old.depth + 2) }
{
    match &first.tok {
        Tok::Sign(sign) => {
            let bracket = closes_bracket(before);
            let kind = names_kind(before);
            pass_sign(levels, *sign, bracket, kind, goes_on(behind))
        }
        Tok::Word(word) => {
            if is_counted(*word) {
                levels.add_one();
            }
            Ok(())
        }
        Tok::Name(_)
        | Tok::Num { .. }
        | Tok::Float
        | Tok::Char(_)
        | Tok::Str(_)
        | Tok::Include(_)
        | Tok::Directive => Ok(()),
    }
}

/// Whether the word is counted in its level.
fn is_counted(word: Word) -> bool
    ensures { result ≡ is_counted word }
{
    match word {
        Word::If | Word::While | Word::For | Word::Do | Word::Switch => true,
        _ => false,
    }
}

/// Passes over a sign. The three flags say whether `]` stands before it, the word of a kind stands before
/// it, and `else` or `while` behind it.
fn pass_sign(
    levels: &mut Levels,
    sign: Sign,
    bracket: bool,
    kind: bool,
    on: bool,
) -> Result<(), NoMemory>
    requires summed { IsSummed levels.old }
    requires small { levels.old.depth < 2 ^ 31 }
    ensures levels { OnOk result (counts levels.new ≡ sign_levels (counts levels.old) bracket kind on sign) }
    ensures summed { OnOk result (IsSummed levels.new) }
    ensures little { OnOk result (levels.new.depth ≤ levels.old.depth + 2) }
{
    match sign {
        Sign::OpenParen | Sign::OpenBrace => levels.open(),
        Sign::OpenBracket => {
            if bracket {
                levels.add_one();
            }
            levels.open()
        }
        Sign::CloseParen => {
            levels.close();
            if kind {
                levels.add_one();
            }
            Ok(())
        }
        Sign::CloseBracket => {
            levels.close();
            Ok(())
        }
        Sign::CloseBrace => {
            levels.close();
            if !on {
                levels.clear();
            }
            Ok(())
        }
        Sign::Semi => {
            if !on {
                levels.clear();
            }
            Ok(())
        }
        Sign::Comma => {
            levels.clear();
            Ok(())
        }
        _ => {
            levels.add_one();
            Ok(())
        }
    }
}

/// Whether the token is `]`.
fn closes_bracket(token: Option<&Token>) -> bool
    ensures { result ≡ nest.closes_bracket (told token.entry) }
{
    match token {
        Some(token) => match &token.tok {
            Tok::Sign(sign) => *sign == Sign::CloseBracket,
            _ => false,
        },
        None => false,
    }
}

/// Whether the token is the word of a kind.
fn names_kind(token: Option<&Token>) -> bool
    ensures { result ≡ nest.names_kind (told token.entry) }
{
    match token {
        Some(token) => match &token.tok {
            Tok::Word(word) => is_kind(*word),
            _ => false,
        },
        None => false,
    }
}

/// Whether `else` or `while` is the first of the tokens.
fn goes_on(tokens: &[Token]) -> bool
    ensures { result ≡ nest.goes_on (toks tokens.now) }
{
    match tokens.first() {
        Some(token) => match &token.tok {
            Tok::Word(word) => *word == Word::Else || *word == Word::While,
            _ => false,
        },
        None => false,
    }
}

/// Whether the word is that of a kind.
fn is_kind(word: Word) -> bool
    ensures { result ≡ nest.names_kind (Some (Tok.Word word)) }
{
    match word {
        Word::Byte | Word::Word | Word::Dword | Word::Qword => true,
        Word::Int | Word::Long | Word::Int64 | Word::Char => true,
        _ => false,
    }
}
