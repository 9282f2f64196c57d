// The comment or the token at the front of a text.

ghost use Rattle.std.specs.Prelude.{◌≡◌, IfOk, MatchOption};
ghost use Rattle.capl_lexer.specs.Inside.Step.{IsStep, HasNoBlank, HasNoPiece, HasNoPassed};

use crate::comment::{block_comment, line_comment};
use crate::front::token_front;
use crate::token::Tok;
use std::alloc::Global;
use texts::NoMemory;

/// A step of the reading of a text, behind any blanks.
#[derive(Debug, Drop)]
pub(crate) struct Step {
    /// The token, or None for a comment.
    pub tok: Option<Tok>,
    /// How many bytes it has.
    pub length: usize,
}

/// The comment or the longest token at the front of a text that begins with no blank, or None where
/// none stands there. Where a comment begins, no token does. Takes time and memory linear in its bytes.
pub(crate) fn next_step(alloc: Global, text: &[u8]) -> Result<Option<Step>, NoMemory>
    requires { HasNoBlank text.now }
    ensures { IfOk result (λ found. MatchOption found (HasNoPiece text.now) (IsStep text.now)) }
{
    match text {
        [b'/', b'/', ..] => Ok(Some(passed(line_comment(text)))),
        [b'/', b'*', ..] => match block_comment(text) {
            Some(length) => Ok(Some(passed(length))),
            None => Ok(None),
        },
        _ => token_step(alloc, text),
    }
}

/// A comment of so many bytes.
fn passed(length: usize) -> Step
    ensures tok { result.tok ≡ None }
    ensures length { result.length ≡ length }
{
    Step { tok: None, length }
}

/// The longest token at the front of a text that begins with no blank and no comment.
fn token_step(alloc: Global, text: &[u8]) -> Result<Option<Step>, NoMemory>
    requires { HasNoPassed text.now }
    ensures { IfOk result (λ found. MatchOption found (HasNoPiece text.now) (IsStep text.now)) }
{
    let Some(front) = token_front(alloc, text)? else {
        return Ok(None);
    };
    Ok(Some(Step {
        tok: Some(front.tok),
        length: front.length,
    }))
}
