// Comments.

ghost use Rattle.std.specs.Prelude.{MatchOption};
ghost use Rattle.capl_lexer.specs.Inside.Step.{IsLineCommentFront, IsBlockCommentFront, HasNoPiece, OpensLine, OpensBlock};

use memchr::{memchr, memmem};

/// How many bytes the comment has that begins with the text's `//`.
pub(crate) fn line_comment(text: &[u8]) -> usize
    requires { OpensLine text.now }
    ensures { IsLineCommentFront text.now result }
{
    match memchr(b'\n', text) {
        Some(end) => end,
        None => text.len(),
    }
}

/// How many bytes the comment has that begins with the text's `/*`, or None where it is not closed:
/// then no blank, comment or token stands at the front.
pub(crate) fn block_comment(text: &[u8]) -> Option<usize>
    requires { OpensBlock text.now }
    ensures { MatchOption result (HasNoPiece text.now) (IsBlockCommentFront text.now) }
{
    let closing = memmem::find(&text[2..], b"*/")?;
    Some(2 + closing + 2)
}
