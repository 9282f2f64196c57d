// Lines.

ghost use Rattle.std.specs.Prelude.{◌≡◌, ◌≢◌, ◌<◌, ◌∷◌, ◌++◌, ◌↔◌, [], length, All, IsNone, IfSome};
ghost use Rattle.std.specs.Bool.{OnFalse};
ghost use Rattle.text_parts.specs.Line.{text_lines, line_end};

use memchr::memchr;

/// The first line of a text, and what stands behind it.
#[derive(Clone, Copy, Debug)]
pub struct FirstLine<'a> {
    /// The bytes of the line, without its line feed.
    pub line: &'a [u8],
    /// Whether a line feed (byte 10) ends it. The last line of a text may have none.
    pub is_ended: bool,
    /// The bytes behind the line and its line feed.
    pub rest: &'a [u8],
}

/// The first line of a text, or None where the text is empty. Takes time linear in the line.
pub fn first_line(text: &[u8]) -> Option<FirstLine<'_>>
    ensures none { IsNone result ↔ (text.now ≡ []) }
    ensures lines { IfSome result (λ first.
        text_lines text.now ≡ first.line.now ∷ text_lines first.rest.now) }
    ensures whole { IfSome result (λ first.
        text.now ≡ first.line.now ++ line_end first.is_ended ++ first.rest.now) }
    ensures no_end_inside { IfSome result (λ first. All (λ byte. byte ≢ 10) first.line.now) }
    ensures last { IfSome result (λ first. OnFalse first.is_ended (first.rest.now ≡ [])) }
    ensures shorter { IfSome result (λ first. length first.rest.now < length text.now) }
{
    if text.is_empty() {
        return None;
    }
    match memchr(b'\n', text) {
        Some(end) => Some(FirstLine {
            line: &text[..end],
            is_ended: true,
            rest: &text[end + 1..],
        }),
        None => Some(FirstLine {
            line: text,
            is_ended: false,
            rest: &[],
        }),
    }
}
