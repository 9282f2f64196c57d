// The next line of a scenario.

ghost use Rattle.std.specs.Prelude.{◌≡◌, ◌<◌, ◌≤◌, ◌+◌, ◌∷◌, ◌↔◌, [], length, IsNone, IfSome};
ghost use Rattle.std.specs.Str.Lines.{lines, strip_carriage_return};

use text_parts::first_line;

/// The first line of a text without its line end, LF or CR LF, and the lines behind it; None where the
/// text is empty. The last line may have no line end; a CR at its end then belongs to it.
pub(crate) fn next_line(text: &[u8]) -> Option<(&[u8], &[u8])>
    ensures none { IsNone result ↔ (text.now ≡ []) }
    ensures lines { IfSome result (λ next. lines text.now ≡ next.0.now ∷ lines next.1.now) }
    ensures within { IfSome result (λ next. length next.0.now + length next.1.now ≤ length text.now) }
    ensures shorter { IfSome result (λ next. length next.1.now < length text.now) }
{
    let first = first_line(text)?;
    if first.is_ended {
        return Some((without_return(first.line), first.rest));
    }
    Some((first.line, first.rest))
}

/// The line without the one CR at its end, if it has one.
fn without_return(line: &[u8]) -> &[u8]
    ensures { result.now ≡ strip_carriage_return line.now }
{
    match line {
        [front @ .., b'\r'] => front,
        _ => line,
    }
}
