// The fields of a line.

ghost use Rattle.std.specs.Prelude.{◌≡◌, ◌≢◌, ◌∷◌, ◌++◌, [], not, All, IfSome, IfNone, MatchOption, position};
ghost use Rattle.log_line.specs.Reading.{is_blank, without_return, log_fields};

use memchr::{memchr, memchr2};

/// Whether the byte is a space or a tab.
fn is_blank(byte: u8) -> bool
    ensures { result ≡ is_blank byte }
{
    byte == b' ' || byte == b'\t'
}

/// The place of the first blank.
fn first_blank(text: &[u8]) -> Option<usize>
    ensures { result ≡ position is_blank text.now }
{
    memchr2(b' ', b'\t', text)
}

/// The place of the first byte that is no blank.
fn first_part(text: &[u8]) -> Option<usize>
    ensures { result ≡ position (λ byte. not (is_blank byte)) text.now }
{
    text.iter().position(|byte| !is_blank(*byte))
}

/// The line without the CR that may end it.
pub(crate) fn without_return(line: &[u8]) -> &[u8]
    ensures { result.now ≡ without_return line.now }
{
    match line {
        [front @ .., b'\r'] => front,
        _ => line,
    }
}

/// The first field and what stands behind it, or None where there is no field.
pub(crate) fn next_field(text: &[u8]) -> Option<(&[u8], &[u8])>
    ensures { MatchOption result (log_fields text.now ≡ [])
        (λ parts. log_fields text.now ≡ parts.0.now ∷ log_fields parts.1.now) }
{
    let text = &text[first_part(text)?..];
    match first_blank(text) {
        Some(end) => Some(text.split_at(end)),
        None => Some((text, &[])),
    }
}

/// The bytes before and after the first that is this one, or None where none is.
pub(crate) fn split_at_byte(bytes: &[u8], separator: u8) -> Option<(&[u8], &[u8])>
    ensures found { IfSome result (λ parts. bytes.now ≡ parts.0.now ++ separator ∷ parts.1.now) }
    ensures first { IfSome result (λ parts. All (λ byte. byte ≢ separator) parts.0.now) }
    ensures none { IfNone result (All (λ byte. byte ≢ separator) bytes.now) }
{
    let place = memchr(separator, bytes)?;
    Some((&bytes[..place], &bytes[place + 1..]))
}
