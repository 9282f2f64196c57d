// Pieces of the text of a format.

ghost use Rattle.std.specs.Prelude.{◌≡◌, ◌≤◌, ◌==◌, List, length};
ghost use Rattle.std.specs.List.{position_or_len};
ghost use Rattle.std.specs.Option.{option_map};
ghost use Rattle.write_format.specs.Reading.{AreSpelled, behind_percent, piece_at};
ghost use Rattle.write_format.specs.declared.piece.Piece as declared;

use crate::code::{Code, code_at};
use memchr::memchr;

/// A piece of the text of a format.
#[derive(Clone, Copy, Debug)]
pub enum Piece {
    /// A byte that is written as it is. The byte `%` is spelled `%%`.
    Byte(u8),
    /// A code, which takes an argument.
    Argument(Code),
}

/// The piece at the front of a text, and what stands behind it, or None where no piece stands there.
pub fn next_piece(text: &[u8]) -> Option<(Piece, &[u8])>
    ensures { option_map (λ found. (found.0, found.1.now)) result ≡ piece_at text.now }
{
    let (first, rest) = text.split_first()?;
    if *first == b'%' {
        piece_behind_percent(rest)
    } else {
        Some((Piece::Byte(*first), rest))
    }
}

/// The piece that begins with a `%` before these bytes, and what stands behind it.
fn piece_behind_percent(bytes: &[u8]) -> Option<(Piece, &[u8])>
    ensures { option_map (λ found. (found.0, found.1.now)) result ≡ behind_percent bytes.now }
{
    if let Some((code, rest)) = code_at(bytes) {
        return Some((Piece::Argument(code), rest));
    }
    let (first, rest) = bytes.split_first()?;
    if *first == b'%' {
        Some((Piece::Byte(b'%'), rest))
    } else {
        None
    }
}

/// How many pieces spell a text, of which each byte between two `%` is one. Takes time linear in it, and
/// no memory.
pub(crate) fn count_pieces(text: &[u8]) -> usize
    ensures { (pieces : List declared.Piece) → AreSpelled text.now pieces → result ≡ length pieces }
{
    let mut rest = text;
    let mut count = 0;
    while let Some((piece, behind)) = next_piece(rest) {
        let more = match piece {
            Piece::Byte(_) => place_of(b'%', behind),
            Piece::Argument(_) => 0,
        };
        count += 1 + more;
        rest = &behind[more..];
    }
    count
}

/// The first place of a byte, or the length where it is not there.
pub(crate) fn place_of(byte: u8, bytes: &[u8]) -> usize
    ensures first { result ≡ position_or_len (λ other. other == byte) bytes.now }
    ensures inside { result ≤ length bytes.now }
{
    memchr(byte, bytes).unwrap_or(bytes.len())
}
