// Frames as lines spell them.

ghost use Rattle.std.specs.Prelude.{◌≡◌, ◌<◌, ◌≤◌, ◌%◌, ℕ, List, All, length, MatchOption, ◌↔◌, IsTrue};
ghost use Rattle.items.specs.Search.{Finds};
ghost use Rattle.can_frame.specs.Frame.{IsIdent};
ghost use Rattle.text_parts.specs.Number.{IsHexDigit};
ghost use Rattle.log_line.specs.Reading.{SpellsBytes, SpellsCode};
ghost use Rattle.log_line.specs.Inside.FrameField.{IsFrameField, IsIdentOf, IsFrameWith, SpellsNoData, IsData, AreBytes, SpellsNoByte, IsFirstByte, IsWithoutDot, HasParts, HasNoParts, IsUnread, HasCode, HasNoCode};

use crate::fields::split_at_byte;
use crate::numbers::{digit_value, hex_number, hex_value, is_hex_digit};
use can_frame::{Frame, Ident};
use lane_scan::all_hex;

/// What the frame of a line is.
#[derive(Clone, Copy, Debug)]
pub(crate) enum FrameField {
    /// A classic CAN frame.
    Read(Frame),
    /// The beginning of a frame of another kind, with anything behind.
    Unread,
    /// A frame with a length code above 8.
    LongCode,
}

/// A number in hexadecimal digits, and what stands behind its `#`.
#[derive(Clone, Copy, Debug)]
struct Parts<'a> {
    /// How many digits it has, 3 or 8.
    count: usize,
    /// The number.
    number: u32,
    /// What stands behind the `#`.
    behind: &'a [u8],
}

/// What stands behind the `#` of a frame.
#[derive(Clone, Copy, Debug)]
struct Data {
    /// Whether it is a remote frame's.
    remote: bool,
    /// The length code, 0 to 8.
    dlc: u8,
    /// The bytes; those past the payload are 0.
    payload: [u8; 8],
}

/// Bytes of a payload.
#[derive(Clone, Copy, Debug)]
struct Bytes {
    /// How many there are, 0 to 8.
    count: usize,
    /// The bytes; those past the count are 0.
    bytes: [u8; 8],
}

// The greatest extended identifier.
const GREATEST: u32 = 0x1FFF_FFFF;

// How many digits the data of a frame has at most.
const MOST_DIGITS: usize = 16;

/// What the frame of a line is, or None where no line has it.
pub(crate) fn frame_field(field: &[u8]) -> Option<FrameField>
    ensures { Finds (IsFrameField field.now) result }
{
    let parts = split_frame(field)?;
    if is_unread(parts.number, parts.behind) {
        return Some(FrameField::Unread);
    }
    let ident = ident_of(parts.count, parts.number)?;
    if let Some(frame) = frame_with(ident, parts.behind) {
        return Some(FrameField::Read(frame));
    }
    let front = without_code(parts.behind)?;
    match frame_with(ident, front) {
        Some(_) => Some(FrameField::LongCode),
        None => None,
    }
}

/// The number in front of a `#` and what stands behind, or None where no three or eight hexadecimal
/// digits and a `#` stand in front.
fn split_frame(field: &[u8]) -> Option<Parts<'_>>
    ensures { MatchOption result (HasNoParts field.now)
        (λ parts. HasParts field.now parts.count parts.number parts.behind.now) }
{
    let (digits, behind) = split_at_byte(field, b'#')?;
    let count = digits.len();
    if count != 3 && count != 8 {
        return None;
    }
    let number = hex_number(digits)?;
    Some(Parts {
        count,
        number,
        behind,
    })
}

/// Whether a frame with this number and what stands behind its `#` is of another kind.
fn is_unread(number: u32, behind: &[u8]) -> bool
    ensures { IsTrue result ↔ IsUnread number behind.now }
{
    number > GREATEST || behind.first().is_some_and(|byte| *byte == b'#')
}

/// What stands before a last `_` and hexadecimal digit, or None where none stand there.
fn without_code(behind: &[u8]) -> Option<&[u8]>
    ensures { MatchOption result (HasNoCode behind.now) (λ front. HasCode behind.now front.now) }
{
    let (digit, rest) = behind.split_last()?;
    if !is_hex_digit(*digit) {
        return None;
    }
    rest.strip_suffix(b"_")
}

/// The identifier with so many digits and this number, or None where there is none.
fn ident_of(count: usize, number: u32) -> Option<Ident>
    ensures { Finds (IsIdentOf count number) result }
{
    match count {
        3 if number <= 0x7FF => Some(Ident::Std(number as u16)),
        8 if number <= GREATEST => Some(Ident::Ext(number)),
        _ => None,
    }
}

/// The frame with this identifier and what stands behind its `#`, or None where that spells no data.
fn frame_with(ident: Ident, behind: &[u8]) -> Option<Frame>
    requires { IsIdent ident }
    ensures { Finds (IsFrameWith ident behind.now) result }
{
    let data = data_of(behind)?;
    Frame::make(ident, data.remote, data.dlc, data.payload, 1)
}

/// What stands behind the `#` of a frame, or None where no frame has it.
fn data_of(text: &[u8]) -> Option<Data>
    ensures { MatchOption result (SpellsNoData text.now) (IsData text.now) }
{
    if let Some(code) = text.strip_prefix(b"R") {
        return Some(Data {
            remote: true,
            dlc: code_of(code)?,
            payload: [0; 8],
        });
    }
    let bytes = bytes_of(text)?;
    Some(Data {
        remote: false,
        dlc: bytes.count as u8,
        payload: bytes.bytes,
    })
}

/// The length code behind an `R`, or None where none stands there.
fn code_of(text: &[u8]) -> Option<u8>
    ensures { Finds (SpellsCode text.now) result }
{
    match text {
        [] => Some(0),
        [digit] if matches!(digit, b'0'..=b'8') => Some(*digit - b'0'),
        _ => None,
    }
}

/// The bytes that a text of pairs spells, or None where it spells no bytes or more than eight.
fn bytes_of(text: &[u8]) -> Option<Bytes>
    ensures { MatchOption result ((bytes : List ℕ) → SpellsBytes text.now bytes → 8 < length bytes)
        (AreBytes text.now) }
{
    if text.len() <= MOST_DIGITS && text.len() % 2 == 0 && all_hex(text) {
        return Some(plain_bytes(text));
    }
    dotted_bytes(text)
}

/// The bytes that pairs of digits spell without a dot between them.
fn plain_bytes(digits: &[u8]) -> Bytes
    requires hexadecimal { All IsHexDigit digits.now }
    requires pairs { length digits.now % 2 ≡ 0 }
    requires few { length digits.now ≤ 16 }
    ensures { AreBytes digits.now result }
{
    let mut bytes = [0; 8];
    let count = digits.len() / 2;
    for place in 0..count {
        bytes[place] = hex_value(digits[2 * place]) * 16 + hex_value(digits[2 * place + 1]);
    }
    Bytes { count, bytes }
}

/// The bytes that a text of pairs spells, between which dots may stand, or None where it spells no bytes or
/// more than eight.
fn dotted_bytes(text: &[u8]) -> Option<Bytes>
    ensures { MatchOption result ((bytes : List ℕ) → SpellsBytes text.now bytes → 8 < length bytes)
        (AreBytes text.now) }
{
    let mut bytes = [0; 8];
    let mut count: usize = 0;
    let mut rest = text;
    while !rest.is_empty() {
        let (byte, behind) = first_byte(rest)?;
        if count == 8 {
            return None;
        }
        bytes[count] = byte;
        count += 1;
        rest = behind;
    }
    Some(Bytes { count, bytes })
}

/// The first byte that a text of pairs spells, and what stands behind its pair and a dot, or None
/// where no pair stands at the front.
fn first_byte(text: &[u8]) -> Option<(u8, &[u8])>
    ensures { MatchOption result (SpellsNoByte text.now)
        (λ parts. IsFirstByte text.now parts.0 parts.1.now) }
{
    let [high, low, behind @ ..] = text else {
        return None;
    };
    let byte = digit_value(*high)? * 16 + digit_value(*low)?;
    Some((byte, without_dot(behind)))
}

/// What stands behind a pair, without a dot that stands before more.
fn without_dot(behind: &[u8]) -> &[u8]
    ensures { IsWithoutDot behind.now result.now }
{
    match behind.strip_prefix(b".") {
        Some(more) if !more.is_empty() => more,
        _ => behind,
    }
}
