// Lines.

ghost use Rattle.std.specs.Prelude.{◌≡◌, ◌≤◌, ◌<◌, ◌≤ℤ◌, ◌+◌, ◌++◌, All, IfOk, OnOk, count_by, drop, length, map, pos, take, unsigned_abs};
ghost use Rattle.std.specs.List.{filter_map};
ghost use Rattle.write_format.specs.Line.{HoldsBytes, cells_of, array_of, before_zero, char_arrays, element_of, numbers_taken, rendered, takes_number, line_of, text_in};
ghost use Rattle.write_format.specs.Inside.Shown.{numbers_of, plain_at};

use crate::argument::ArgKind;
use crate::code::{Code, Conversion};
use crate::field::{append_filled, append_number};
use crate::format::Format;
use crate::piece::{Piece, next_piece, place_of};
use int_kinds::{Kind, residue};
use std::alloc::{AllocError, Global};
use texts::{NoMemory, Text};

/// The line of a format with these numbers, in the order of its arguments, where its arrays of
/// characters stand in these cells. Takes time linear in the format, its arrays and the line, and
/// memory linear in the line.
pub fn render(alloc: Global, f: &Format, numbers: &[i128], cells: &[i128]) -> Result<Text, NoMemory>
    requires numbers { length numbers.now ≡ numbers_taken f.now }
    requires arrays { All (HoldsBytes cells.now) (char_arrays f.now) }
    ensures { IfOk result (λ text. text ≡ rendered f.now numbers.now cells.now) }
{
    let line = render_list(alloc, f, numbers, cells)?;
    Text::from_list(alloc, line)
}

/// The same line as [`render`], as a list of its bytes, for who shows it at once.
pub fn render_list(
    alloc: Global,
    f: &Format,
    numbers: &[i128],
    cells: &[i128],
) -> Result<Vec<u8>, NoMemory>
    requires numbers { length numbers.now ≡ numbers_taken f.now }
    requires arrays { All (HoldsBytes cells.now) (char_arrays f.now) }
    ensures { IfOk result (λ line. line.items ≡ rendered f.now numbers.now cells.now) }
{
    let mut line = Vec::with_capacity(alloc, room_of(f))?;
    let mut args = f.args();
    let mut numbers = numbers;
    let mut rest = append_plain(&mut line, f.text())?;
    while let Some((piece, behind)) = next_piece(rest) {
        match piece {
            Piece::Byte(byte) => line.push(byte)?,
            Piece::Argument(code) => {
                let arg = &args[0];
                append_argument(alloc, &mut line, code, arg, numbers, cells)?;
                numbers = behind_number(numbers, arg);
                args = &args[1..];
            }
        }
        rest = append_plain(&mut line, behind)?;
    }
    Ok(line)
}

/// How many bytes a line has at most, where no field is wider than 20 and no text is shown.
fn room_of(f: &Format) -> usize {
    f.text()
        .len()
        .saturating_add(f.numbers_taken().saturating_mul(20))
}

/// Appends the bytes before the first `%`, and gives what stands from there on.
fn append_plain<'a>(line: &mut Vec<u8>, bytes: &'a [u8]) -> Result<&'a [u8], AllocError>
    ensures line { OnOk result (line.new.items ≡ line.old.items ++ take (plain_at bytes.now) bytes.now) }
    ensures rest { IfOk result (λ rest. rest.now ≡ drop (plain_at bytes.now) bytes.now) }
{
    let (plain, rest) = bytes.split_at(place_of(b'%', bytes));
    line.extend_from_slice(plain)?;
    Ok(rest)
}

/// Appends what a code shows of an argument, if it shows it.
fn append_argument(
    alloc: Global,
    line: &mut Vec<u8>,
    code: Code,
    arg: &ArgKind,
    numbers: &[i128],
    cells: &[i128],
) -> Result<(), AllocError>
    requires numbers { count_by takes_number (element_of code.field code.conversion arg.now)
        ≤ length numbers.now }
    requires arrays { All (HoldsBytes cells.now)
        (filter_map array_of (element_of code.field code.conversion arg.now)) }
    ensures { OnOk result (line.new.items ≡ line.old.items
        ++ line_of (element_of code.field code.conversion arg.now) numbers.now cells.now) }
{
    let field = code.field;
    match (code.conversion, arg) {
        (Conversion::Number { kind, digits }, ArgKind::Number(_)) => {
            append_number(alloc, line, field, kind, digits, numbers[0])
        }
        (Conversion::Character, ArgKind::Number(_)) => {
            append_filled(line, field, &[residue(Kind::Byte, numbers[0]) as u8])
        }
        (Conversion::Text, ArgKind::Chars { base, len }) => {
            let text = text_in(alloc, cells_at(cells, *base as usize, *len as usize))?;
            append_filled(line, field, &text)
        }
        (Conversion::Text, ArgKind::Str(text)) => {
            append_filled(line, field, before_zero(text.bytes()))
        }
        _ => Ok(()),
    }
}

/// The bytes before the first 0.
fn before_zero(bytes: &[u8]) -> &[u8]
    ensures { result.now ≡ before_zero bytes.now }
{
    &bytes[..place_of(0, bytes)]
}

/// The numbers behind the one that an argument takes, if it is a number.
fn behind_number<'a>(numbers: &'a [i128], arg: &ArgKind) -> &'a [i128]
    requires { numbers_of arg.now ≤ length numbers.now }
    ensures { result.now ≡ drop (numbers_of arg.now) numbers.now }
{
    match arg {
        ArgKind::Number(_) => &numbers[1..],
        ArgKind::Chars { .. } | ArgKind::Str(_) => numbers,
    }
}

/// So many cells from one on.
fn cells_at(cells: &[i128], base: usize, len: usize) -> &[i128]
    requires { base + len ≤ length cells.now }
    ensures { result.now ≡ cells_of base len cells.now }
{
    &cells[base..base + len]
}

/// The text in cells.
fn text_in(alloc: Global, cells: &[i128]) -> Result<Vec<u8>, AllocError>
    requires { All (λ n. (pos 0 ≤ℤ n) × (n ≤ℤ pos 255)) cells.now }
    ensures { IfOk result (λ text. text.items ≡ text_in cells.now) }
{
    let mut text = Vec::new(alloc);
    for cell in cells {
        let byte = *cell as u8;
        if byte == 0 {
            return Ok(text);
        }
        text.push(byte)?;
    }
    Ok(text)
}
