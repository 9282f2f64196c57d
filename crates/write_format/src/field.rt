// Texts and numbers in their fields (ISO/IEC 9899, fprintf: the field width and its flags).

ghost use Rattle.std.specs.Prelude.{◌≡◌, ◌≤◌, ◌<◌, ◌++◌, ◌^◌, OnOk, length, pos, replicate, unsigned_abs};
ghost use Rattle.int_kinds.specs.Kind.{wrap};
ghost use Rattle.write_format.specs.Line.{digits_of, filled, filled_number, number_text, sign_of};

use crate::code::{Digits, Field};
use int_kinds::{Kind, residue, wrap};
use itoa::Buffer;
use std::alloc::{AllocError, Global};

/// Appends a number of the kind, in digits.
pub(crate) fn append_number(
    alloc: Global,
    line: &mut Vec<u8>,
    field: Field,
    kind: Kind,
    digits: Digits,
    n: i128,
) -> Result<(), AllocError>
    ensures { OnOk result (line.new.items ≡ line.old.items ++ number_text field kind digits n) }
{
    let value = wrap_any(kind, n);
    let sign: &[u8] = if value < 0 { b"-" } else { b"" };
    append_digits(
        alloc,
        line,
        field,
        sign,
        digits,
        value.unsigned_abs() as u64,
    )
}

/// The number of the kind that is congruent to `n`, which may be any.
fn wrap_any(kind: Kind, n: i128) -> i128
    ensures { result ≡ wrap kind n }
{
    wrap(kind, i128::from(residue(kind, n)))
}

/// Appends a sign and the digits of a number.
fn append_digits(
    alloc: Global,
    line: &mut Vec<u8>,
    field: Field,
    sign: &[u8],
    digits: Digits,
    n: u64,
) -> Result<(), AllocError>
    requires { length sign.now ≤ 1 }
    ensures { OnOk result (
        line.new.items ≡ line.old.items ++ filled_number field sign.now (digits_of digits n)) }
{
    let mut buffer = Buffer::new();
    match digits {
        Digits::Decimal => append_numeral(line, field, sign, buffer.format(n).as_bytes()),
        Digits::LowerHexadecimal => {
            append_numeral(line, field, sign, format!(in alloc; "{n:x}")?.as_bytes())
        }
        Digits::UpperHexadecimal => {
            append_numeral(line, field, sign, format!(in alloc; "{n:X}")?.as_bytes())
        }
        Digits::Octal => append_numeral(line, field, sign, format!(in alloc; "{n:o}")?.as_bytes()),
    }
}

/// Appends a sign and a numeral.
fn append_numeral(
    line: &mut Vec<u8>,
    field: Field,
    sign: &[u8],
    numeral: &[u8],
) -> Result<(), AllocError>
    requires { length sign.now ≤ 1 }
    ensures { OnOk result (line.new.items ≡ line.old.items ++ filled_number field sign.now numeral.now) }
{
    let count = usize::from(field.width).saturating_sub(sign.len() + numeral.len());
    if !field.left && !field.zeros {
        append_copies(line, b' ', count)?;
    }
    line.extend_from_slice(sign)?;
    if !field.left && field.zeros {
        append_copies(line, b'0', count)?;
    }
    line.extend_from_slice(numeral)?;
    if field.left {
        append_copies(line, b' ', count)?;
    }
    Ok(())
}

/// Appends a text.
pub(crate) fn append_filled(line: &mut Vec<u8>, field: Field, text: &[u8]) -> Result<(), AllocError>
    ensures { OnOk result (line.new.items ≡ line.old.items ++ filled field text.now) }
{
    let count = usize::from(field.width).saturating_sub(text.len());
    if !field.left {
        append_copies(line, b' ', count)?;
    }
    line.extend_from_slice(text)?;
    if field.left {
        append_copies(line, b' ', count)?;
    }
    Ok(())
}

/// Appends a byte so many times.
fn append_copies(line: &mut Vec<u8>, byte: u8, count: usize) -> Result<(), AllocError>
    ensures { OnOk result (line.new.items ≡ line.old.items ++ replicate count byte) }
{
    for _ in 0..count {
        line.push(byte)?;
    }
    Ok(())
}
