// Numerals as lines have them.

ghost use Rattle.std.specs.Prelude.{◌≡◌, ◌<◌, ◌++◌, OnOk, decimal, replicate, true};
ghost use Rattle.std.specs.Fmt.{digit_glyph};
ghost use Rattle.text_parts.specs.Number.{zero_filled, hexadecimal};
ghost use Rattle.log_line.specs.Written.{byte_text};

use itoa::Buffer;
use texts::NoMemory;

/// The hexadecimal digits.
const GLYPHS: [u8; 16] = *b"0123456789ABCDEF";

/// Appends the decimal digits of a number, behind as many zeros as it lacks of so many digits.
pub(crate) fn append_decimal(line: &mut Vec<u8>, least: usize, number: u64) -> Result<(), NoMemory>
    ensures { OnOk result (line.new.items ≡ line.old.items ++ zero_filled least (decimal number)) }
{
    let mut buffer = Buffer::new();
    let numeral = buffer.format(number).as_bytes();
    append_zeros(line, least.saturating_sub(numeral.len()))?;
    line.extend_from_slice(numeral)?;
    Ok(())
}

/// Appends so many zeros.
fn append_zeros(line: &mut Vec<u8>, count: usize) -> Result<(), NoMemory>
    ensures { OnOk result (line.new.items ≡ line.old.items ++ replicate count 48) }
{
    for _ in 0..count {
        line.push(b'0')?;
    }
    Ok(())
}

/// Appends a number below 16^3 as three hexadecimal digits.
pub(crate) fn append_three(line: &mut Vec<u8>, number: u16) -> Result<(), NoMemory>
    requires { number < 0x1000 }
    ensures { OnOk result (line.new.items ≡ line.old.items ++ zero_filled 3 (hexadecimal number)) }
{
    line.push(glyph((number / 0x100) as u8))?;
    append_byte(line, (number % 0x100) as u8)
}

/// Appends a number as eight hexadecimal digits.
pub(crate) fn append_eight(line: &mut Vec<u8>, number: u32) -> Result<(), NoMemory>
    ensures { OnOk result (line.new.items ≡ line.old.items ++ zero_filled 8 (hexadecimal number)) }
{
    append_byte(line, (number / 0x100_0000) as u8)?;
    append_byte(line, (number / 0x1_0000 % 0x100) as u8)?;
    append_byte(line, (number / 0x100 % 0x100) as u8)?;
    append_byte(line, (number % 0x100) as u8)
}

/// Appends a byte as two hexadecimal digits.
pub(crate) fn append_byte(line: &mut Vec<u8>, byte: u8) -> Result<(), NoMemory>
    ensures { OnOk result (line.new.items ≡ line.old.items ++ byte_text byte) }
{
    line.push(glyph(byte / 16))?;
    line.push(glyph(byte % 16))?;
    Ok(())
}

/// The hexadecimal digit of a number below 16.
fn glyph(number: u8) -> u8
    requires { number < 16 }
    ensures { result ≡ digit_glyph true number }
{
    GLYPHS[usize::from(number)]
}
