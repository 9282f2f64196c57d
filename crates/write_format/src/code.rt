// Codes: flags, a width, and the letters of a conversion (ISO/IEC 9899, fprintf, of which CAPL's
// `write` has these).

ghost use Rattle.std.specs.Prelude.{◌≡◌, IfSome, Some};
ghost use Rattle.std.specs.List.{AllPass, prefix_len};
ghost use Rattle.std.specs.Option.{option_map};
ghost use Rattle.text_parts.specs.Number.{is_digit};
ghost use Rattle.write_format.specs.Reading.{code_at, conversion_at, conversion_of, field_of, is_flag, long_conversion, plain_conversion, size_at, wide_conversion};

use int_kinds::Kind;
use text_parts::number_in_base;

/// How a text is laid out.
#[derive(Clone, Copy, Debug)]
pub struct Field {
    /// Whether it stands on the left.
    pub left: bool,
    /// Whether a number is filled with zeros.
    pub zeros: bool,
    /// How many bytes it has at least; at most 32.
    pub width: u8,
}

/// The digits that a number is shown in.
#[derive(Clone, Copy, Debug)]
pub enum Digits {
    /// Decimal digits.
    Decimal,
    /// Hexadecimal digits, a to f in lower case.
    LowerHexadecimal,
    /// Hexadecimal digits, A to F in upper case.
    UpperHexadecimal,
    /// Octal digits.
    Octal,
}

/// What a code makes of its argument.
#[derive(Clone, Copy, Debug)]
pub enum Conversion {
    /// A number of a kind, in digits.
    Number {
        /// The kind that the argument is wrapped to.
        kind: Kind,
        /// The digits.
        digits: Digits,
    },
    /// The byte of a number.
    Character,
    /// A text.
    Text,
}

/// A code.
#[derive(Clone, Copy, Debug)]
pub struct Code {
    /// How the text of its argument is laid out.
    pub field: Field,
    /// What it makes of its argument.
    pub conversion: Conversion,
}

/// What stands before the letter of a conversion.
#[derive(Clone, Copy, Debug)]
pub(crate) enum Size {
    /// Nothing.
    Plain,
    /// `l`.
    L,
    /// `I64`.
    I64,
}

/// The code at the front, behind its `%`, and what stands behind it.
pub(crate) fn code_at(bytes: &[u8]) -> Option<(Code, &[u8])>
    ensures { option_map (λ found. (found.0, found.1.now)) result ≡ code_at bytes.now }
{
    match letter_code_at(bytes) {
        Some(found) => Some(found),
        None => field_code_at(bytes),
    }
}

/// The code at the front where it is one letter, as most are, and what stands behind it.
fn letter_code_at(bytes: &[u8]) -> Option<(Code, &[u8])>
    ensures { IfSome result (λ found. code_at bytes.now ≡ Some (found.0, found.1.now)) }
{
    let (letter, rest) = bytes.split_first()?;
    let conversion = plain_conversion(*letter)?;
    let field = Field {
        left: false,
        zeros: false,
        width: 0,
    };
    Some((Code { field, conversion }, rest))
}

/// The code at the front, with any flags and width, and what stands behind it.
fn field_code_at(bytes: &[u8]) -> Option<(Code, &[u8])>
    ensures { option_map (λ found. (found.0, found.1.now)) result ≡ code_at bytes.now }
{
    let (flags, rest) = bytes.split_at(flag_count(bytes));
    let (numeral, rest) = rest.split_at(digit_count(rest));
    let field = field_of(flags, numeral)?;
    let Some((conversion, rest)) = conversion_at(rest) else {
        return None;
    };
    Some((Code { field, conversion }, rest))
}

/// How many flags stand at the front.
fn flag_count(bytes: &[u8]) -> usize
    ensures { result ≡ prefix_len is_flag bytes.now }
{
    for (place, byte) in bytes.iter().enumerate() {
        if !is_flag(*byte) {
            return place;
        }
    }
    bytes.len()
}

/// Whether the byte is a flag.
fn is_flag(byte: u8) -> bool
    ensures { result ≡ is_flag byte }
{
    byte == b'-' || byte == b'0'
}

/// How many decimal digits stand at the front.
fn digit_count(bytes: &[u8]) -> usize
    ensures { result ≡ prefix_len is_digit bytes.now }
{
    for (place, byte) in bytes.iter().enumerate() {
        if !is_digit(*byte) {
            return place;
        }
    }
    bytes.len()
}

/// Whether the byte is a decimal digit.
fn is_digit(byte: u8) -> bool
    ensures { result ≡ is_digit byte }
{
    (b'0'..=b'9').contains(&byte)
}

/// The field of these flags and this width, or None where the width is above 32.
fn field_of(flags: &[u8], numeral: &[u8]) -> Option<Field>
    requires { AllPass is_digit numeral.now }
    ensures { result ≡ field_of flags.now numeral.now }
{
    let width = number_in_base(10, numeral)?;
    if width > 32 {
        return None;
    }
    Some(Field {
        left: flags.contains(&b'-'),
        zeros: flags.contains(&b'0'),
        width: width as u8,
    })
}

/// The conversion at the front, and what stands behind its letters.
fn conversion_at(bytes: &[u8]) -> Option<(Conversion, &[u8])>
    ensures { option_map (λ found. (found.0, found.1.now)) result ≡ conversion_at bytes.now }
{
    let (size, rest) = size_at(bytes);
    let (letter, rest) = rest.split_first()?;
    let conversion = conversion_of(size, *letter)?;
    Some((conversion, rest))
}

/// The size that letters begin with, and what stands behind it.
fn size_at(bytes: &[u8]) -> (Size, &[u8])
    ensures { (result.0, result.1.now) ≡ size_at bytes.now }
{
    if bytes.starts_with(b"I64") {
        (Size::I64, &bytes[3..])
    } else if bytes.starts_with(b"l") {
        (Size::L, &bytes[1..])
    } else {
        (Size::Plain, bytes)
    }
}

/// The conversion of a letter behind a size.
fn conversion_of(size: Size, letter: u8) -> Option<Conversion>
    ensures { result ≡ conversion_of size letter }
{
    match size {
        Size::Plain => plain_conversion(letter),
        Size::L => long_conversion(letter),
        Size::I64 => wide_conversion(letter),
    }
}

/// The conversion of a letter that stands alone.
fn plain_conversion(letter: u8) -> Option<Conversion>
    ensures { result ≡ plain_conversion letter }
{
    match letter {
        b'c' => Some(Conversion::Character),
        b's' => Some(Conversion::Text),
        _ => long_conversion(letter),
    }
}

/// The conversion of a letter behind `l`, and of one alone.
fn long_conversion(letter: u8) -> Option<Conversion>
    ensures { result ≡ long_conversion letter }
{
    let (kind, digits) = match letter {
        b'd' => (Kind::Long, Digits::Decimal),
        b'u' => (Kind::Dword, Digits::Decimal),
        b'x' => (Kind::Dword, Digits::LowerHexadecimal),
        b'X' => (Kind::Dword, Digits::UpperHexadecimal),
        b'o' => (Kind::Dword, Digits::Octal),
        _ => return None,
    };
    Some(Conversion::Number { kind, digits })
}

/// The conversion of a letter behind `I64`.
fn wide_conversion(letter: u8) -> Option<Conversion>
    ensures { result ≡ wide_conversion letter }
{
    let (kind, digits) = match letter {
        b'd' => (Kind::Int64, Digits::Decimal),
        b'u' => (Kind::Qword, Digits::Decimal),
        b'x' => (Kind::Qword, Digits::LowerHexadecimal),
        _ => return None,
    };
    Some(Conversion::Number { kind, digits })
}
