// The numbers that digits stand for.

ghost use Rattle.std.specs.Prelude.{◌≡◌, ◌≤◌, All};
ghost use Rattle.std.specs.List.{list_all};
ghost use Rattle.text_parts.specs.Number.{IsHexDigit, digit_value, number_in, number_of_64_bits, is_digit, number_up_to};

/// The number that decimal digits stand for, the most significant first, or None where there is no
/// digit, a byte is no decimal digit, or the number is above the limit. Leading zeros are taken.
/// Takes time linear in the bytes.
pub fn decimal_number(bytes: &[u8], limit: u64) -> Option<u64>
    ensures { result ≡ number_up_to limit bytes.now }
{
    if bytes.is_empty() || !are_digits(bytes) {
        return None;
    }
    let number = number_in_base(10, bytes)?;
    if number <= limit { Some(number) } else { None }
}

/// Whether each byte is a decimal digit.
fn are_digits(bytes: &[u8]) -> bool
    ensures { result ≡ list_all is_digit bytes.now }
{
    bytes.iter().all(|byte| (b'0'..=b'9').contains(byte))
}

/// The number that digits stand for in a base, the most significant first, or None where it is above
/// 2^64 - 1. No digits stand for 0. Takes time linear in the digits.
pub fn number_in_base(base: u64, digits: &[u8]) -> Option<u64>
    requires base { 1 ≤ base }
    requires digits { All IsHexDigit digits.now }
    ensures { result ≡ number_of_64_bits (number_in base digits.now) }
{
    let mut number = 0u64;
    for digit in digits {
        number = number.checked_mul(base)?.checked_add(value_of(*digit))?;
    }
    Some(number)
}

/// What a hexadecimal digit stands for.
fn value_of(digit: u8) -> u64
    requires { IsHexDigit digit }
    ensures { result ≡ digit_value digit }
{
    let value = match digit {
        b'0'..=b'9' => digit - b'0',
        b'A'..=b'F' => digit - b'A' + 10,
        _ => digit - b'a' + 10,
    };
    u64::from(value)
}
