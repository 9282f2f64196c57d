// The base in which a number is written.

ghost use Rattle.std.specs.Prelude.{◌≡◌, All};
ghost use Rattle.text_parts.specs.Number.{number_in, number_of_64_bits};
ghost use Rattle.capl_lexer.specs.Inside.ByteClass.{IsInClass};
ghost use Rattle.capl_lexer.specs.Inside.Base.{IsBaseOf, radix_of, prefix_of, digits_of};

use crate::byte_class::ByteClass;
use text_parts::number_in_base;

/// The base in which a number is written.
#[derive(Clone, Copy, Debug, PartialEq, Eq)]
pub(crate) enum Base {
    /// Digits alone.
    Ten,
    /// `0x` or `0X` and digits.
    Sixteen,
}

impl Base {
    /// The base of the number at the front of the text.
    pub(crate) fn at_front(text: &[u8]) -> Base
        ensures { IsBaseOf text.now result }
    {
        match text {
            [b'0', b'x' | b'X', digit, ..] if ByteClass::HexDigit.contains(*digit) => Base::Sixteen,
            _ => Base::Ten,
        }
    }

    /// How many bytes stand before the digits.
    pub(crate) fn prefix(self) -> usize
        ensures { result ≡ prefix_of self }
    {
        match self {
            Base::Ten => 0,
            Base::Sixteen => 2,
        }
    }

    /// The class of its digits.
    pub(crate) fn digits(self) -> ByteClass
        ensures { result ≡ digits_of self }
    {
        match self {
            Base::Ten => ByteClass::Digit,
            Base::Sixteen => ByteClass::HexDigit,
        }
    }

    /// The base as a number.
    fn radix(self) -> u64
        ensures { result ≡ radix_of self }
    {
        match self {
            Base::Ten => 10,
            Base::Sixteen => 16,
        }
    }

    /// The number that the digits stand for, or None where it is above 2^64 - 1.
    pub(crate) fn number(self, digits: &[u8]) -> Option<u64>
        requires { All (IsInClass (digits_of self)) digits.now }
        ensures { result ≡ number_of_64_bits (number_in (radix_of self) digits.now) }
    {
        number_in_base(self.radix(), digits)
    }
}
