// Where a signal lies in a payload.

ghost use Rattle.std.specs.Prelude.{◌≡◌, ◌<◌, ◌≤◌, ◌+◌, ◌↔◌, IsTrue};
ghost use Rattle.signal_codec.specs.Signal.{IsUsable};
ghost use Rattle.signal_codec.specs.Place.{big_endian_place, lowest_place};

/// Where a signal lies in a payload of 8 bytes, and how its bits are read.
///
/// Bit `b` of byte `i` of a payload has the number `8 * i + b`, where bit 0 is the least
/// significant.
#[derive(Clone, Copy, Debug, PartialEq, Eq, Hash)]
pub struct Layout {
    /// The number of the signal's least significant bit in little-endian order, and of its most
    /// significant one in big-endian order.
    pub start: u16,
    /// How many bits the signal has.
    pub len: u16,
    /// Whether the bits are in big-endian order: each next one, towards the least significant, is
    /// one lower in its byte, and after bit 0 of a byte comes bit 7 of the next byte. In
    /// little-endian order each next one, towards the most significant, has the next number.
    pub big: bool,
    /// Whether the bits are a number in two's complement.
    pub signed: bool,
}

/// Whether the signal has 1 to 64 bits, which all lie in the payload.
pub const fn usable(l: &Layout) -> bool
    ensures { IsTrue result ↔ IsUsable l.now }
{
    if l.start >= 64 || l.len == 0 {
        return false;
    }
    if l.big {
        l.len <= place(l.start) + 1
    } else {
        l.len <= 64 - l.start
    }
}

/// The place of the signal's least significant bit in the word that the bytes make in the signal's
/// order. The other bits stand above it, without a gap.
pub(crate) const fn lowest_place(l: &Layout) -> u16
    requires { IsUsable l.now }
    ensures place { result ≡ lowest_place l.now }
    ensures room { result + l.now.len ≤ 64 }
{
    if l.big {
        place(l.start) + 1 - l.len
    } else {
        l.start
    }
}

/// The place of a bit, by its number, in the word that the bytes make in big-endian order, which
/// has the last byte lowest.
const fn place(number: u16) -> u16
    requires { number < 64 }
    ensures { result ≡ big_endian_place number }
{
    8 * (7 - number / 8) + number % 8
}
