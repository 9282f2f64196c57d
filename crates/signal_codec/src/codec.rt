// The number of a signal, read and written.

ghost use Rattle.std.specs.Prelude.{◌≡◌, ◌≤◌, ◌^◌, ◌-◌};
ghost use Rattle.int_kinds.specs.Congruent.{Congruent};
ghost use Rattle.int_kinds.specs.Kind.{IsNumber};
ghost use Rattle.signal_codec.specs.Place.{bytes_of, word_of};
ghost use Rattle.signal_codec.specs.Signal.{CanHave, IsUsable, SameOtherBits, payload_with, signal_value};

use crate::layout::{Layout, lowest_place};

/// The signal's number in the payload.
pub const fn get(l: &Layout, payload: &[u8; 8]) -> i128
    requires { IsUsable l.now }
    ensures value { result ≡ signal_value l.now payload.now }
    ensures in_range { CanHave l.now result }
{
    let bits = word(l, payload) >> lowest_place(l) & low_ones(l.len);
    // The first bit of a signed signal is worth the negative, so 2^len less than in `bits`.
    let sign = if l.signed { bits >> (l.len - 1) } else { 0 };
    bits as i128 - ((sign as i128) << l.len)
}

/// Sets the signal's bits to the lowest bits of `n` in two's complement, and leaves the others as
/// they are: the signal then has the one number of its range that is congruent to `n` modulo 2 to
/// its length.
pub const fn put(l: &Layout, payload: &mut [u8; 8], n: i128)
    requires layout { IsUsable l.now }
    requires number { IsNumber n }
    ensures payload { payload.new ≡ payload_with l.now payload.old n }

    // What that means for the signal's number, and for the other bits.
    ensures congruent { Congruent (2 ^ l.now.len) (signal_value l.now payload.new) n }
    ensures in_range { CanHave l.now (signal_value l.now payload.new) }
    ensures others { SameOtherBits l.now payload.old payload.new }
{
    let ones = low_ones(l.len);
    let bits = (n.cast_unsigned() & ones as u128) as u64;
    let lowest = lowest_place(l);
    *payload = bytes(l, word(l, payload) & !(ones << lowest) | bits << lowest);
}

/// The word that the bytes make in the signal's order.
const fn word(l: &Layout, payload: &[u8; 8]) -> u64
    ensures { result ≡ word_of l.now payload.now }
{
    if l.big {
        u64::from_be_bytes(*payload)
    } else {
        u64::from_le_bytes(*payload)
    }
}

/// The bytes that make this word in the signal's order.
const fn bytes(l: &Layout, word: u64) -> [u8; 8]
    ensures { result ≡ bytes_of l.now word }
{
    // One word for both orders, so that LLVM sees through reading the bytes as a word again.
    let little = if l.big { word.swap_bytes() } else { word };
    little.to_le_bytes()
}

/// A word with this many ones, the lowest.
const fn low_ones(count: u16) -> u64
    requires least { 1 ≤ count }
    requires greatest { count ≤ 64 }
    ensures { result ≡ 2 ^ count - 1 }
{
    u64::MAX >> (64 - count)
}
