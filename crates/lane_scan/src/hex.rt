// Bytes that are hexadecimal digits.

ghost use Rattle.std.specs.Prelude.{◌+◌, ◌≤◌, ◌↔◌, length, All, IsTrue};
ghost use Rattle.std.specs.List.{AllWithin};
ghost use Rattle.std.specs.Char.{IsAsciiHexdigit};

use std::simd::prelude::*;

/// How many bytes are compared at once.
const LANES: usize = 16;

/// Whether each byte is one of `0` to `9`, `A` to `F` or `a` to `f`; true of no bytes.
pub fn all_hex(bytes: &[u8]) -> bool
    ensures { IsTrue result ↔ All IsAsciiHexdigit bytes.now }
{
    let mut place = 0;
    while bytes.len() - place >= LANES {
        if !are_lanes_hex(bytes, place) {
            return false;
        }
        place += LANES;
    }
    are_all_hex(&bytes[place..])
}

/// Whether each byte is a hexadecimal digit, byte by byte.
fn are_all_hex(bytes: &[u8]) -> bool
    ensures { IsTrue result ↔ All IsAsciiHexdigit bytes.now }
{
    bytes.iter().all(|byte| byte.is_ascii_hexdigit())
}

/// Whether each byte of the vector that begins at the place is a hexadecimal digit.
fn are_lanes_hex(bytes: &[u8], place: usize) -> bool
    requires { place + LANES ≤ length bytes.now }
    ensures { IsTrue result ↔ AllWithin IsAsciiHexdigit bytes.now place (place + LANES) }
{
    let lanes = u8x16::from_slice(&bytes[place..]);
    let outside = lanes.simd_lt(u8x16::splat(b'0'))
        | lanes.simd_gt(u8x16::splat(b'9')) & lanes.simd_lt(u8x16::splat(b'A'))
        | lanes.simd_gt(u8x16::splat(b'F')) & lanes.simd_lt(u8x16::splat(b'a'))
        | lanes.simd_gt(u8x16::splat(b'f'));
    outside.to_bitmask() == 0
}
