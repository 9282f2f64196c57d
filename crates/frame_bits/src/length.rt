// The length of a frame on the bus.

ghost use Rattle.std.specs.Prelude.{◌≡◌, ◌≤◌};
ghost use Rattle.frame_bits.specs.Length.{IsFrameLength, frame_length, unstuffed_len, worst_length, BoundsLengths};

use crate::field::Field;
use crate::header::header;
use crate::walk::Walk;
use can_frame::Frame;

/// The CRC delimiter, the ACK slot, the ACK delimiter and seven bits of EOF.
const BITS_AFTER_CRC: u32 = 10;

/// How many bits the frame has on the bus, from SOF to the last bit of EOF with all stuff bits.
pub fn stuffed_len(f: &Frame) -> u32
    ensures length { IsFrameLength f.now result }
    ensures value { result ≡ frame_length f.now }
    ensures at_least { 44 ≤ result }
    ensures at_most { result ≤ 157 }
{
    let mut walk = Walk::new();
    walk.push(header(f));
    let payload = f.payload();
    walk.push_bytes(&payload[..f.data_len()]);
    let crc = walk.crc.value();
    walk.push(Field::new(15, u64::from(crc)));
    walk.stuffing.count() + BITS_AFTER_CRC
}

/// The greatest length of a standard or extended frame with at most so many data bytes.
///
/// From SOF to the last CRC bit a standard frame has 34 bits and 8 for each data byte, an extended
/// one 54 and 8 for each. The first stuff bit needs five bits, each further one four.
pub fn worst_len(ext: bool, bytes: u8) -> u32
    requires { bytes ≤ 8 }
    ensures value { result ≡ worst_length (unstuffed_len ext bytes) }
    ensures bound { BoundsLengths ext bytes result }
{
    let fields = if ext { 54 } else { 34 };
    let unstuffed = fields + 8 * u32::from(bytes);
    unstuffed + (unstuffed - 1) / 4 + BITS_AFTER_CRC
}
