// The unstuffed bits of a frame as a list.

ghost use Rattle.std.specs.Prelude.{◌≡◌, ◌++◌, OnOk, IfOk};
ghost use Rattle.frame_bits.specs.Length.{data_bits, unstuffed_bits};
ghost use Rattle.frame_bits.specs.Inside.Field.{bits_in};

use crate::crc::crc15;
use crate::field::Field;
use crate::header::header;
use can_frame::Frame;
use std::alloc::Global;
use texts::NoMemory;

/// The bits of the frame from SOF to the last CRC bit, without stuff bits. `true` is a recessive
/// 1, `false` a dominant 0.
///
/// A standard data frame has SOF (0), 11 identifier bits with the most significant first, RTR (0),
/// IDE (0), r0 (0), 4 bits of the data length code, its data bytes and 15 CRC bits. An extended
/// frame has SOF, 11 base identifier bits, SRR (1), IDE (1), 18 further identifier bits, RTR, r1
/// (0), r0 (0) and then the same. A remote frame has RTR 1 and no data bits.
pub fn bits_of(alloc: Global, f: &Frame) -> Result<Vec<bool>, NoMemory>
    ensures { IfOk result (λ bits. bits.items ≡ unstuffed_bits f.now) }
{
    let mut bits = Vec::new(alloc);
    append(&mut bits, header(f))?;
    let payload = f.payload();
    append_bytes(&mut bits, &payload[..f.data_len()])?;
    let crc = crc15(bits.as_slice());
    append(&mut bits, Field::new(15, u64::from(crc)))?;
    Ok(bits)
}

/// Appends the bits of a field.
fn append(bits: &mut Vec<bool>, field: Field) -> Result<(), NoMemory>
    ensures { OnOk result (bits.new.items ≡ bits.old.items ++ bits_in field) }
{
    for place in (0..field.width).rev() {
        bits.push(field.number >> place & 1 == 1)?;
    }
    Ok(())
}

/// Appends the bits of the bytes.
fn append_bytes(bits: &mut Vec<bool>, bytes: &[u8]) -> Result<(), NoMemory>
    ensures { OnOk result (bits.new.items ≡ bits.old.items ++ data_bits bytes.now) }
{
    for byte in bytes {
        append(bits, Field::new(8, u64::from(*byte)))?;
    }
    Ok(())
}
