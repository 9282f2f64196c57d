// The bits of a frame before its data field.

ghost use Rattle.std.specs.Prelude.{◌≡◌};
ghost use Rattle.frame_bits.specs.Length.{header_bits};
ghost use Rattle.frame_bits.specs.Inside.Field.{bits_in};

use crate::field::Field;
use can_frame::{Frame, Ident};

/// The bits from SOF to the data length code, as one field.
pub fn header(f: &Frame) -> Field
    ensures { bits_in result ≡ header_bits f.now.ident f.now.remote f.now.dlc }
{
    // RTR, two dominant bits, DLC
    let control = u64::from(f.rtr()) * 64 + u64::from(f.dlc());
    match f.ident() {
        // SOF and the identifier before them
        Ident::Std(number) => Field::new(19, u64::from(number) * 128 + control),
        // SOF and the base identifier, SRR and IDE, the further identifier
        Ident::Ext(number) => {
            let base = u64::from(number >> 18) * 4 + 3;
            let further = u64::from(number & 0x3_FFFF);
            Field::new(39, (base * 0x4_0000 + further) * 128 + control)
        }
    }
}
