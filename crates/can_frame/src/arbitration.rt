// The keys that order frames and name identifiers.

ghost use Rattle.std.specs.Prelude.{◌≡◌};
ghost use Rattle.can_frame.specs.Frame.{arbitration_key, selection_key};

use crate::{Frame, Ident};

/// The arbitration key of ISO 11898-1 as a number of 32 bits, filled with zeros on the right.
///
/// It is the arbitration field, for a standard frame with the IDE bit behind it. Of two frames the
/// one with the lesser key wins the bus.
pub fn arb_key(f: &Frame) -> u32
    ensures { result ≡ arbitration_key f.now }
{
    let remote = u32::from(f.rtr);
    match f.ident {
        Ident::Std(number) => u32::from(number) << 21 | remote << 20,
        Ident::Ext(number) => {
            let base = number >> 18;
            let further = number & 0x3_FFFF;
            base << 21 | 0b11 << 19 | further << 1 | remote
        }
    }
}

/// The identifier, plus 0x8000_0000 where it is extended.
pub fn sel_key(f: &Frame) -> u32
    ensures { result ≡ selection_key f.now.ident }
{
    match f.ident {
        Ident::Std(number) => u32::from(number),
        Ident::Ext(number) => number + 0x8000_0000,
    }
}
