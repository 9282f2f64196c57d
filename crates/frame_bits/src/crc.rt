// The CRC of ISO 11898-1.

ghost use Rattle.std.specs.Prelude.{◌≡◌, ◌<◌, ◌^◌, Bool, List, [], ◌∷◌, ◌++◌};
ghost use Rattle.can_frame.specs.Frame.{field_bits, number_of};
ghost use Rattle.frame_bits.specs.Length.{crc_bits};
ghost use Rattle.frame_bits.specs.Inside.Crc.{IsRegister};

/// The generator polynomial without its leading term.
const GENERATOR: u16 = 0x4599;

/// What each nibble leaves in the register.
const REMAINDERS: [u16; 16] = [
    0x0000, 0x4599, 0x4EAB, 0x0B32, 0x58CF, 0x1D56, 0x1664, 0x53FD, 0x7407, 0x319E, 0x3AAC, 0x7F35,
    0x2CC8, 0x6951, 0x6263, 0x27FA,
];

/// The fifteen bits of the CRC register.
#[derive(Clone, Copy)]
pub struct Crc {
    register: u16,
    ghost in_range: { register < 2 ^ 15 },
}

impl Crc {
    /// The register before the first bit.
    pub fn new() -> Self
        ensures { IsRegister result.register [] }
    {
        Crc { register: 0 }
    }

    /// Takes one bit in.
    pub fn push(&mut self, bit: bool)
        ensures { (bits : List Bool) → IsRegister self.old.register bits
            → IsRegister self.new.register (bits ++ bit ∷ []) }
    {
        let leading = self.register >> 14 == 1;
        let shifted = (self.register & 0x3FFF) << 1;
        self.register = if leading == bit {
            shifted
        } else {
            shifted ^ GENERATOR
        };
    }

    /// Takes the four bits of a nibble in. They meet the leading bits of the register alone, and the
    /// others move up.
    pub fn push_nibble(&mut self, nibble: u8)
        requires { nibble < 16 }
        ensures { (bits : List Bool) → IsRegister self.old.register bits
            → IsRegister self.new.register (bits ++ field_bits 4 nibble) }
    {
        let leading = (self.register >> 11) ^ u16::from(nibble);
        let shifted = (self.register & 0x7FF) << 4;
        self.register = shifted ^ remainder(leading);
    }

    /// The CRC of the bits that were taken in.
    pub fn value(&self) -> u16
        ensures range { result < 2 ^ 15 }
        ensures value { (bits : List Bool) → IsRegister self.now.register bits
            → result ≡ number_of (crc_bits bits) }
    {
        self.register
    }
}

/// What the bits of a nibble leave in the register.
fn remainder(nibble: u16) -> u16
    requires { nibble < 16 }
    ensures range { result < 2 ^ 15 }
    ensures value { IsRegister result (field_bits 4 nibble) }
{
    REMAINDERS[usize::from(nibble)]
}

/// The CRC of the bits: their remainder by x^15 + x^14 + x^10 + x^8 + x^7 + x^4 + x^3 + 1 with
/// fifteen zeros appended, as a number of 15 bits.
pub fn crc15(bits: &[bool]) -> u16
    ensures { result ≡ number_of (crc_bits bits.now) }
{
    let mut crc = Crc::new();
    for bit in bits {
        crc.push(*bit);
    }
    crc.value()
}
