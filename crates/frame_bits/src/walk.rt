// A walk over the bits of a frame, with a CRC register and a counter of the stuffing.

ghost use Rattle.std.specs.Prelude.{◌≡◌, ◌+◌, ◌*◌, ◌≤◌, ◌<◌, ◌^◌, [], ◌∷◌, length};
ghost use Rattle.can_frame.specs.Frame.{field_bits};
ghost use Rattle.frame_bits.specs.Length.{data_bits};
ghost use Rattle.frame_bits.specs.Inside.Field.{bits_in};
ghost use Rattle.frame_bits.specs.Inside.Walk.{HasWalked, GoesOver};

use crate::crc::Crc;
use crate::field::Field;
use crate::stuffing::StuffCounter;

#[derive(Clone, Copy)]
pub struct Walk {
    pub crc: Crc,
    pub stuffing: StuffCounter,
}

impl Walk {
    /// The walk before the first bit.
    pub fn new() -> Self
        ensures none { HasWalked result [] }
        ensures zero { result.stuffing.count ≡ 0 }
    {
        Walk {
            crc: Crc::new(),
            stuffing: StuffCounter::new(),
        }
    }

    /// Goes over one bit.
    fn push_bit(&mut self, bit: bool)
        requires { self.old.stuffing.count + 2 < 2 ^ 32 }
        ensures walked { GoesOver self.old self.new (bit ∷ []) }
        ensures at_most_two { self.new.stuffing.count ≤ self.old.stuffing.count + 2 }
    {
        self.crc.push(bit);
        self.stuffing.push(bit);
    }

    /// Goes over the four bits of a nibble.
    fn push_nibble(&mut self, nibble: u8)
        requires nibble { nibble < 16 }
        requires room { self.old.stuffing.count + 8 < 2 ^ 32 }
        ensures walked { GoesOver self.old self.new (field_bits 4 nibble) }
        ensures at_most { self.new.stuffing.count ≤ self.old.stuffing.count + 8 }
    {
        self.crc.push_nibble(nibble);
        self.stuffing.push_nibble(nibble);
    }

    /// Goes over the bits of a field: those that make no whole nibble, and then nibbles.
    pub fn push(&mut self, field: Field)
        requires { self.old.stuffing.count + 2 * field.width < 2 ^ 32 }
        ensures walked { GoesOver self.old self.new (bits_in field) }
        ensures at_most_two { self.new.stuffing.count ≤ self.old.stuffing.count + 2 * field.width }
    {
        let nibbles = field.width / 4;
        self.push_bits(Field::new(field.width % 4, field.number >> (4 * nibbles)));
        self.push_nibbles(field.number, nibbles);
    }

    /// Goes over so many nibbles, the lowest of the number.
    fn push_nibbles(&mut self, number: u64, nibbles: u8)
        requires few { nibbles ≤ 9 }
        requires room { self.old.stuffing.count + 8 * nibbles < 2 ^ 32 }
        ensures walked { GoesOver self.old self.new (field_bits (4 * nibbles) number) }
        ensures at_most { self.new.stuffing.count ≤ self.old.stuffing.count + 8 * nibbles }
    {
        for place in (0..nibbles).rev() {
            self.push_nibble((number >> (4 * place) & 0xF) as u8);
        }
    }

    /// Goes over the bits of a field one by one.
    fn push_bits(&mut self, field: Field)
        requires { self.old.stuffing.count + 2 * field.width < 2 ^ 32 }
        ensures walked { GoesOver self.old self.new (bits_in field) }
        ensures at_most_two { self.new.stuffing.count ≤ self.old.stuffing.count + 2 * field.width }
    {
        for place in (0..field.width).rev() {
            self.push_bit(field.number >> place & 1 == 1);
        }
    }

    /// Goes over the bits of the bytes.
    pub fn push_bytes(&mut self, bytes: &[u8])
        requires { self.old.stuffing.count + 16 * length bytes.now < 2 ^ 32 }
        ensures walked { GoesOver self.old self.new (data_bits bytes.now) }
        ensures at_most { self.new.stuffing.count ≤ self.old.stuffing.count + 16 * length bytes.now }
    {
        for byte in bytes {
            self.push(Field::new(8, u64::from(*byte)));
        }
    }
}
