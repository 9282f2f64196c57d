// Bit stuffing, counted.

ghost use Rattle.std.specs.Prelude.{◌≡◌, ◌+◌, ◌≤◌, ◌<◌, ◌^◌, Bool, List, [], ◌∷◌, ◌++◌, length};
ghost use Rattle.can_frame.specs.Frame.{field_bits};
ghost use Rattle.frame_bits.specs.Length.{stuffing_of};
ghost use Rattle.frame_bits.specs.Inside.Stuffing.{CountsStuffing, step_behind};

/// How many equal bits bring a stuff bit.
const RUN: u8 = 5;

/// What each nibble does behind the run of each row: the upper digit is the row behind it, and the lower
/// one says how many stuff bits it brings.
const STEPS: [u8; 160] = [
    0x80, 0x30, 0x20, 0x50, 0x40, 0x30, 0x20, 0x70, 0x60, 0x30, 0x20, 0x50, 0x40, 0x30, 0x20, 0x90,
    0x80, 0x30, 0x20, 0x50, 0x40, 0x30, 0x20, 0x70, 0x60, 0x30, 0x20, 0x50, 0x40, 0x30, 0x20, 0x90,
    0x31, 0x30, 0x20, 0x50, 0x40, 0x30, 0x20, 0x70, 0x60, 0x30, 0x20, 0x50, 0x40, 0x30, 0x20, 0x90,
    0x80, 0x30, 0x20, 0x50, 0x40, 0x30, 0x20, 0x70, 0x60, 0x30, 0x20, 0x50, 0x40, 0x30, 0x20, 0x21,
    0x21, 0x51, 0x20, 0x50, 0x40, 0x30, 0x20, 0x70, 0x60, 0x30, 0x20, 0x50, 0x40, 0x30, 0x20, 0x90,
    0x80, 0x30, 0x20, 0x50, 0x40, 0x30, 0x20, 0x70, 0x60, 0x30, 0x20, 0x50, 0x40, 0x30, 0x41, 0x31,
    0x41, 0x31, 0x21, 0x71, 0x40, 0x30, 0x20, 0x70, 0x60, 0x30, 0x20, 0x50, 0x40, 0x30, 0x20, 0x90,
    0x80, 0x30, 0x20, 0x50, 0x40, 0x30, 0x20, 0x70, 0x60, 0x30, 0x20, 0x50, 0x61, 0x31, 0x21, 0x51,
    0x61, 0x31, 0x21, 0x51, 0x41, 0x31, 0x21, 0x91, 0x60, 0x30, 0x20, 0x50, 0x40, 0x30, 0x20, 0x90,
    0x80, 0x30, 0x20, 0x50, 0x40, 0x30, 0x20, 0x70, 0x81, 0x31, 0x21, 0x51, 0x41, 0x31, 0x21, 0x71,
];

/// Counts the bits of a stuffing while its unstuffed bits come one by one or by nibbles.
#[derive(Clone, Copy)]
pub struct StuffCounter {
    /// The row of the run of equal bits in which the stuffing ends: twice its length, and one more where
    /// its bits are recessive.
    row: u8,
    count: u32,
    ghost no_run_waits: { row < 10 },
}

impl StuffCounter {
    /// The counter before the first bit.
    pub fn new() -> Self
        ensures none { CountsStuffing result.row result.count [] }
        ensures zero { result.count ≡ 0 }
    {
        StuffCounter { row: 0, count: 0 }
    }

    /// Counts one bit, and the stuff bit that it may bring.
    pub fn push(&mut self, bit: bool)
        requires { self.old.count + 2 < 2 ^ 32 }
        ensures counts { (bits : List Bool) → CountsStuffing self.old.row self.old.count bits
            → CountsStuffing self.new.row self.new.count (bits ++ bit ∷ []) }
        ensures at_most_two { self.new.count ≤ self.old.count + 2 }
    {
        let step = bit_step(self.row, bit);
        self.row = step / 16;
        self.count += 1 + u32::from(step % 16);
    }

    /// Counts the four bits of a nibble, and the stuff bits that they may bring.
    pub fn push_nibble(&mut self, nibble: u8)
        requires nibble { nibble < 16 }
        requires room { self.old.count + 8 < 2 ^ 32 }
        ensures counts { (bits : List Bool) → CountsStuffing self.old.row self.old.count bits
            → CountsStuffing self.new.row self.new.count (bits ++ field_bits 4 nibble) }
        ensures at_most { self.new.count ≤ self.old.count + 8 }
    {
        let step = nibble_step(self.row, nibble);
        self.row = step / 16;
        self.count += 4 + u32::from(step % 16);
    }

    /// How many bits the stuffing has.
    pub fn count(&self) -> u32
        ensures same { result ≡ self.now.count }
        ensures value { (bits : List Bool) → CountsStuffing self.now.row self.now.count bits
            → result ≡ length (stuffing_of bits) }
    {
        self.count
    }
}

/// What a bit does behind the run of a row.
fn bit_step(row: u8, bit: bool) -> u8
    requires { row < 10 }
    ensures { result ≡ step_behind row (bit ∷ []) }
{
    let last = row % 2 == 1;
    let run = if last == bit { row / 2 + 1 } else { 1 };
    if run == RUN {
        32 + 16 * u8::from(!bit) + 1
    } else {
        32 * run + 16 * u8::from(bit)
    }
}

/// What a nibble does behind the run of a row.
fn nibble_step(row: u8, nibble: u8) -> u8
    requires row { row < 10 }
    requires nibble { nibble < 16 }
    ensures { result ≡ step_behind row (field_bits 4 nibble) }
{
    STEPS[usize::from(16 * row + nibble)]
}
