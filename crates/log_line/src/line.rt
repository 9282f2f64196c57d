// What a log line says.

ghost use Rattle.std.specs.Prelude.{◌≡◌};
ghost use Rattle.log_line.specs.declared.line.LineRefusal.TheVariants.{NoMemory};

use can_frame::Frame;
use texts::{NoMemory, Text};

/// A frame in a log: when it ended, on which interface, and the frame.
#[derive(Debug, Drop)]
pub struct Entry {
    /// The whole seconds of the stamp, below 10^15 where the entry was read.
    pub seconds: u64,
    /// The microseconds of the stamp, 0 to 999,999.
    pub micros: u32,
    /// The name of the interface: 1 to 15 bytes from 33 to 126 where the entry was read.
    pub interface: Text,
    /// The frame, of channel 1 where the entry was read.
    pub frame: Frame,
}

/// What a line of a log says.
#[derive(Debug, Drop)]
pub enum Line {
    /// A classic CAN frame.
    Entry(Entry),
    /// A frame of another kind, which is passed over.
    Skip,
    /// Blanks alone.
    Empty,
}

/// An entry that is read in place: its interface is borrowed from the line.
#[derive(Clone, Copy, Debug)]
pub struct EntryView<'a> {
    /// The whole seconds of the stamp, below 10^15.
    pub seconds: u64,
    /// The microseconds of the stamp, 0 to 999,999.
    pub micros: u32,
    /// The name of the interface: 1 to 15 bytes from 33 to 126.
    pub interface: &'a [u8],
    /// The frame, of channel 1.
    pub frame: Frame,
}

/// What a line says, read in place.
#[derive(Clone, Copy, Debug)]
pub enum LineView<'a> {
    /// A classic CAN frame.
    Entry(EntryView<'a>),
    /// A frame of another kind, which is passed over.
    Skip,
    /// Blanks alone.
    Empty,
}

/// Why a line was not read.
#[derive(Clone, Copy, Debug, PartialEq, Eq)]
pub enum LineRefusal {
    /// The line has no reading.
    NotALine,
    /// There was no memory for the name of the interface.
    NoMemory,
}

impl From<NoMemory> for LineRefusal {
    ghost from_gives = { λ _ refusal. refusal ≡ NoMemory };

    fn from(_: NoMemory) -> LineRefusal {
        LineRefusal::NoMemory
    }
}
