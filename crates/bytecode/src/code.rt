// Code with its tables.

use crate::instr::Instr;
use int_kinds::Kind;
use items::Items;
use run_effects::Event;
use write_format::Format;

/// A function: the places from `start` up to `end`, which is not one of them.
#[derive(Clone, Copy, Debug, PartialEq, Eq)]
pub struct Fun {
    /// The first place.
    pub start: u32,
    /// The place after the last one.
    pub end: u32,
    /// Whether it gives a number to its caller.
    pub gives: bool,
}

/// An event procedure, and where it stands in its source.
#[derive(Debug, Drop)]
pub struct Handler {
    /// What it reacts to.
    pub event: Event,
    /// The number of the function that it runs.
    pub function: u32,
    /// The number of its file.
    pub file: u32,
    /// Its line in this file.
    pub line: u32,
}

/// The code of a program.
///
/// Cells 0 to 13 are the message of the event and cell 14 is its key. A message takes 14 cells: the
/// identifier, the length, the remote bit, the channel, the direction, the time and 8 bytes.
#[derive(Debug)]
pub struct Code {
    /// The instructions.
    pub instrs: Items<Instr>,
    /// For each instruction how many numbers of its function are on the stack when it is reached.
    pub depths: Items<u32>,
    /// The functions, in the order of their places.
    pub functions: Items<Fun>,
    /// The event procedures.
    pub handlers: Items<Handler>,
    /// The kind of each cell.
    pub cells: Items<Kind>,
    /// Cells with their initial values. All other cells begin with 0.
    pub starts: Items<(u32, i128)>,
    /// The unit of each timer in microseconds.
    pub timers: Items<u64>,
    /// The formats of the lines that it writes.
    pub formats: Items<Format>,
}

// Written out, so that no crate that drops code has the drops of its lists proved once more.
impl Drop for Code {
    fn drop(self) {
        let Code {
            instrs,
            depths,
            functions,
            handlers,
            cells,
            starts,
            timers,
            formats,
        } = self;
        drop(instrs);
        drop(depths);
        drop(functions);
        drop(handlers);
        drop(cells);
        drop(starts);
        drop(timers);
        drop(formats);
    }
}
