// The program's standard output.

ghost use Rattle.std.specs.Prelude.{◌≡◌};

use crate::sink::{Sink, SinkRefusal};
use crate::writer::write_whole;
use std::io;
use std::marker::Model;

/// Standard output, written through the runtime. It tells nothing of what was written.
#[derive(Drop)]
pub struct RealSink<'a, R> {
    rt: &'a R,
    faults: u64,
}

// It is seen as the count of its faults.
impl<'a, R> Model for RealSink<'a, R> {
    ghost use Rattle.std.specs.Prelude.{ℕ};

    ghost Value = { ℕ };

    ghost view = { λ sink. sink.faults };
}

impl<'a, R: Print> RealSink<'a, R> {
    /// The standard output of this runtime. No fault is counted yet.
    pub fn new(rt: &'a R) -> RealSink<'a, R>
        ensures { result ≡ 0 }
    {
        RealSink { rt, faults: 0 }
    }
}

impl<'a, R: Print> Sink for RealSink<'a, R> {
    ghost use Rattle.std.specs.Prelude.{None};

    ghost written = { λ _. None };

    ghost faults = { λ sink. sink };

    /// Every error is a fault, and so is a system that takes nothing of what is left of the piece.
    fn write(&mut self, piece: &[u8]) -> Result<(), SinkRefusal> {
        let written = write_whole(&mut io::writer(self.rt), piece);
        if written.is_err() {
            self.faults = self.faults.saturating_add(1);
        }
        written
    }
}
