// A record in memory.

ghost use Rattle.std.specs.Prelude.{◌≡◌, []};

use crate::record::{Noted, Record};
use can_frame::Frame;
use std::alloc::Global;
use std::marker::Model;
use texts::Text;
use vm_host::RecordFault;

/// A record that keeps its entries, and has no faults. Contracts see the list of them.
#[derive(Drop)]
pub struct MemRecord {
    alloc: Global,
    list: Vec<Noted>,
}

impl Model for MemRecord {
    ghost use Rattle.std.specs.Prelude.{List};
    ghost use Rattle.run_records.specs.declared.record.Noted.{Noted};

    ghost Value = { List Noted };

    ghost view = { λ kept. kept.list.items };
}

impl MemRecord {
    /// A record without an entry. Takes no memory.
    pub fn new(alloc: Global) -> MemRecord
        ensures { result ≡ [] }
    {
        MemRecord {
            alloc,
            list: Vec::new(alloc),
        }
    }

    /// The entries, in order.
    pub fn noted(&self) -> &[Noted]
        ensures { result.now ≡ self.now }
    {
        self.list.as_slice()
    }
}

impl Record for MemRecord {
    ghost use Rattle.std.specs.Prelude.{◌≡◌, Some, [], ◌∷◌, ◌++◌};

    ghost meaning = { record {
      entries = λ kept. Some kept;
      faults = λ kept. 0;
      takes = λ before noted after. after ≡ before ++ noted ∷ [];
      refuses = λ before noted after. after ≡ before;
    } };

    fn line(&mut self, now: u64, node: u32, text: &[u8]) -> Result<(), RecordFault> {
        let text = Text::make(self.alloc, text)?;
        if self.list.push(Noted::Line { now, node, text }).is_err() {
            return Err(RecordFault::NoMemory);
        }
        Ok(())
    }

    fn frame(&mut self, now: u64, f: &Frame) -> Result<(), RecordFault> {
        if self.list.push(Noted::Frame { now, frame: *f }).is_err() {
            return Err(RecordFault::NoMemory);
        }
        Ok(())
    }
}
