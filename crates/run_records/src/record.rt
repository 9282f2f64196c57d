// The record of a run.

ghost use Rattle.std.specs.Prelude.{◌≡◌, ◌≤◌, [], ◌∷◌, ◌++◌, Some, OnOk, OnErr, IsErrOf};
ghost use Rattle.run_records.specs.declared.record.Noted.TheVariants as entry;
ghost use Rattle.run_records.specs.Record.{RecordMeaning, TakesEntry, RefusesEntry, RecordFaultsRise};

use can_frame::Frame;
use texts::Text;
use vm_host::RecordFault;

/// One entry of a record.
#[derive(Debug, Drop)]
pub enum Noted {
    /// A line that a node wrote, without its line feed.
    Line {
        /// The moment, in microseconds.
        now: u64,
        /// The node's number.
        node: u32,
        /// The text.
        text: Text,
    },
    /// A frame that was on the bus.
    Frame {
        /// The moment at which it ended, in microseconds.
        now: u64,
        /// The frame.
        frame: Frame,
    },
}

/// What keeps or passes on the entries of a run, in order.
///
/// A refused entry is no entry: the record tells those that it had before.
pub trait Record {
    /// What its states mean: the entries, where they are told, the faults, and how it may stand after
    /// it took or refused an entry.
    ghost meaning: { RecordMeaning Self };

    /// Takes a line that a node wrote at a moment.
    fn line(&mut self, now: u64, node: u32, text: &[u8]) -> Result<(), RecordFault>
        ensures taken { OnOk result (TakesEntry meaning self.old (entry.Line now node text.now) self.new) }
        ensures refused { OnErr result
            (RefusesEntry meaning self.old (entry.Line now node text.now) self.new) }
        ensures sink { IsErrOf result RecordFault.Sink → RecordFaultsRise meaning self.old self.new }
        ensures faults_stay { meaning.faults self.old ≤ meaning.faults self.new };

    /// Takes a frame that ended at a moment.
    fn frame(&mut self, now: u64, f: &Frame) -> Result<(), RecordFault>
        ensures taken { OnOk result (TakesEntry meaning self.old (entry.Frame now f.now) self.new) }
        ensures refused { OnErr result (RefusesEntry meaning self.old (entry.Frame now f.now) self.new) }
        ensures sink { IsErrOf result RecordFault.Sink → RecordFaultsRise meaning self.old self.new }
        ensures faults_stay { meaning.faults self.old ≤ meaning.faults self.new };
}
