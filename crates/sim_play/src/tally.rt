// The record that counts what happens in a run.

use can_frame::Frame;
use run_records::Record;
use vm_host::RecordFault;

/// A record that counts its entries. It writes nothing and refuses nothing. A count above 2^64 - 1 stands as
/// 2^64 - 1.
#[derive(Drop)]
pub(crate) struct Tally {
    /// How many frames there were.
    pub(crate) frames: u64,
    /// How many lines of text there were.
    pub(crate) lines: u64,
}

impl Record for Tally {
    ghost use Rattle.std.specs.Prelude.{◌≡◌, None};
    ghost use Rattle.sim_play.specs.Show.{is_frame, is_text};
    ghost use Rattle.sim_play.specs.Inside.Tallied.{count_after};

    ghost meaning = { record {
      entries = λ kept. None;
      faults = λ kept. 0;
      takes = λ before noted after. (after.frames ≡ count_after is_frame before.frames noted)
          × (after.lines ≡ count_after is_text before.lines noted);
      refuses = λ before noted after. ⊥;
    } };

    fn line(&mut self, _now: u64, _node: u32, _text: &[u8]) -> Result<(), RecordFault> {
        self.lines = self.lines.saturating_add(1);
        Ok(())
    }

    fn frame(&mut self, _now: u64, _f: &Frame) -> Result<(), RecordFault> {
        self.frames = self.frames.saturating_add(1);
        Ok(())
    }
}
