// The record that shows a run.

ghost use Rattle.std.specs.Prelude.{◌≡◌, ◌+◌, ◌++◌, ◌/◌, ◌%◌, ◌<◌, ◌^◌, OnOk};
ghost use Rattle.log_line.specs.Written.{log_line};
ghost use Rattle.sim_play.specs.Show.{interface_of, name_of, shows_frames, shows_texts};

use crate::labels::{Labels, Show};
use crate::piece::write_piece;
use can_frame::Frame;
use log_line::append_line;
use run_records::Record;
use sim_outside::Sink;
use sim_text::append_window_line;
use texts::NoMemory;
use vm_host::RecordFault;

/// How many microseconds a second has.
const MICROS_PER_SECOND: u64 = 1_000_000;

/// A record that hands the line of each entry that is shown to a sink, as one piece.
#[derive(Drop)]
pub(crate) struct ShowRecord<'n, 'a, 'l, S: Sink> {
    pub(crate) show: Show,
    pub(crate) labels: &'n Labels,
    pub(crate) sink: &'a mut S,
    /// The line that was shown last, whose memory the next one takes.
    pub(crate) line: &'l mut Vec<u8>,
    ghost in_range: { labels.now.epoch < 2 ^ 32 },
}

impl<'n, 'a, 'l, S: Sink> Record for ShowRecord<'n, 'a, 'l, S> {
    ghost use Rattle.std.specs.Prelude.{◌≡◌, None};
    ghost use Rattle.sim_play.specs.Inside.Pieces.{RefusesPiece, WritesPiece};
    ghost use Rattle.sim_play.specs.Show.{piece};

    ghost meaning = { record {
      entries = λ kept. None;
      faults = λ kept. S.faults kept.sink.now;
      takes = λ before noted after. (after.sink.ghost_name ≡ before.sink.ghost_name)
          × (after.show ≡ before.show) × (after.labels.now ≡ before.labels.now)
          × WritesPiece (S.written before.sink.now) (S.written after.sink.now)
          (piece before.show before.labels.now noted);
      refuses = λ before noted after. (after.sink.ghost_name ≡ before.sink.ghost_name)
          × (after.show ≡ before.show) × (after.labels.now ≡ before.labels.now)
          × RefusesPiece (S.written before.sink.now) (S.written after.sink.now)
          (piece before.show before.labels.now noted);
    } };

    fn line(&mut self, now: u64, node: u32, text: &[u8]) -> Result<(), RecordFault> {
        if !shows_texts(self.show) {
            return Ok(());
        }
        self.line.clear();
        append_window_line(self.line, now, name_of(self.labels, node), text)?;
        write_piece(self.sink, self.line.as_slice())
    }

    fn frame(&mut self, now: u64, f: &Frame) -> Result<(), RecordFault> {
        if !shows_frames(self.show) {
            return Ok(());
        }
        self.line.clear();
        append_frame_line(self.line, self.labels, now, f)?;
        write_piece(self.sink, self.line.as_slice())
    }
}

/// Whether the texts that nodes write are shown.
pub(crate) fn shows_texts(show: Show) -> bool
    ensures { result ≡ shows_texts show }
{
    match show {
        Show::Window | Show::Both => true,
        Show::Log | Show::Profile | Show::Summary => false,
    }
}

/// Whether the frames that left the wire are shown.
fn shows_frames(show: Show) -> bool
    ensures { result ≡ shows_frames show }
{
    match show {
        Show::Log | Show::Both => true,
        Show::Window | Show::Profile | Show::Summary => false,
    }
}

/// The name of the node of a number, or nothing where there is none.
fn name_of(labels: &Labels, node: u32) -> &[u8]
    ensures { result.now ≡ name_of labels.now node }
{
    match labels.names.as_slice().get(node as usize) {
        Some(name) => name.bytes(),
        None => &[],
    }
}

/// The interface of a channel: the first, else the second.
fn interface_of(labels: &Labels, channel: u8) -> &[u8]
    ensures { result.now ≡ interface_of labels.now channel }
{
    if channel == 2 {
        labels.second.bytes()
    } else {
        labels.interface.bytes()
    }
}

/// Appends the line of a frame that ended at a moment, on the interface of its channel. The seconds of the
/// moment are added to those at which the measurement began.
fn append_frame_line(
    line: &mut Vec<u8>,
    labels: &Labels,
    now: u64,
    f: &Frame,
) -> Result<(), NoMemory>
    requires in_range { labels.now.epoch < 2 ^ 32 }
    ensures { OnOk result (line.new.items ≡ line.old.items ++ log_line
        (labels.now.epoch + now / 1000000) (now % 1000000) (interface_of labels.now f.now.can) f.now) }
{
    let seconds = labels.epoch + now / MICROS_PER_SECOND;
    let micros = (now % MICROS_PER_SECOND) as u32;
    append_line(line, seconds, micros, interface_of(labels, f.can()), f)
}
