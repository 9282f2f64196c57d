// What is known of a log that is read.

ghost use Rattle.std.specs.Prelude.{◌≡◌, ◌<◌, ◌≤◌, ◌+◌, ◌^◌, ◌++◌, ◌∷◌, [], List, ℕ, OnOk};
ghost use Rattle.log_line.specs.declared.line.Line.{Line};
ghost use Rattle.log_line.specs.View.{entry_of, line_of};
ghost use Rattle.replay_node.specs.Replay.{start_of, IsReplayOf};
ghost use Rattle.replay_node.specs.Inside.Progress.{IsProgress, Asks, epoch_for};
ghost use Rattle.scenario.specs.declared.scenario.Epoch.{Epoch};

use crate::replay::{Replay, Request};
use frame_bits::stuffed_len;
use items::Items;
use log_line::{EntryView, LineView};
use scenario::Epoch;
use std::alloc::Global;
use texts::NoMemory;

const MICROS_PER_SECOND: u128 = 1_000_000;

/// What is known after some lines of a log.
#[derive(Debug, Drop)]
pub(crate) struct Progress {
    /// The epoch in seconds, where it is known.
    pub(crate) epoch: Option<u64>,
    /// How many lines were passed over.
    pub(crate) skipped: u64,
    /// When the last request asks, or 0.
    pub(crate) before: u64,
    /// The requests so far.
    pub(crate) list: Vec<Request>,
}

impl Progress {
    /// Before the first line.
    pub(crate) fn start(alloc: Global, epoch: Epoch) -> Progress
        ensures { (interface : List ℕ) (bit : ℕ) → IsProgress interface bit epoch [] result }
    {
        let epoch = match epoch {
            Epoch::At(seconds) => Some(seconds),
            Epoch::First => None,
        };
        Progress {
            epoch,
            skipped: 0,
            before: 0,
            list: Vec::new(alloc),
        }
    }

    /// Takes the next line.
    pub(crate) fn take(
        &mut self,
        line: &LineView<'_>,
        interface: &[u8],
        bit: u32,
    ) -> Result<(), NoMemory>
        requires { self.old.skipped < 2 ^ 32 }
        ensures taken { OnOk result ((epoch : Epoch) (readings : List Line) →
            IsProgress interface.now bit epoch readings self.old →
            IsProgress interface.now bit epoch (readings ++ line_of line.now ∷ []) self.new) }
        ensures skipped { OnOk result (self.new.skipped ≤ self.old.skipped + 1) }
    {
        match line {
            LineView::Entry(entry) if entry.interface == interface => self.ask(entry, bit),
            LineView::Empty => Ok(()),
            _ => {
                self.skipped += 1;
                Ok(())
            }
        }
    }

    /// Passes an unread end over.
    pub(crate) fn skip(&mut self)
        requires { self.old.skipped < 2 ^ 32 }
        ensures { (interface : List ℕ) (bit : ℕ) (epoch : Epoch) (readings : List Line) →
            IsProgress interface bit epoch readings self.old →
            IsProgress interface bit epoch (readings ++ Line.Skip ∷ []) self.new }
    {
        self.skipped += 1;
    }

    /// The replay of the lines so far.
    pub(crate) fn replay(self) -> Replay
        ensures { (interface : List ℕ) (bit : ℕ) (epoch : Epoch) (readings : List Line) →
            IsProgress interface bit epoch readings self → IsReplayOf interface bit epoch readings result }
    {
        Replay {
            epoch: self.epoch.unwrap_or(0),
            skipped: self.skipped,
            list: Items::from_list(self.list),
        }
    }

    /// Takes an entry of the interface.
    fn ask(&mut self, entry: &EntryView<'_>, bit: u32) -> Result<(), NoMemory>
        ensures { OnOk result (Asks bit self.old (entry_of entry.now) self.new) }
    {
        let epoch = epoch_for(self.epoch, entry.seconds);
        let at = self.before.max(start_of(entry, bit, epoch));
        self.list.push(Request {
            at,
            frame: entry.frame,
        })?;
        self.epoch = Some(epoch);
        self.before = at;
        Ok(())
    }
}

/// The epoch for an entry at this second.
fn epoch_for(known: Option<u64>, seconds: u64) -> u64
    ensures { result ≡ epoch_for known seconds }
{
    known.unwrap_or(seconds.saturating_sub(1).min(u64::from(u32::MAX)))
}

/// When the frame of the entry started, in microseconds from the epoch.
fn start_of(entry: &EntryView<'_>, bit: u32, epoch: u64) -> u64
    ensures { result ≡ start_of bit epoch (entry_of entry.now) }
{
    let seconds = entry.seconds;
    let micros = entry.micros;
    let end = u128::from(seconds) * MICROS_PER_SECOND + u128::from(micros);
    let epoch = u128::from(epoch) * MICROS_PER_SECOND;
    let time = u128::from(stuffed_len(&entry.frame)) * u128::from(bit);
    let start = end.saturating_sub(epoch).saturating_sub(time);
    start.min(u128::from(u64::MAX)) as u64
}
