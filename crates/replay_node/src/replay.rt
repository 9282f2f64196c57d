// What is replayed.

ghost use Rattle.std.specs.Prelude.{◌≡◌};
ghost use Rattle.replay_node.specs.declared.replay.ReplayRefusal.TheVariants.{NoMemory};

use can_frame::Frame;
use items::Items;
use texts::NoMemory;

/// A frame, and the moment at which it is asked for.
#[derive(Clone, Copy, Debug, PartialEq, Eq)]
pub struct Request {
    /// The moment, in microseconds from the start.
    pub at: u64,
    /// The frame.
    pub frame: Frame,
}

/// The replay of a log on one interface.
#[derive(Debug, Drop)]
pub struct Replay {
    /// The epoch, in seconds.
    pub epoch: u64,
    /// How many lines were passed over.
    pub skipped: u64,
    /// The requests, in the order of the log; their moments do not fall.
    pub list: Items<Request>,
}

/// Why a log is not replayed.
#[derive(Clone, Copy, Debug, PartialEq, Eq)]
pub enum ReplayRefusal {
    /// This line, counted from 1, is the first that neither reads, nor is passed over, nor is a last
    /// line without a line feed.
    BadLine {
        /// The number of the line.
        line: u32,
    },
    /// There was no memory for the requests.
    NoMemory,
}

impl From<NoMemory> for ReplayRefusal {
    ghost from_gives = { λ _ refusal. refusal ≡ NoMemory };

    fn from(_: NoMemory) -> ReplayRefusal {
        ReplayRefusal::NoMemory
    }
}
