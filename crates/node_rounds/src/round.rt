// The rounds of a node.

use can_frame::Frame;

/// A round of all nodes: each does its tasks of the round.
#[derive(Clone, Copy, Debug, PartialEq, Eq)]
pub enum Round {
    /// Before the measurement: the procedures `on preStart`.
    PreStart,
    /// When the measurement begins, at moment 0: the procedures `on start`, then keys.
    Start,
    /// A later moment: the frame that was seen, then the timers that are due, then keys.
    Moment,
    /// After the measurement: the procedures `on stopMeasurement`.
    Stop,
}

/// A frame that ended on the bus, as one node sees it.
#[derive(Clone, Copy, Debug, PartialEq, Eq)]
pub struct Seen {
    /// The frame.
    pub frame: Frame,
    /// Whether this node sent it (TX), or received it (RX).
    pub sent: bool,
}
