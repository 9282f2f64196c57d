// What happens to a node.

use crate::round::Seen;

/// Something that happens to a node, and to which event procedures react.
#[derive(Clone, Copy, Debug, PartialEq, Eq)]
pub enum Occurrence {
    /// The measurement is about to begin.
    PreStart,
    /// The measurement begins.
    Start,
    /// The measurement has ended. From now on nothing goes to the bus or to timers.
    Stop,
    /// A frame ended on the bus.
    Frame(Seen),
    /// The timer of this number is due.
    Timer(u32),
    /// A key is pressed.
    Key(u8),
}

/// What a task is begun by.
#[derive(Clone, Copy, Debug, PartialEq, Eq)]
pub struct Trigger {
    /// What happens.
    pub occurrence: Occurrence,
    /// The number of the event procedure that runs, or `None` where a due timer has none.
    pub procedure: Option<u32>,
}
