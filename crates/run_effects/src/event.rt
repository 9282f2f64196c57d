// What an event procedure reacts to.

ghost use Rattle.std.specs.Prelude.{◌≡◌, IfOk};

use items::Items;
use texts::NoMemory;

/// Which frames a message procedure is for: those whose identifier's selection key is from `low` to
/// `high`.
///
/// The rank is 0 for one identifier or a database name, 1 for a range and 2 for `*`, whose keys are
/// 0 to 0xFFFF_FFFF. A procedure of a lesser rank goes before one of a greater.
#[derive(Clone, Copy, Debug, PartialEq, Eq)]
pub struct Selector {
    /// Whose turn it is among the selectors that hold a frame: 0, 1 or 2.
    pub rank: u8,
    /// The least selection key.
    pub low: u32,
    /// The greatest selection key.
    pub high: u32,
}

/// What an event procedure reacts to.
#[derive(Debug, Drop)]
pub enum Event {
    /// `on preStart`: before the measurement.
    PreStart,
    /// `on start`: when the measurement begins.
    Start,
    /// `on stopMeasurement`: when it has ended.
    Stop,
    /// `on message`: when a frame of these selectors was on the bus.
    Message(Items<Selector>),
    /// `on timer`: when the timer of this number is due.
    Timer(u32),
    /// `on key`: when this key is pressed, or with `None` (`*`) a key that has no procedure.
    Key(Option<u8>),
}

impl Event {
    /// The same event once more. Takes time and memory linear in the selectors.
    pub fn copy(&self) -> Result<Event, NoMemory>
        ensures { IfOk result (λ event. event ≡ self.now) }
    {
        Ok(match self {
            Event::PreStart => Event::PreStart,
            Event::Start => Event::Start,
            Event::Stop => Event::Stop,
            Event::Message(selectors) => Event::Message(selectors.copy()?),
            Event::Timer(timer) => Event::Timer(*timer),
            Event::Key(key) => Event::Key(*key),
        })
    }
}
