// One setting of a timer.

/// The setting of an active timer, as contracts see it.
#[derive(Clone, Copy, Debug, PartialEq, Eq)]
pub struct Setting {
    /// The timer's number.
    pub timer: u32,
    /// The moment at which it is due, in microseconds.
    pub due: u64,
    /// How many microseconds after `due` it is due again, where it is cyclic.
    pub period: Option<u64>,
}
