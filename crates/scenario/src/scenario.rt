// What a scenario says.

use texts::Text;

/// What a scenario says.
#[derive(Debug, Drop)]
pub struct Scenario {
    /// The name of its database, as it stands in the file.
    pub database: Option<Text>,
    /// Its nodes in the order of the file, 1 to 64.
    pub nodes: Vec<NodeItem>,
    /// How long a bit is, in microseconds.
    pub bit: u32,
    /// The end moment, in microseconds from the start: at most a day.
    pub until: u64,
    /// How many turns a procedure may take, from 1 on.
    pub turns: u64,
    /// The moment of the start, for the stamps of log lines.
    pub epoch: Epoch,
    /// The name of the interface in log lines.
    pub interface: Text,
    /// Which node goes next where several may, pick by pick.
    pub picks: Vec<u32>,
    /// The keys that are pressed, by moment; those of one moment as they stand in the file.
    pub keys: Vec<KeyItem>,
    /// The name of the log that is replayed, as it stands in the file.
    pub replay: Option<Text>,
}

/// A node of a scenario.
#[derive(Debug, Drop)]
pub struct NodeItem {
    /// The name, which no other node has.
    pub name: Text,
    /// The name of its file, as it stands in the scenario.
    pub file: Text,
}

/// The moment of the start.
#[derive(Clone, Copy, Debug, PartialEq, Eq)]
pub enum Epoch {
    /// At so many seconds, up to 2^32 - 1.
    At(u64),
    /// A second before the first entry of the interface in the log that is replayed.
    First,
}

/// A key that is pressed.
#[derive(Clone, Copy, Debug, PartialEq, Eq)]
pub struct KeyItem {
    /// The moment, in microseconds from the start: at most a day.
    pub at: u64,
    /// The key as a byte from 33 to 126.
    pub key: u8,
}
