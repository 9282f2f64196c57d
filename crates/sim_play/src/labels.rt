// What is shown, and under which names.

use items::Items;
use texts::Text;

/// What is shown of a run.
#[derive(Clone, Copy, Debug, PartialEq, Eq)]
pub enum Show {
    /// The texts that nodes write.
    Window,
    /// The frames that left the wire.
    Log,
    /// Both, in the order in which they happen.
    Both,
    /// Nothing as it happens, and at the end how often each event procedure ran and how many turns it took.
    Profile,
    /// Nothing as it happens, and at the end one line with the number of nodes, of log lines, of window lines
    /// and of turns.
    Summary,
}

/// Under which names a run is shown.
#[derive(Debug, Drop)]
pub struct Labels {
    /// The name of each node.
    pub names: Items<Text>,
    /// The names of the files of each node: one, or those that its handlers number.
    pub files: Items<Items<Text>>,
    /// The interface of the first channel.
    pub interface: Text,
    /// The interface of the second channel.
    pub second: Text,
    /// The second at which the measurement begins, below 2^32.
    pub epoch: u64,
    /// How many lines of the log that is replayed were passed over.
    pub skipped: u64,
}
