// Messages.

use crate::signals::Signals;
use texts::Text;

/// A message with its signals.
#[derive(Debug, Drop)]
pub struct DbcMessage {
    /// Its identifier. Bit 31 marks an extended one.
    pub id: u32,
    /// Its name.
    pub name: Text,
    /// Its length in bytes as the text says, at most 65535.
    pub len: u32,
    /// Its signals, in the order of the text.
    pub signals: Signals,
}
