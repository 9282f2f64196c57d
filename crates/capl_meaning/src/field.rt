// The fields of messages that have names.

/// A field of a message, by its name.
#[derive(Clone, Copy, Debug, PartialEq, Eq)]
pub enum MessageField {
    /// `id`, the identifier. Bit 31 marks an extended one.
    Id,
    /// `dlc`, the length in bytes.
    Dlc,
    /// `rtr`, 1 for a remote frame.
    Rtr,
    /// `can`, the channel.
    Can,
    /// `dir`, the direction.
    Dir,
    /// `time`, the moment of a frame in units of ten microseconds.
    Time,
}
