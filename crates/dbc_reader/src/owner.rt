// Whom a signal belongs to.

/// Whom a signal belongs to that stands next in the text.
#[derive(Clone, Copy)]
pub(crate) enum Owner {
    /// No message stood before.
    Nobody,
    /// The message that holds signals of no message, which is dropped.
    Dropped,
    /// The last message that was kept.
    LastMessage,
}
