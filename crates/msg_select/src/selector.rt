// One selector of a message procedure.

/// The frames that a handler is for: those whose selection key is from `low` to `high`.
///
/// The rank is 0 for one identifier or a database name, 1 for a range and 2 for `*`, whose keys are 0
/// to 0xFFFF_FFFF.
#[derive(Clone, Copy, Debug, PartialEq, Eq)]
pub struct MessageSelector {
    /// Whose turn it is among the selectors that hold a key: the least comes first.
    pub rank: u8,
    /// The least selection key.
    pub low: u32,
    /// The greatest selection key.
    pub high: u32,
    /// The number of the handler.
    pub handler: u32,
}
