// Where `break` and `continue` lead.

/// The places to which `break` and `continue` lead.
#[derive(Clone, Copy)]
pub(crate) struct Exits {
    /// The place of a `break`.
    pub break_at: u32,
    /// The place of a `continue`.
    pub continue_at: u32,
}
