// How a run ends.

/// Why a run was ended by a trap.
#[derive(Clone, Copy, Debug, PartialEq, Eq)]
pub enum TrapKind {
    /// A division by zero.
    ZeroDivisor,
    /// An index outside its array or payload.
    Index,
}

/// How a run ends.
#[derive(Clone, Copy, Debug, PartialEq, Eq)]
pub enum Outcome {
    /// The procedure reached its end.
    Done,
    /// It met a zero divisor or an index that is out of range.
    Trapped(TrapKind),
    /// It was due to take a turn, and none was left.
    Cut,
}
