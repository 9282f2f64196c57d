// How large the code of a part is, and whether control comes to its end.

ghost use Rattle.std.specs.Prelude.{◌≡◌, ◌+◌, ◌-◌, ◌^◌, false, if◌then◌else◌, min};
ghost use Rattle.code_size.specs.Notes.{going_on};

/// The size of a statement or of statements, at most 2^64 - 1, and whether control may come to their end.
#[derive(Clone, Copy)]
pub struct Extent {
    /// How many instructions their code has.
    pub size: u64,
    /// Whether control may come to their end.
    pub goes_on: bool,
}

/// The extent of what has this size, to whose end control may come.
pub(crate) fn going_on(size: u64) -> Extent
    ensures { result ≡ going_on size }
{
    Extent {
        size,
        goes_on: true,
    }
}

/// The extent of what has this size, to whose end control never comes.
pub(crate) fn ending(size: u64) -> Extent
    ensures size { result.size ≡ size }
    ensures goes_on { result.goes_on ≡ false }
{
    Extent {
        size,
        goes_on: false,
    }
}

/// The extent of a statement, which is the last one or not, with that of those behind it.
pub(crate) fn joined(first: Extent, behind: Extent, last: bool) -> Extent
    ensures size { result.size ≡ min (first.size + behind.size) (2 ^ 64 - 1) }
    ensures goes_on { result.goes_on ≡ (if last then first.goes_on else behind.goes_on) }
{
    Extent {
        size: first.size.saturating_add(behind.size),
        goes_on: if last { first.goes_on } else { behind.goes_on },
    }
}
