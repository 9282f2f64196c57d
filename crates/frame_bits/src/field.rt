// A field of a frame.

ghost use Rattle.std.specs.Prelude.{◌≡◌, ◌≤◌};

/// The low `width` bits of `number`, the most significant first.
#[derive(Clone, Copy)]
pub struct Field {
    pub width: u8,
    pub number: u64,
    ghost narrow: { width ≤ 39 },
}

impl Field {
    /// The field of so many bits.
    pub fn new(width: u8, number: u64) -> Field
        requires { width ≤ 39 }
        ensures width { result.width ≡ width }
        ensures number { result.number ≡ number }
    {
        Field { width, number }
    }
}
