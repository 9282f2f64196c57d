// The stack that the program needs.

ghost use Rattle.std.specs.Prelude.{◌≤◌, slice_index_or};

/// How many bytes a level of `lowest` has on the stack.
pub(crate) const LEVEL: usize = 16_384;

/// How many levels above the lowest one have the stack that the deepest nesting of a source needs, which
/// is 1.1 MB, and a sixth more.
pub(crate) const LEVELS: u32 = 79;

/// Copies bytes down the stack, level by level, each time with half of the first one, and gives the first
/// one of the lowest copy.
#[inline(never)]
pub(crate) fn lowest(levels: u32, above: &[u8; LEVEL]) -> u8
    ensures { result ≤ slice_index_or above.now 0 0 }
{
    let mut here = *above;
    here[0] /= 2;
    if levels == 0 {
        return here[0];
    }
    lowest(levels - 1, &here)
}
