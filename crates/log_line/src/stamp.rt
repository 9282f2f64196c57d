// The stamp of a line.

ghost use Rattle.items.specs.Search.{Finds};
ghost use Rattle.log_line.specs.Reading.{IsStamp};

use crate::fields::split_at_byte;
use text_parts::decimal_number;

/// A stamp in seconds and microseconds.
#[derive(Clone, Copy, Debug, PartialEq, Eq)]
pub(crate) struct Stamp {
    /// The whole seconds, below 10^15.
    pub(crate) seconds: u64,
    /// The microseconds, 0 to 999,999.
    pub(crate) micros: u32,
}

/// The stamp that a field is, or None where it is none.
pub(crate) fn stamp_of(field: &[u8]) -> Option<Stamp>
    ensures { Finds (λ stamp. IsStamp field.now stamp.seconds stamp.micros) result }
{
    let inside = field.strip_prefix(b"(")?.strip_suffix(b")")?;
    let (whole, fraction) = split_at_byte(inside, b'.')?;
    if whole.len() > 15 || fraction.len() != 6 {
        return None;
    }
    let seconds = decimal_number(whole, u64::MAX)?;
    let micros = decimal_number(fraction, 999_999)?;
    Some(Stamp {
        seconds,
        micros: micros as u32,
    })
}
