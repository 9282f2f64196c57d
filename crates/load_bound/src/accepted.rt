// Waits that are accepted.

ghost use Rattle.std.specs.Prelude.{◌≡◌, ◌↔◌, IsTrue, length};
ghost use Rattle.load_bound.specs.Streams.{IsStream, AreStreams, IsBitTime};
ghost use Rattle.load_bound.specs.Waits.{IsAcceptedAt, IsAccepted};
ghost use Rattle.load_bound.specs.Kept.{WaitsAreKept};

use crate::Stream;
use crate::waits::{is_good, stronger_have_waits};

/// Whether each given wait is good, and each stream stronger than one with a wait has one too. A bit
/// takes so many microseconds.
///
/// Where it is true, no frame waits longer than its stream's wait: in the timeline of any requests that
/// keep to the streams, each frame of a stream with a wait begins at most that after its request, and
/// while one has not begun, at most that has passed. It takes time quadratic in the number of streams,
/// and no memory.
pub fn accept(streams: &[Stream], bit: u32, waits: &[Option<u64>]) -> bool
    requires streams { AreStreams streams.now }
    requires bit { IsBitTime bit }
    requires as_many { length waits.now ≡ length streams.now }
    ensures exact { IsTrue result ↔ IsAccepted bit streams.now waits.now }
    ensures kept { IsTrue result → WaitsAreKept bit streams.now waits.now }
{
    for (place, stream) in streams.iter().enumerate() {
        if !is_accepted(streams, bit, waits, stream, waits[place]) {
            return false;
        }
    }
    true
}

/// Whether the wait of a stream, if it is given, is good, and each stronger stream has one too.
fn is_accepted(
    streams: &[Stream],
    bit: u32,
    waits: &[Option<u64>],
    stream: &Stream,
    wait: Option<u64>,
) -> bool
    requires streams { AreStreams streams.now }
    requires bit { IsBitTime bit }
    requires as_many { length waits.now ≡ length streams.now }
    requires stream { IsStream stream.now }
    ensures { IsTrue result ↔ IsAcceptedAt bit streams.now waits.now stream.now wait }
{
    match wait {
        Some(wait) => {
            is_good(streams, bit, stream, wait) && stronger_have_waits(streams, waits, stream)
        }
        None => true,
    }
}
