// Good waits.

ghost use Rattle.std.specs.Prelude.{◌≡◌, ◌*◌, ◌<◌, ◌≤◌, ◌^◌, ◌↔◌, IsTrue, IsSome, length};
ghost use Rattle.load_bound.specs.Streams.{IsStream, AreStreams, IsBitTime, is_stronger};
ghost use Rattle.load_bound.specs.Waits.{interference, IsGood, StrongerHaveWaits};

use crate::Stream;
use crate::times::{blocking, frame_time, is_stronger};

/// How long frames of stronger streams keep the bus within a wait at most: within a wait so many
/// begin as it has whole times between their requests, and two more, since one may wait already and
/// one may come at once.
pub(crate) fn interference(streams: &[Stream], bit: u32, stream: &Stream, wait: u64) -> u64
    requires streams { AreStreams streams.now }
    requires bit { IsBitTime bit }
    requires stream { IsStream stream.now }
    requires wait { wait < 2 ^ 32 }
    ensures value { result ≡ interference bit streams.now stream.now wait }
    ensures bounded { result < 2 ^ 60 }
{
    let mut total = 0;
    for other in streams {
        if is_stronger(other, stream) {
            total += (wait / other.apart + 2) * frame_time(other, bit);
        }
    }
    total
}

/// Whether the wait is good for the stream.
pub(crate) fn is_good(streams: &[Stream], bit: u32, stream: &Stream, wait: u64) -> bool
    requires streams { AreStreams streams.now }
    requires bit { IsBitTime bit }
    requires stream { IsStream stream.now }
    ensures { IsTrue result ↔ IsGood bit streams.now stream.now wait }
{
    wait < stream.apart && blocking(streams, bit) + interference(streams, bit, stream, wait) <= wait
}

/// Whether a stream that is stronger than this one has a wait; of another stream nothing is asked.
fn has_wait_if_stronger(other: &Stream, wait: Option<u64>, stream: &Stream) -> bool
    requires other { IsStream other.now }
    requires stream { IsStream stream.now }
    ensures { IsTrue result ↔ (IsTrue (is_stronger other.now stream.now) → IsSome wait) }
{
    wait.is_some() || !is_stronger(other, stream)
}

/// Whether each stream that is stronger than this one has a wait.
pub(crate) fn stronger_have_waits(
    streams: &[Stream],
    waits: &[Option<u64>],
    stream: &Stream,
) -> bool
    requires streams { AreStreams streams.now }
    requires as_many { length waits.now ≡ length streams.now }
    requires stream { IsStream stream.now }
    ensures { IsTrue result ↔ StrongerHaveWaits streams.now waits.now stream.now }
{
    for (place, other) in streams.iter().enumerate() {
        if !has_wait_if_stronger(other, waits[place], stream) {
            return false;
        }
    }
    true
}
