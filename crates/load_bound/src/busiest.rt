// The stronger stream that takes the greatest share of the bus, and times by which all its frames have begun.

ghost use Rattle.std.specs.Prelude.{◌≡◌, ◌+◌, ◌<◌, ◌≤◌, ◌^◌, ℕ, IfSome, length};
ghost use Rattle.load_bound.specs.declared.stream.Stream.{Stream};
ghost use Rattle.load_bound.specs.Streams.{IsStream, AreStreams, IsBitTime, blocking};
ghost use Rattle.load_bound.specs.Waits.{interference};
ghost use Rattle.load_bound.specs.Inside.Starts.{IsLow, IsLowBy, IsStrongerAt};

use crate::Stream;
use crate::times::{frame_time, is_stronger};

/// The place of the stronger stream that takes the greatest share of the bus, if there is a stronger one.
///
/// Any stronger stream would serve [`next_wait`]; this one spares it most rounds.
pub(crate) fn busiest(streams: &[Stream], bit: u32, stream: &Stream) -> Option<usize>
    requires streams { AreStreams streams.now }
    requires bit { IsBitTime bit }
    requires stream { IsStream stream.now }
    ensures { IfSome result (IsStrongerAt streams.now stream.now) }
{
    let mut found = None;
    let mut most = (0, 1);
    for (place, other) in streams.iter().enumerate() {
        let share = (frame_time(other, bit), other.apart);
        if is_stronger(other, stream) && most.0 * share.1 < share.0 * most.1 {
            found = Some(place);
            most = share;
        }
    }
    found
}

/// A time to seek a wait from, where none is to be sought below `wait`, and that much is needed within it:
/// what is needed, or, if that is more, a time that is long enough for the rest of it and for all frames of
/// the stream at this place that begin within that time itself.
pub(crate) fn next_wait(
    streams: &[Stream],
    bit: u32,
    busiest: Option<usize>,
    wait: u64,
    needed: u64,
) -> u64
    requires streams { AreStreams streams.now }
    requires bit { IsBitTime bit }
    requires place { IfSome busiest (λ place. place < length streams.now) }
    requires wait { wait < 2 ^ 32 }
    requires needed { needed < 2 ^ 61 }
    ensures more { needed ≤ result }
    ensures low { (s : Stream) → IfSome busiest (IsStrongerAt streams.now s)
        → needed ≡ blocking bit streams.now + interference bit streams.now s wait
        → IsLow bit streams.now s wait → IsLow bit streams.now s result }
{
    let Some(place) = busiest else {
        return needed;
    };
    let busy = &streams[place];
    let time = frame_time(busy, bit);
    let others = needed.saturating_sub(wait / busy.apart * time);
    needed.max(reached(others, busy.apart, time))
}

/// The least time which is long enough for the rest and so much time in each whole period of it; or the
/// rest, where that is too great to be told.
fn reached(rest: u64, period: u64, time: u64) -> u64
    requires rest { rest < 2 ^ 61 }
    requires period { period < 2 ^ 32 }
    ensures { IsLowBy rest period time result }
{
    if period <= time || rest < period || rest >= 1 << 32 {
        return rest;
    }
    let periods = (rest - period) / (period - time) + 1;
    rest + periods * time
}
