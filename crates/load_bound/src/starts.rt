// From where the search for a least good wait can begin.

ghost use Rattle.std.specs.Prelude.{◌≡◌, ◌<◌, All, IfOk, length};
ghost use Rattle.std.specs.List.{AllZip};
ghost use Rattle.load_bound.specs.Streams.{IsStream, AreStreams, IsBitTime};
ghost use Rattle.load_bound.specs.Waits.{IsGood};
ghost use Rattle.load_bound.specs.Inside.Starts.{IsLow, IsStartBy};

use crate::Stream;
use crate::busiest::{busiest, next_wait};
use crate::times::{blocking, data_key, is_stronger};
use crate::waits::interference;
use std::alloc::Global;
use texts::NoMemory;

/// The arbitration key and the place of each stream, the strongest first.
fn by_strength(alloc: Global, streams: &[Stream]) -> Result<Vec<(u32, usize)>, NoMemory>
    requires streams { AreStreams streams.now }
    ensures { IfOk result (λ order. All (λ entry. entry.1 < length streams.now) order.items) }
{
    let mut order = Vec::new(alloc);
    for (place, stream) in streams.iter().enumerate() {
        order.push((data_key(stream.ident), place))?;
    }
    order.sort()?;
    Ok(order)
}

/// The greatest of the lows of stronger streams, which is a low of the stream too. `None` where the
/// low of a stronger stream is not before its next request: it has no good wait.
pub(crate) fn start_of(streams: &[Stream], lows: &[u64], stream: &Stream) -> Option<u64>
    requires streams { AreStreams streams.now }
    requires as_many { length lows.now ≡ length streams.now }
    requires stream { IsStream stream.now }
    ensures { IsStartBy streams.now lows.now stream.now result }
{
    let mut start = 0;
    for (place, other) in streams.iter().enumerate() {
        if is_stronger(other, stream) {
            if lows[place] >= other.apart {
                return None;
            }
            start = start.max(lows[place]);
        }
    }
    Some(start)
}

/// The least wait that is long enough for the stream, sought from `low` on; or, where none is before
/// its next request, a time from then on, which is a low too.
///
/// It is found in rounds that take time linear in the number of streams: each takes what the wait so far
/// needs for the next one, and passes all frames of the stronger stream with the greatest share of the bus.
pub(crate) fn settled(streams: &[Stream], bit: u32, stream: &Stream, low: u64) -> u64
    requires streams { AreStreams streams.now }
    requires bit { IsBitTime bit }
    requires stream { IsStream stream.now }
    requires low { IsLow bit streams.now stream.now low }
    ensures low { IsLow bit streams.now stream.now result }
    ensures good { result < stream.now.apart → IsGood bit streams.now stream.now result }
{
    let blocking = blocking(streams, bit);
    let busiest = busiest(streams, bit, stream);
    let mut wait = low;
    while wait < stream.apart {
        let enough = blocking + interference(streams, bit, stream, wait);
        if enough <= wait {
            return wait;
        }
        wait = next_wait(streams, bit, busiest, wait, enough);
    }
    wait
}

/// A low of each stream: a time that no wait which is long enough for the stream is below.
///
/// The strongest stream is the first, and each is sought from where the stronger ones ended. One with a
/// stronger stream that has no good wait is not sought at all.
pub(crate) fn lows_of(alloc: Global, streams: &[Stream], bit: u32) -> Result<Vec<u64>, NoMemory>
    requires streams { AreStreams streams.now }
    requires bit { IsBitTime bit }
    ensures { IfOk result (λ lows. AllZip (IsLow bit streams.now) streams.now lows.items) }
{
    let order = by_strength(alloc, streams)?;
    let mut lows = vec![in alloc; 0; streams.len()]?;
    for (_, place) in &order {
        let stream = &streams[*place];
        if let Some(start) = start_of(streams, lows.as_slice(), stream) {
            lows[*place] = settled(streams, bit, stream, start);
        }
    }
    Ok(lows)
}
