// The least good waits.

ghost use Rattle.std.specs.Prelude.{◌≡◌, IfOk, length};
ghost use Rattle.std.specs.List.{AllZip};
ghost use Rattle.load_bound.specs.Streams.{IsStream, AreStreams, IsBitTime};
ghost use Rattle.load_bound.specs.Waits.{IsFound};
ghost use Rattle.load_bound.specs.Inside.Starts.{IsLow, IsOwnLeast, IsOwnWait, IsBoundedWait};

use crate::Stream;
use crate::starts::{lows_of, settled, start_of};
use crate::waits::stronger_have_waits;
use std::alloc::Global;
use texts::NoMemory;

/// The least good wait of each stream that has one, as has each stronger stream, in the order of the
/// streams. A bit takes so many microseconds.
///
/// The waits are found from below, in rounds that each take time linear in the number of streams: few for
/// each stream, though no bound is known that does not grow with the times between requests. It takes
/// memory linear in the number of streams.
pub fn find(alloc: Global, streams: &[Stream], bit: u32) -> Result<Vec<Option<u64>>, NoMemory>
    requires streams { AreStreams streams.now }
    requires bit { IsBitTime bit }
    ensures least { IfOk result (λ waits. AllZip (IsFound bit streams.now) streams.now waits.items) }
    ensures as_many { IfOk result (λ waits. length waits.items ≡ length streams.now) }
{
    let least = own_waits(alloc, streams, bit)?;
    let own = least.as_slice();
    let mut waits = Vec::new(alloc);
    for (place, stream) in streams.iter().enumerate() {
        waits.push(bounded_wait(streams, own, stream, own[place]))?;
    }
    Ok(waits)
}

/// The wait of a stream where each stronger stream has one.
fn bounded_wait(
    streams: &[Stream],
    own: &[Option<u64>],
    stream: &Stream,
    wait: Option<u64>,
) -> Option<u64>
    requires streams { AreStreams streams.now }
    requires as_many { length own.now ≡ length streams.now }
    requires stream { IsStream stream.now }
    ensures { IsBoundedWait streams.now own.now stream.now wait result }
{
    if stronger_have_waits(streams, own, stream) {
        wait
    } else {
        None
    }
}

/// The least good wait of each stream that has one, and nothing of some that stand behind a stronger
/// stream without one.
fn own_waits(alloc: Global, streams: &[Stream], bit: u32) -> Result<Vec<Option<u64>>, NoMemory>
    requires streams { AreStreams streams.now }
    requires bit { IsBitTime bit }
    ensures { IfOk result (λ waits. AllZip (IsOwnWait bit streams.now) streams.now waits.items) }
{
    let found = lows_of(alloc, streams, bit)?;
    let lows = found.as_slice();
    let mut waits = Vec::new(alloc);
    for (place, stream) in streams.iter().enumerate() {
        waits.push(own_wait(streams, bit, lows, stream, lows[place]))?;
    }
    Ok(waits)
}

/// The least good wait of the stream, if it has one; nothing also where a stronger stream has none
/// by the lows of all.
fn own_wait(streams: &[Stream], bit: u32, lows: &[u64], stream: &Stream, low: u64) -> Option<u64>
    requires streams { AreStreams streams.now }
    requires bit { IsBitTime bit }
    requires lows { AllZip (IsLow bit streams.now) streams.now lows.now }
    requires stream { IsStream stream.now }
    requires low { IsLow bit streams.now stream.now low }
    ensures { IsOwnWait bit streams.now stream.now result }
{
    match start_of(streams, lows, stream) {
        Some(_) => least_good(streams, bit, stream, low),
        None => None,
    }
}

/// The least good wait of the stream, if it has one.
fn least_good(streams: &[Stream], bit: u32, stream: &Stream, low: u64) -> Option<u64>
    requires streams { AreStreams streams.now }
    requires bit { IsBitTime bit }
    requires stream { IsStream stream.now }
    requires low { IsLow bit streams.now stream.now low }
    ensures { IsOwnLeast bit streams.now stream.now result }
{
    let wait = settled(streams, bit, stream, low);
    if wait < stream.apart {
        Some(wait)
    } else {
        None
    }
}
