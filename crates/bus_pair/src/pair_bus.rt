// A bus of two channels.

ghost use Rattle.std.specs.Prelude.{◌≡◌, ◌≤◌};
ghost use Rattle.channel_pair.specs.Pair.{new_pair, lesser_moment, two_channels};

use bus_heap::HeapBus;
use can_bus::{Bus, Ended};
use can_frame::Frame;
use std::alloc::Global;
use std::marker::Model;
use texts::NoMemory;

/// Two channels, and the frame that is held back.
///
/// Contracts see it as a `PairState`. Where frames end on both channels at one moment, the first call
/// of `finish` gives channel 1's, and the second channel 2's; `arbitrate` drops a frame that is held
/// still. A request and an arbitration take the time of those of each channel, a `HeapBus`: logarithmic
/// in the number of its waiting requests, and a request besides in the number of nodes that made one
/// (under the last number of 64 bits it grows with the square of the number of waiting requests).
/// The other calls take constant time. Only `request` takes memory.
#[derive(Drop)]
pub struct PairBus {
    one: HeapBus,
    two: HeapBus,
    held: Option<Ended>,
}

impl Model for PairBus {
    ghost use Rattle.channel_pair.specs.Pair.{PairState};
    ghost use Rattle.channel_pair.specs.Codes.{pair_code};

    ghost Value = { PairState };

    ghost coded = { pair_code };

    ghost use Rattle.bus_pair.specs.Inside.PairBus.{state_of, IsPairBus};

    ghost view = { state_of };

    ghost invariant = { IsPairBus };
}

impl PairBus {
    /// A bus of two channels on which nothing was requested. Their bits take so many microseconds each.
    pub fn make(alloc: Global, bit: u32) -> PairBus
        requires { 1 ≤ bit }
        ensures { result ≡ new_pair bit }
    {
        PairBus {
            one: HeapBus::make(alloc, bit),
            two: HeapBus::make(alloc, bit),
            held: None,
        }
    }
}

impl Bus for PairBus {
    ghost meaning = { two_channels };

    fn request(&mut self, node: u32, f: &Frame) -> Result<(), NoMemory> {
        if f.can() == 2 {
            self.two.request(node, f)
        } else {
            self.one.request(node, f)
        }
    }

    fn next_time(&self) -> Option<u64> {
        lesser_moment(self.one.next_time(), self.two.next_time())
    }

    fn finish(&mut self, now: u64) -> Option<Ended> {
        if let Some(held) = self.held.take() {
            return Some(held);
        }
        let (first, second) = (self.one.finish(now), self.two.finish(now));
        if first.is_none() {
            return second;
        }
        self.held = second;
        first
    }

    fn arbitrate(&mut self, now: u64) {
        self.held = None;
        self.one.arbitrate(now);
        self.two.arbitrate(now);
    }

    ghost use Rattle.channel_pair.proofs.RequestsCommute.{RequestsCommute-pair};
    ghost use Rattle.channel_pair.proofs.SoundStays.{SoundStays-pair, NodesStay-pair};
    ghost use Rattle.channel_pair.proofs.FramesCome.{FramesCome-pair};
    ghost use Rattle.channel_pair.proofs.DueLater.{DueLater-pair, DueLaterFromNothing-pair};

    ghost requests_commute = { RequestsCommute-pair };

    ghost sound_stays = { SoundStays-pair };

    ghost nodes_stay = { NodesStay-pair };

    ghost frames_come = { FramesCome-pair };

    ghost due_later = { DueLater-pair };

    ghost due_later_from_nothing = { DueLaterFromNothing-pair };
}

/// The lesser of two moments, or the one that there is.
fn lesser_moment(a: Option<u64>, b: Option<u64>) -> Option<u64>
    ensures { result ≡ lesser_moment a b }
{
    match (a, b) {
        (Some(m), Some(n)) => Some(m.min(n)),
        (Some(m), None) => Some(m),
        (None, _) => b,
    }
}
