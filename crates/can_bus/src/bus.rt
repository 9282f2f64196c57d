// The calls of any bus, and what it keeps.

ghost use Rattle.std.specs.Prelude.{◌≡◌, ◌<◌, ◌≤◌, ◌^◌, OnOk, OnErr};
ghost use Rattle.can_bus.specs.Meaning.{BusMeaning};
ghost use Rattle.can_bus.specs.Laws.{RequestsCommute, SoundStays, NodesStay, FramesCome, DueLater, DueLaterFromNothing};

use can_frame::Frame;
use texts::NoMemory;

/// A frame that left the wire, and the node that sent it.
#[derive(Clone, Copy, Debug, PartialEq, Eq)]
pub struct Ended {
    pub node: u32,
    pub frame: Frame,
}

/// A bus to which nodes give frames. Moments are microseconds from the start.
///
/// A run calls `finish` twice at each of its moments after 0, requests may stand behind each of the
/// two, and `arbitrate` comes last; at moment 0 come requests and `arbitrate` alone. The moments never
/// fall. An implementation says what its calls mean, and proves the laws below of these meanings. Some
/// of the laws speak of sound buses alone, and each bus that calls make is sound.
pub trait Bus {
    /// What its states mean: how many nodes it serves, which frames are on it, what is due next and
    /// what ends, and the bus after each call.
    ghost meaning: { BusMeaning Self };

    /// The node requests that the frame be sent. Where there is no memory for it, nothing changes.
    fn request(&mut self, node: u32, f: &Frame) -> Result<(), NoMemory>
        requires { node < meaning.nodes self.old }
        ensures ok { OnOk result (self.new ≡ meaning.after_request self.old node f.now) }
        ensures err { OnErr result (self.new ≡ self.old) }
        ensures sound { meaning.sound self.new };

    /// The next moment at which something is due: a frame ends, or a request that waits may begin.
    /// `None` where nothing waits and the wire is empty.
    fn next_time(&self) -> Option<u64>
        ensures moment { result ≡ meaning.next_moment self.now }
        ensures sound { meaning.sound self.now };

    /// Takes what ends at this moment off the wire and gives the frame that was sent, or `None` where
    /// no further one ends.
    ///
    /// It may be called again at one moment: a bus may hold back a second frame that ends at it.
    fn finish(&mut self, now: u64) -> Option<Ended>
        ensures frame { result ≡ meaning.ended self.old now }
        ensures state { self.new ≡ meaning.after_finish self.old now }
        ensures sound { meaning.sound self.new };

    /// Where the wire is empty, the bus is free and a request waits, the winner begins at this
    /// moment, which is at most 2^63 microseconds.
    fn arbitrate(&mut self, now: u64)
        requires { now ≤ 2 ^ 63 }
        ensures state { self.new ≡ meaning.after_arbitration self.old now }
        ensures sound { meaning.sound self.new };

    /// Requests of two different nodes give one bus in either order.
    ghost requests_commute: { RequestsCommute meaning };

    /// What each call makes of a sound bus is sound.
    ghost sound_stays: { SoundStays meaning };

    /// What each call makes of a bus serves as many nodes.
    ghost nodes_stay: { NodesStay meaning };

    /// Frames come to a bus by requests alone, and what ends was on it.
    ghost frames_come: { FramesCome meaning };

    /// Where nothing was due before a moment on a sound bus, and then come `finish` at it, any requests
    /// and further calls of `finish`, and last `arbitrate`, what is due next is later than the moment.
    ghost due_later: { DueLater meaning };

    /// The same where nothing is due, with no call of `finish` before the requests.
    ghost due_later_from_nothing: { DueLaterFromNothing meaning };
}
