// What is on the wire, and how long.

ghost use Rattle.std.specs.Prelude.{◌≡◌, ◌*◌, ◌≤◌};
ghost use Rattle.can_bus.specs.Bus.{time_on_wire, intermission};

use crate::Waiting;
use can_frame::Frame;
use frame_bits::stuffed_len;

/// A request on the wire, and the moment at which its frame ends.
#[derive(Clone, Copy, Debug, PartialEq, Eq)]
pub struct Transmission {
    pub request: Waiting,
    pub end: u64,
}

/// The bits after the end of a frame in which no other begins.
const INTERMISSION: u64 = 3;

/// How many microseconds the frame is on the wire, where a bit takes so many.
pub fn time_on_wire(frame: &Frame, bit: u32) -> u64
    ensures value { result ≡ time_on_wire frame.now bit }
    ensures bounded { result ≤ 157 * bit }
{
    u64::from(stuffed_len(frame)) * u64::from(bit)
}

/// How many microseconds after the end of a frame no other begins, where a bit takes so many.
pub fn intermission(bit: u32) -> u64
    ensures { result ≡ intermission bit }
{
    INTERMISSION * u64::from(bit)
}
