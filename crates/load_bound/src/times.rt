// How long frames keep the bus, and which streams are stronger.

ghost use Rattle.std.specs.Prelude.{◌≡◌, ◌≤◌, false};
ghost use Rattle.can_frame.specs.Frame.{FrameFields, IsIdent, arbitration_key};
ghost use Rattle.load_bound.specs.Streams.{IsStream, AreStreams, IsBitTime, frame_time, blocking, is_stronger};

use crate::Stream;
use can_bus::intermission;
use can_frame::{Frame, Ident, arb_key};
use frame_bits::worst_len;

/// How long a frame of the stream keeps the bus at most, with all stuff bits and the intermission.
pub(crate) fn frame_time(stream: &Stream, bit: u32) -> u64
    requires stream { IsStream stream.now }
    requires bit { IsBitTime bit }
    ensures value { result ≡ frame_time bit stream.now }
    ensures bounded { result ≤ 16000 }
{
    let extended = matches!(stream.ident, Ident::Ext(_));
    let bits = worst_len(extended, stream.bytes);
    u64::from(bits) * u64::from(bit) + intermission(bit)
}

/// How long a frame of any stream keeps the bus at most.
pub(crate) fn blocking(streams: &[Stream], bit: u32) -> u64
    requires streams { AreStreams streams.now }
    requires bit { IsBitTime bit }
    ensures value { result ≡ blocking bit streams.now }
    ensures bounded { result ≤ 16000 }
{
    let mut longest = 0;
    for stream in streams {
        longest = longest.max(frame_time(stream, bit));
    }
    longest
}

/// The arbitration key of data frames with this identifier.
pub(crate) fn data_key(ident: Ident) -> u32
    requires { IsIdent ident }
    ensures { (f : FrameFields) → f.ident ≡ ident → f.remote ≡ false → result ≡ arbitration_key f }
{
    match Frame::make(ident, false, 0, [0; 8], 1) {
        Some(frame) => arb_key(&frame),
        None => unreachable!(),
    }
}

/// Whether frames of the first stream win arbitration over frames of the second.
pub(crate) fn is_stronger(first: &Stream, second: &Stream) -> bool
    requires first { IsStream first.now }
    requires second { IsStream second.now }
    ensures { result ≡ is_stronger first.now second.now }
{
    data_key(first.ident) < data_key(second.ident)
}
