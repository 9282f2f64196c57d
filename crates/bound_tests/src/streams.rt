// Streams that tests take.

ghost use Rattle.std.specs.Prelude.{◌↔◌, IsTrue};
ghost use Rattle.load_bound.specs.Streams.{IsStream, AreStreams};

use can_frame::{Frame, Ident};
use load_bound::Stream;

/// Whether the stream is in range.
fn is_stream(stream: &Stream) -> bool
    ensures { IsTrue result ↔ IsStream stream.now }
{
    Frame::make(stream.ident, false, 0, [0; 8], 1).is_some()
        && stream.bytes <= 8
        && stream.apart >= 1
        && stream.apart <= u64::from(u32::MAX)
}

/// Whether each stream is in range, and there are at most 256.
pub(crate) fn are_streams(streams: &[Stream]) -> bool
    ensures { IsTrue result ↔ AreStreams streams.now }
{
    streams.len() <= 256 && streams.iter().all(|stream| is_stream(stream))
}

/// The stream of a standard identifier.
pub(crate) fn standard(number: u16, bytes: u8, apart: u64) -> Stream {
    Stream {
        ident: Ident::Std(number),
        bytes,
        apart,
    }
}

/// The stream of an extended identifier.
pub(crate) fn extended(number: u32, bytes: u8, apart: u64) -> Stream {
    Stream {
        ident: Ident::Ext(number),
        bytes,
        apart,
    }
}
