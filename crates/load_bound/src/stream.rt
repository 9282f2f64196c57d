// A stream of frames.

use can_frame::Ident;

/// Data frames of one identifier, with at most so many bytes, that are requested at least so many
/// microseconds apart.
#[derive(Clone, Copy, Debug, PartialEq, Eq)]
pub struct Stream {
    pub ident: Ident,
    pub bytes: u8,
    pub apart: u64,
}
