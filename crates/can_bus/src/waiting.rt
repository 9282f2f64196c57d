// A request that waits.

use can_frame::Frame;

/// A request: a node's frame under the node's own number for it.
#[derive(Clone, Copy, Debug, PartialEq, Eq)]
pub struct Waiting {
    pub node: u32,
    pub number: u64,
    pub frame: Frame,
}
