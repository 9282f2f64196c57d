//! Signals in the payload of a CAN frame, laid out as in a DBC file.
//!
//! A signal is 1 to 64 bits of a payload of 8 bytes, in little-endian or big-endian order.
//! [`usable`] says whether a layout has its bits in the payload, [`get`] reads the signal's number,
//! and [`put`] writes one and leaves every other bit as it was.
//!
//! No call aborts, and none takes memory.
#![tactic(auto)]

pub use codec::{get, put};
pub use layout::{Layout, usable};

mod codec;
mod layout;
