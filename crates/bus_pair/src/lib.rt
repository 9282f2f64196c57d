//! A classic CAN bus of two channels, each the bus of ISO 11898-1, over two heaps of waiting requests.
//!
//! [`PairBus`] is the bus that channel_pair defines: a request goes to the channel of its frame, and where
//! a frame ends on both channels at one moment, channel 1's is given first, and channel 2's is held back
//! until `finish` is called again.
#![tactic(auto)]

pub use pair_bus::PairBus;

mod pair_bus;
