//! What a classic CAN bus of two channels is, each of them the bus of ISO 11898-1.
//!
//! A request goes to the channel of its frame, and the two channels go each its own way, with bits of one
//! length. Where a frame ends on both at one moment, channel 1's is given first, and channel 2's is held
//! back until `finish` is called again. Which of the two goes first is this project's own.
//!
//! `specs/Pair.antt` has the states and what each call makes of them. That they keep the laws of
//! `can_bus::Bus` is proved in `proofs/`, and [`laws`] has what holds of them besides. The code that does
//! it is that of the crate bus_pair.
#![tactic(auto)]

pub mod laws;
