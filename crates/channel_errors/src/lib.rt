//! What a classic CAN bus is whose transmissions a plan disturbs: with retransmission and bus-off.
//!
//! Transmissions are counted from 1 over the whole run when they begin, retransmissions too, and a plan
//! names the numbers of those that are disturbed. A disturbance is seen at the frame's end, and an error
//! frame of 14 bits follows it. Each node has a count of errors: 8 more for a frame of its that was
//! disturbed, 1 less for one that was sent. A disturbed frame waits again under its own number, until its
//! node's count is above 255: then the node is off, its waiting frames are dropped, and it requests and
//! sends nothing from then on. That a disturbance is seen at the end alone, and the length of an error
//! frame, are this project's own.
//!
//! `specs/Errors.antt` has the states and what each call makes of them. That they keep the laws of
//! `can_bus::Bus` is proved in `proofs/`, and [`laws`] has what holds of them besides. The code that does
//! it is that of the crate bus_errors.
#![tactic(auto)]

pub mod laws;
