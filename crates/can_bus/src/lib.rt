//! What any bus of classic CAN frames is, by ISO 11898-1: requests wait, and the frame that wins
//! arbitration goes first.
//!
//! A bus is a set of waiting requests, the frame on the wire with the moment at which it ends, the
//! moment from which the bus is free, and the number of each node's next request. Of the waiting
//! frames the one goes first whose arbitration field has the dominant bit at the first difference;
//! of equal fields the lesser node goes first, and of one node the earlier request. A frame that
//! begins at a moment ends its length times the time of a bit later, and the bus is free again
//! three bits (the intermission) after that.
//!
//! [`Bus`] says what any bus keeps, whatever its calls mean. The rest is what implementations share:
//! the order of requests, what is on the wire, how long a frame and the intermission take, and the
//! numbers from 0 that a node's requests get behind the last one.
//! `specs/Bus.antt` has the bus of one channel without errors, as a definition; that it keeps the
//! laws of [`Bus`] is proved in `proofs/`.
//!
//! Moments and durations are whole microseconds.
#![tactic(auto)]

pub use bus::{Bus, Ended};
pub use order::goes_before;
pub use ranks::{carries_earlier, rank, transmission_with_rank};
pub use transmission::{Transmission, intermission, time_on_wire};
pub use waiting::Waiting;

mod bus;
pub mod laws;
mod order;
mod ranks;
mod transmission;
mod waiting;
