//! One classic CAN bus of ISO 11898-1 over a list of waiting requests.
//!
//! [`PlainBus`] is the bus that can_bus defines: requests wait as a set, and of the waiting frames
//! the one goes first that wins arbitration, then the lesser node, then the earlier request.
#![tactic(auto)]

pub use plain_bus::PlainBus;

mod places;
mod plain_bus;
mod ranks;
