//! One classic CAN bus of ISO 11898-1 over a heap of waiting requests.
//!
//! [`HeapBus`] is the bus that can_bus defines: requests wait as a set, and of the waiting frames
//! the one goes first that wins arbitration, then the lesser node, then the earlier request. The
//! requests stand in one list as a heap in this order: each goes before the two at twice its place,
//! plus 1 and plus 2, so the winner is the first.
//!
//! Beside the calls of every bus it has those on which a bus with errors stands: a transmission that takes
//! some bits longer, a request that goes from the wire back to those that wait, and the waiting requests of
//! a node dropped.
#![tactic(auto)]

pub use heap_bus::HeapBus;

mod heap;
mod heap_bus;
mod ranks;
