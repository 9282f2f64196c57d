//! A classic CAN bus whose transmissions a plan disturbs, over a heap of waiting requests: with
//! retransmission and bus-off.
//!
//! [`ErrorBus`] is the bus that channel_errors defines, over `bus_heap::HeapBus`, which has its waiting
//! requests and its wire. The numbers of the plan stand in one list in ascending order, and each
//! transmission looks its own up there.
#![tactic(auto)]

pub use error_bus::ErrorBus;

mod counts;
mod error_bus;
mod plan;
