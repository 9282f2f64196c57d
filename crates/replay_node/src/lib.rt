//! The requests by which a recorded log is replayed.
//!
//! A log has lines in the form of can-utils' `candump -L`. [`requests`] gives a request for each
//! classic CAN frame of one interface, so that the frame ends on an idle bus at its stamp: it asks at
//! its start, which is its stamp less the epoch and less its length. Frames of other kinds and of other
//! interfaces are passed over and counted. [`laws`] says that a log has at most one replay or bad line.
#![tactic(auto)]

pub use log::requests;
pub use replay::{Replay, ReplayRefusal, Request};

pub mod laws;
mod log;
mod progress;
mod replay;
