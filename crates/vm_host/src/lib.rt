//! The host of a run: what takes the effects of a program's code.
//!
//! [`Host`] takes lines, frames, the wish to stop, and timers that are set or cancelled, and tells the moment
//! and which timers are active. What a host does with an effect is the relation `takes`, and what a refused
//! effect leaves is `refuses`.
#![tactic(auto)]

pub use host::{Host, RecordFault};

mod host;
