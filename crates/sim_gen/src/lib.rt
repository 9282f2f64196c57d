//! A large valid input from a number: a scenario of so many nodes, and a source for each.
//!
//! [`generate`] makes the texts. Each node sends a message of its own every 20 ms, after some work, and
//! counts the frames that end on the bus, its own among them, up to the end moment of one second.
#![tactic(auto)]

pub use files::SCENARIO_NAME;
pub use generated::{MAX_COUNT, Made, Source, generate};

mod files;
mod generated;
