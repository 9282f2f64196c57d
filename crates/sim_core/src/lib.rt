//! A simulation: nodes that run their code on one bus, from the round before the start to that of the stop.
//!
//! A [`Core`] has the nodes, the bus, and the keys, the requests of a replay and the picks that are still to
//! come. [`Core::step_instant`] does the next instant, [`Core::run_until`] the whole run. The crate
//! run_meaning says what a run is, in which order the picks put its tasks, and what its steps leave in a
//! record and a meter. [`laws`] says that all else is the same in each order, and that all is the same over
//! each bus of one meaning.
#![tactic(auto)]

pub use simulation::{Core, Phase, Step};

mod instant;
mod keys;
pub mod laws;
mod round;
mod simulation;
mod tasks;
mod upcoming;
