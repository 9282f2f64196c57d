//! What a simulation reads: a scenario, its database, the sources of its nodes and the log that it replays,
//! read and checked.
//!
//! [`read_inputs`] reads the files that the name of a scenario leads to, in one order, and gives the
//! scenario with the code and the names of the files of each node, or the first rule that a file breaks.
//! Which inputs are accepted and which blame is the first is defined in `specs/Accepted.antt` and the files
//! that this names, over what the files hold; [`laws`] says that a name has at most one such scenario and
//! programs or blame.
//!
//! `specs/Inside/` has what private functions mean.
#![tactic(auto)]

pub use inputs::{Inputs, read_inputs};

mod database;
mod files;
mod inputs;
pub mod laws;
mod nodes;
mod replay;
mod rules;
mod scenario_file;
