//! The simulation as a whole: from the words of the command line to the bytes that are written.
//!
//! [`simulate`] reads the scenario that the words name, its database and the sources of its nodes, runs the
//! nodes on their bus, and writes the window, one line for each text that a node writes, the log, one line
//! for each frame that leaves the wire, or both, each line as it happens, or the profile. Where an input
//! breaks a rule, it writes the one line that says so. Everything is read before the first byte is written.
//!
//! What [`simulate`] is to write is defined in `specs/Answer.antt` and the files that this names;
//! `specs/Inside/` has what private functions mean.
#![tactic(auto)]

pub use answer::simulate;
pub use command::Command;
pub use status::Status;

mod answer;
mod blame;
mod command;
pub mod laws;
mod run;
mod status;
