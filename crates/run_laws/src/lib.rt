//! The run of nodes with the code of sources is the run of the sources.
//!
//! The crate source_laws says that the code of a source follows the source from task to task, run_meaning
//! that nodes that are alike have equal runs. Here these are one: nodes that are loaded with the code of
//! their sources have, on any bus, the rounds that nodes with the sources themselves have, and so the same
//! entries in a record and the same counts. Sources have a run, and one run at most.
//!
//! `Nodes` in specs/ says which nodes are loaded for which sources. There is no code that runs: [`laws`] has
//! what holds, and [`CodeAndSource`] and [`Sources`] are what the laws of rounds and of runs take.
#![tactic(auto)]

pub use pair::CodeAndSource;
pub use sources::Sources;

pub mod laws;
mod pair;
mod sources;
