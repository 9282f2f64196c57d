//! What the log of a run is, and what a run that replays a log writes.
//!
//! A run on a bus of one channel has frames that end, and its log has a line for each. The log of any run is
//! well spaced: its frames can follow one another on a bus. Where such a log is replayed and the nodes ask
//! for nothing, the run has the same log, byte for byte. So what one run records, another reproduces.
//!
//! `Log` in specs/ says what the log of a run is, `Tasks` what is asked of the tasks of its rounds. There is
//! no code that runs: [`laws`] has what holds.
#![tactic(auto)]

pub mod laws;
