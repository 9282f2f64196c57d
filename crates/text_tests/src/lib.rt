//! Tests of the calls that read and write texts beside sources and databases (logs, replays, scenarios,
//! printed lines) and that generate scenarios: a module for each crate that is tested.
//!
//! They stand here, above those crates, so that each of those is proved without them.
#![tactic(auto)]

#[cfg(test)]
mod generated;
#[cfg(test)]
mod log_lines;
#[cfg(test)]
mod printed;
#[cfg(test)]
mod replayable;
#[cfg(test)]
mod replays;
#[cfg(test)]
mod scenarios;
