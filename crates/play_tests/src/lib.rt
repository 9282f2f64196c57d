//! Tests of sim_play: what is shown of runs of sources as they happen.
//!
//! They stand here, above that crate, so that it is proved without them. What the tests run is made by
//! run_bench. `shown` plays it, for these tests and those of code that has no source.
#![tactic(auto)]

pub mod shown;
#[cfg(test)]
mod written;
