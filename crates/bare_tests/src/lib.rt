//! Tests of sim_play: what is shown of a run of code that has no source.
//!
//! They stand here, above that crate, so that it is proved without them. What the tests run is made by
//! run_bench, and played by play_tests.
#![tactic(auto)]

#[cfg(test)]
mod bare;
