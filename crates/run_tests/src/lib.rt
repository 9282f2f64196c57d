//! Tests of sim_core: simulations of sources in memory that are run to their ends, on both buses.
//!
//! They stand here, above that crate, so that it is proved without them. What the tests run is made by
//! run_bench. `pairs` has the runs of two nodes, for these tests and those of laws.
#![tactic(auto)]

#[cfg(test)]
mod checks;
pub mod pairs;
#[cfg(test)]
mod runs;
#[cfg(test)]
mod timers;
