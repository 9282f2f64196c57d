//! Tests of sim_core: simulations of sources in memory that are run instant by instant.
//!
//! They stand here, above that crate, so that it is proved without them. What the tests run is made by
//! run_bench.
#![tactic(auto)]

#[cfg(test)]
mod instants;
