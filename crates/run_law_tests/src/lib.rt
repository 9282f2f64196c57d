//! Calls of the laws on code and runs of sources; and a simulation of sources in memory over two buses, which
//! leave the same by one of them.
//!
//! They stand here, above those crates, so that each of those is proved without them. What the tests run is
//! made by run_bench, and listed by run_tests.
#![tactic(auto)]

#[cfg(test)]
mod buses;
#[cfg(test)]
mod laws;
