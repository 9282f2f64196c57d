//! Tests of node_run: what each form of a source leaves behind, alone and in each other.
//!
//! They stand here, above that crate, so that it is proved without them. The nodes are made of sources by
//! run_bench.
#![tactic(auto)]

#[cfg(test)]
mod forms;
#[cfg(test)]
mod nested;
