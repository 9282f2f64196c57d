//! Tests of node_run: the rounds of a node, task by task.
//!
//! They stand here, above that crate, so that it is proved without them. The nodes are made of sources by
//! run_bench.
#![tactic(auto)]

#[cfg(test)]
mod tasks;
