//! Tests of the call that reads databases.
//!
//! They stand here, above the crate, so that it is proved without them.
#![tactic(auto)]

#[cfg(test)]
mod databases;
