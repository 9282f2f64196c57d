//! Tests of the calls of load_bound on concrete streams.
//!
//! They stand here, above that crate, so that it is proved without them.
#![tactic(auto)]

#[cfg(test)]
mod streams;
#[cfg(test)]
mod waits;
