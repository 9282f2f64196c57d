//! Tests of buses, of one channel and of two: a module for each subject.
//!
//! They stand here, above those crates, so that each of those is proved without them.
#![tactic(auto)]

#[cfg(test)]
mod heap_bus;
#[cfg(test)]
mod pair;
#[cfg(test)]
mod plain_bus;
#[cfg(test)]
mod requests;
