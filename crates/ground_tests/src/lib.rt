//! Tests of lists, of texts and their parts, of scans in lanes, of the arithmetic of integer kinds, of the
//! laws of control flow, and of files and sinks: a module for each crate that is tested.
//!
//! They stand here, above those crates, so that each of those is proved without them.
#![tactic(auto)]

#[cfg(test)]
mod control;
#[cfg(test)]
mod kept;
#[cfg(test)]
mod kinds;
#[cfg(test)]
mod lanes;
#[cfg(test)]
mod lists;
#[cfg(test)]
mod outside;
#[cfg(test)]
mod parts;
