//! Tests of checked sources, of the inputs that are read and checked, and of whole commands over files in
//! memory: a module for each crate that is tested.
//!
//! They stand here, above those crates, so that each of those is proved without them.
#![tactic(auto)]

#[cfg(test)]
mod checks;
#[cfg(test)]
mod commands;
#[cfg(test)]
mod files;
#[cfg(test)]
mod inputs;
