//! Tests of the calls that look up names and members, give sorts, read formats and work out constants.
//!
//! They stand here, above their crate, so that it is proved without them.
#![tactic(auto)]

#[cfg(test)]
mod sorts;
