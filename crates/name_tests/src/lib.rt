//! Tests of the calls that ask what names mean.
//!
//! They stand here, above their crate, so that it is proved without them.
#![tactic(auto)]

#[cfg(test)]
mod names;
