//! Tests of the calls that verify code and run it, and calls of the laws on that: a module for each crate
//! that is tested.
//!
//! They stand here, above those crates, so that each of those is proved without them. `codes` has the code
//! that both are about.
#![tactic(auto)]

#[cfg(test)]
mod codes;
#[cfg(test)]
mod machine;
#[cfg(test)]
mod verifier;
