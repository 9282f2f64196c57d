//! Tests of the calls that ask which rules a program breaks.
//!
//! They stand here, above their crates, so that each of those is proved without them.
#![tactic(auto)]

#[cfg(test)]
mod rules;
