//! Tests of the calls that lay variables and give their first values, and calls of the laws on what a program
//! and its typed program mean.
//!
//! They stand here, above those crates, so that each of those is proved without them.
#![tactic(auto)]

#[cfg(test)]
mod laws;
#[cfg(test)]
mod layouts;
#[cfg(test)]
mod starts;
