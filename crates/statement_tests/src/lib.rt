//! Tests of the calls that make the typed trees of statements.
//!
//! They stand here, above that crate, so that it is proved without them.
#![tactic(auto)]

#[cfg(test)]
mod statements;
