//! Tests of the calls that make the typed trees of expressions.
//!
//! They stand here, above that crate, so that it is proved without them.
#![tactic(auto)]

#[cfg(test)]
mod typed_trees;
