//! Tests of the calls that read expressions and declarations and tell how deep tokens nest: a module for each
//! crate that is tested.
//!
//! They stand here, above those crates, so that each of those is proved without them.
#![tactic(auto)]

#[cfg(test)]
mod declarations;
#[cfg(test)]
mod expressions;
#[cfg(test)]
mod nesting;
#[cfg(test)]
mod tokens;
