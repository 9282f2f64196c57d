//! Tests of the calls of object_file on a concrete text.
//!
//! They stand here, above that crate, so that it is proved without them.
#![tactic(auto)]

#[cfg(test)]
mod stored;
