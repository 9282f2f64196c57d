//! Tests of write_format: its lines beside those of C, and formats that it refuses.
//!
//! They stand here, above that crate, so that it is proved without them.
#![tactic(auto)]

#[cfg(test)]
mod formats;
