//! Tests of channel_errors and bus_errors: a bus on which planned transmissions are disturbed.
//!
//! They stand here, above those crates, so that each of those is proved without them.
#![tactic(auto)]

#[cfg(test)]
mod errors;
