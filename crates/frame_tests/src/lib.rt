//! Tests of frames and their bits, of the signals in a payload, and of message variables: a module for each
//! crate that is tested.
//!
//! They stand here, above those crates, so that each of those is proved without them.
#![tactic(auto)]

#[cfg(test)]
mod frames;
#[cfg(test)]
mod identifiers;
#[cfg(test)]
mod messages;
#[cfg(test)]
mod signals;
