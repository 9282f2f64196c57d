//! Tests of what a node and its host hold: effects, records, timers, and the selectors of messages. Each
//! tested crate has a module.
//!
//! They stand here, above those crates, so that each of those is proved without them.
#![tactic(auto)]

#[cfg(test)]
mod hosts;
#[cfg(test)]
mod records;
#[cfg(test)]
mod selectors;
#[cfg(test)]
mod timers;
