//! Tests of the calls that size typed trees, tell whether they are sound, and make the code of expressions,
//! and calls of the laws on code: a module for each subject.
//!
//! They stand here, above those crates, so that each of those is proved without them. What each form leaves
//! behind when it runs is tested on sources, in form_tests.
#![tactic(auto)]

#[cfg(test)]
mod expressions;
#[cfg(test)]
mod laws;
#[cfg(test)]
mod runs;
#[cfg(test)]
mod sizes;
#[cfg(test)]
mod sound;
