//! Tests of the calls that read tokens, screen them, and expand files: a module for each subject.
//!
//! They stand here, above the crates that they test, so that each of those is proved without them.
#![tactic(auto)]

#[cfg(test)]
mod includes;
#[cfg(test)]
mod lexer;
#[cfg(test)]
mod screening;
