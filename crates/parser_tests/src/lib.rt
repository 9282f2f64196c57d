//! Tests of the parser: sources that have no tree, how deep sources nest, what they weigh, and calls of the
//! laws on the grammar and on readers.
//!
//! They stand here, above those crates, so that each of those is proved without them. `sources` has what is
//! parsed of sources, and the trees of short ones, for these tests and those of what stands above the parser.
#![tactic(auto)]

#[cfg(test)]
mod laws;
#[cfg(test)]
mod parser;
pub mod sources;
#[cfg(test)]
mod weights;
