//! How deep the tokens of a CAPL source nest.
//!
//! A parser goes as deep as its source nests, so it refuses one that nests too deep before it reads it.
//! [`is_deeper_than`] decides this by the scan that capl_tree defines (`specs/Nesting.antt`).
#![tactic(auto)]

pub use scan::is_deeper_than;

mod levels;
mod scan;
