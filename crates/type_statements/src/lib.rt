//! The typed trees of a program's statements, and the formats of the lines that they write.
//!
//! [`make_statement`] and [`make_body`] make exactly the trees of the definitions, and append the formats
//! of `write` in the order in which they stand in the source.
#![tactic(auto, unfolding(crate::proofs::By::tree, crate::proofs::By::row))]

pub use statement::{make_body, make_statement};

mod label;
mod statement;
