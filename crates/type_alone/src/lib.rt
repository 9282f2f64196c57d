//! The typed trees of expressions that stand alone as statements, and the formats of the lines that they
//! write.
//!
//! [`make_alone`] makes exactly the tree of the definition of an expression whose value is dropped: a call
//! of `write`, `output`, a timer's function or one of the program, an assignment, or any other. It appends
//! the format of a `write`.
#![tactic(auto, unfolding(crate::proofs::By::tree, crate::proofs::By::row))]

pub use alone::make_alone;
pub use tables::StatementTables;

mod alone;
mod message;
mod tables;
mod timer;
mod write;
