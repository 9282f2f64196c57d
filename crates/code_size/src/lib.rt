//! The size of the compiler's code: how many instructions it makes of a typed tree.
//!
//! [`size_of`] counts those of a whole program, [`value_size`] and [`test_size`] those of an expression.
//! Each is exactly typed_tree's definition, or 2^64 - 1 where that is more, so nothing is asked of a tree.
//! [`note_statements`] goes through statements once, and notes of each its [`Extent`], in the order in
//! which they are asked for when code is made of them. What decides which instructions are made is read
//! from the tree alone: [`has_index`], [`kept_len`] and the like.
#![tactic(auto, unfolding(crate::proofs::By::held, crate::proofs::By::tree, crate::proofs::By::row))]

pub use expression::{dropped_size, test_size, truth_size, value_size, values_size};
pub use extent::Extent;
pub use flow::kept_len;
pub use program::size_of;
pub use shape::{
    has_index, is_checked_first, is_comparison, is_not, is_truth, is_wrapped_first, kind_of,
    leaves_number, params_of,
};
pub use statement::{case_count, note_statements};

mod expression;
mod extent;
mod flow;
mod program;
mod shape;
mod statement;
