//! The code of expressions: instructions made from typed trees.
//!
//! [`emit`] appends the code of an expression as a value, and [`emit_test`] its code as a test that
//! goes to an [`Exit`]. Both make exactly the listing of code_listing's definition, from the place and
//! the depth at which they begin. Its targets are made of sizes, which [`value_size`] and
//! [`test_size`] count before the code is there, so nothing is filled in afterwards. An [`Emitter`]
//! holds the code so far, each instruction with its depth.
//!
//! Instructions hold the numbers of cells in 32 bits. So the cell of each message field in an
//! expression has to have such a number, which it has in every sound program.
#![tactic(auto, unfolding(crate::proofs::By::tree, crate::proofs::By::row))]

pub use emitter::Emitter;
pub use exit::Exit;
pub use expression::{emit, emit_dropped, emit_test, emit_values};
pub use size::{test_size, value_size};

mod emitter;
mod exit;
mod expression;
mod parts;
mod size;
