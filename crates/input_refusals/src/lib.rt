//! Why an input is refused: a rule that it breaks, a read that failed, or want of memory.
//!
//! [`InputRefusal`] is the error of whatever reads or judges an input. [`blamed_file`], [`blamed_line`] and
//! [`blamed_place`] make the refusal that blames a whole file, a line of it or a place in it.
//! `specs/Agreement.antt` has the shape of what such calls promise: an answer is so, or its blame is the
//! right one.
#![tactic(auto)]

pub use blames::{blamed_file, blamed_line, blamed_place};
pub use refusal::InputRefusal;

mod blames;
mod refusal;
