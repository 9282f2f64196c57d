//! CAPL's kinds of integers, and arithmetic on them.
//!
//! Every number is an `i128` from -2^63 to 2^64 - 1, which [`is_number`] tests. [`wrap`] takes it to
//! the one number of a kind that is congruent to it modulo 2 to the kind's width, and [`residue`]
//! gives its bits at that width. Each operation wraps its operands to one kind, gives the whole
//! number that the operator stands for, and wraps that too; [`value`] is that of any binary operator.
//! [`truth`] is the number of a test.
//!
//! No call aborts, and none takes memory.
#![tactic(auto)]

pub use arithmetic::{add, div, mul, neg, rem, sub, truth};
pub use bitwise::{and, inv, or, residue, shl, shr, xor};
pub use kinds::{Kind, bits, holds, is_number, join, wrap};
pub use operation::{is_equal, value};
pub use operators::{BinOp, UnOp};

mod arithmetic;
mod bitwise;
mod kinds;
pub mod laws;
mod operation;
mod operators;
