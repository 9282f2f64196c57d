//! Typed programs of which nothing is known, asked for soundness and size and compiled: [`compile_checked`]
//! asks what the compiler's condition is before it calls it. Beside it stand the tests of the calls that
//! compile programs.
#![tactic(auto)]

pub use checked::{CheckedRefusal, compile_checked};

mod checked;
#[cfg(test)]
mod compiled;
