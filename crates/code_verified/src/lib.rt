//! The code of a sound typed program keeps every rule of the verifier.
//!
//! There is no code that runs, and there are no definitions of its own: the code of a typed program is
//! that of `code_listing`, the rules are those of `bytecode`, and [`laws`] has what holds of the two. So the
//! compiler knows that `bytecode::verify` takes what it makes, unless memory is short.
#![tactic(auto)]

pub mod laws;
