//! The whole way from a source to verified code.
//!
//! [`read_source`] reads a source and the files that it includes, looks for tokens that a program may not
//! have, reads the trees, checks what they mean, and compiles the typed program. [`Compiled`] has the code
//! with the sizes of the program and the names of its files. Which sources are accepted and which blame is
//! the first of one that is not is defined in `specs/Source.antt` and the files that this names, over what
//! the files hold.
#![tactic(auto)]

pub use compiled::Compiled;
pub use source::read_source;

mod compiled;
mod places;
mod program;
mod rules;
mod source;
