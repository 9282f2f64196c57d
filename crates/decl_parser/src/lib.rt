//! Declarations of variables, read from the front of tokens.
//!
//! The reader of the definitions is a total function of the tokens, and the call gives what it gives. Two
//! laws say what that is: a well formed declaration at its place is read from its tokens, and nothing else
//! is read.
#![tactic(auto)]

pub use laws::{each_declaration_is_read, only_declarations_are_read};
pub use reading::read_declaration;

mod laws;
mod reading;
