//! Expressions, read from the front of tokens.
//!
//! A reader of the definitions is a total function of the tokens, and each call gives what its reader
//! gives. Two laws say what that is: a well formed expression at its place is read from its tokens, and
//! nothing else is read. [`Cursor`] holds the tokens that are left.
#![tactic(auto)]

pub use cursor::Cursor;
pub use laws::{each_spelling_is_read, only_spellings_are_read};
pub use operator::Operator;
pub use reading::{read_expression, read_field};
pub use refusal::Refusal;

pub mod cursor;
mod laws;
pub mod operator;
mod reading;
mod refusal;
