//! Statements, read from the front of tokens.
//!
//! A recursive descent with a function for each rule of the grammar. Each gives what its reader in
//! parser_laws gives: [`read_block`] the statements of a block, and [`read_declared`] a declaration.
#![tactic(auto)]

pub use part::read_declared;
pub use statement::read_block;

mod part;
mod statement;
