//! The tree of a CAPL source, read from its tokens.
//!
//! A recursive descent with a function for each rule of the grammar, of which those of statements are
//! stmt_parser's. Each gives what its reader in parser_laws gives, so [`parse`] gives the tree that the
//! tokens spell, and refuses them exactly where they nest too deep or spell none.
#![tactic(auto)]

pub use parsing::{NESTING_LIMIT, parse};
pub use refusal::ParseRefusal;

mod file;
mod head;
mod parsing;
mod refusal;
