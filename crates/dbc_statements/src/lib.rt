//! The statements of a database's text, read one after another.
//!
//! A [`Cursor`] stands in a text before a token, and contracts see it as the list of the tokens that are
//! left. [`next_statement`] reads the statement at the front of them, exactly where the keyword's
//! spelling stands there. What statements make of nothing is dbc_reader's.
#![tactic(auto)]

pub use cursor::Cursor;
pub use statement::{FloatMark, Statement, next_statement};
pub use unread::Unread;

mod cursor;
mod front;
mod keyword;
mod parts;
mod receivers;
mod statement;
mod token;
mod unread;
