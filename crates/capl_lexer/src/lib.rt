//! The tokens of a CAPL source.
//!
//! A source is read into pieces, blanks, comments and tokens, from its beginning to its end, and each
//! token is the longest that stands at its place. [`lex`] gives the tokens with their places, lines
//! and columns, or the first place at which no piece begins. [`screen`] gives the first token that a
//! program may not have: floating point, and what belongs to other buses, to tests and to diagnostics.
#![tactic(auto)]

pub use names::is_name;
pub use reading::{TOKEN_LIMIT, lex};
pub use refusal::LexRefusal;
pub use screening::screen;
pub use token::{Sign, Tok, Token, Word};

mod base;
mod byte_class;
mod comment;
mod directive;
mod front;
mod names;
mod number;
mod position;
mod quoted;
mod reading;
mod refusal;
mod screening;
mod signs;
mod step;
mod token;
mod words;
