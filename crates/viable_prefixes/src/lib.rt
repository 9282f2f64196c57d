//! Where tokens stop being the beginning of a CAPL source.
//!
//! Tokens are a viable prefix where some source begins with them. [`first_wrong_token`] gives the number of
//! the first token with which they are no such prefix any more, by a predictive parser without trees: a stack
//! of goals, each what may come next in a part that has begun, which one token after another moves on. A
//! stack that is left can always be ended; what a stack refuses begins nothing that its goals, one after
//! another, may be.
#![tactic(auto)]

pub use search::first_wrong_token;

mod expression;
mod file;
mod goal;
mod search;
mod statement;
mod token;
