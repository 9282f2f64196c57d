//! Which message procedure a frame is for.
//!
//! Each [`MessageSelector`] holds a range of selection keys for a handler. Of those that hold the key
//! of a frame, [`Selectors::choose`] takes one of the least rank: an exact identifier or a database
//! name goes before a range, and a range before `*`. A choice takes no memory.
#![tactic(auto)]

pub use selector::MessageSelector;
pub use selectors::Selectors;

pub mod laws;
mod selector;
mod selectors;
