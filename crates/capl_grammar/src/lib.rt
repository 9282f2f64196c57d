//! The grammar of sources: as which tokens each part of a tree is written, where it stands, and where it may.
//!
//! A tree is written out as pieces: tokens, `void` or nothing, places, and conditions; and the tokens of a
//! source are what the pieces of its tree say. The parser is proved by three definitions of `capl_tree`: how
//! a tree is spelled, where its parts are placed and where they may stand. The law of [`laws`] says that the
//! grammar and these three together are the same.
#![tactic(auto)]

pub mod laws;
