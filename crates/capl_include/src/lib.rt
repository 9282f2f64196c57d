//! The files of a CAPL program, with those that it includes.
//!
//! A file names others by `#include`. [`expand`] reads a node's file and, before it, each file that it
//! names and so on, each once: that is the order in which the program stands. It answers the files with
//! their tokens, or the first place at which a file breaks a rule.
#![tactic(auto)]

pub use expanded::{Expanded, SourceFile};
pub use expansion::expand;
pub use refusal::ExpandRefusal;

mod blames;
mod expanded;
mod expansion;
mod names;
mod progress;
mod refusal;
