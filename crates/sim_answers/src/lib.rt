//! Each input has exactly one answer: laws that stand over the definition of the answer alone.
//!
//! Whatever the words of a command line are, and whatever the files hold, the words are no command, or
//! they ask for something over inputs that are accepted, or over inputs that have a first blame; and of
//! these three exactly one holds. So there is an answer, and only one. That `simulate` gives it, is said
//! by its own contract.
#![tactic(auto)]

pub mod laws;
