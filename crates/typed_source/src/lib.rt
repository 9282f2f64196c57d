//! The typed program of a source, as a definition: which typed tree each expression, place and statement
//! becomes, what the functions, event procedures and tables are, and in which order functions may stand.
//!
//! `Expression` in specs/ has expressions and places, `Statement` statements with the formats of their
//! lines, `Program` procedures and the whole program, `Sound` what makes an expression sound besides its
//! sort. A part that breaks a rule has a tree too, which does what is said of the part. There is no code
//! that runs: [`laws`] has what holds of these trees.
#![tactic(auto)]

pub mod laws;
