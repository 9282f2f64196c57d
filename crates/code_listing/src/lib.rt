//! The code of typed programs, as a definition: which instructions the compiler makes of each form of
//! expression and statement, with the depth of the stack at each.
//!
//! `Listing` has lists of instructions with their depths, `Exit` where a test goes, `Place` the
//! instructions of places, `Expression` the code of an expression as a value and as a test,
//! `Statement` that of a statement, and `Program` that of procedures and of a whole program.
//! `Example` shows three listings. `Runs` defines what it is that code does, on the machine, what a
//! part of a typed program means. There is no code that runs: [`laws`] has what holds of these
//! listings: how long they are, and that the code of each sound expression does what it means.
#![tactic(auto)]

pub mod laws;
