//! The code of a typed program does what the program means.
//!
//! The crate typed_tree says how each event procedure of a typed program ends, and code_listing which
//! instructions a program has. Here is the law that joins them: where the machine runs an event
//! procedure of this code, its run ends, with the cells, the timers, the effects in order, the turns
//! and the outcome that the tree says.
//!
//! `Statement` says what it is that the code of a statement does what the statement means, `Ending`
//! the same of an event procedure, and `OnHost` what that leaves in a memory and on a host. There is
//! no code that runs: [`laws`] has what holds. The proof goes from expressions, whose law code_listing
//! has, to statements, to procedures and their calls, and to programs.
#![tactic(auto)]

pub mod laws;
