//! The tasks of nodes in whichever order: no order of tasks of different nodes changes what a run comes to.
//!
//! A run says what each node does, and no more. Here nodes do single tasks, one after another, on one bus.
//! `World` says how they stand between two tasks, and `Moves` what they may do next: a node that has a task
//! left in the round does it, or the round is closed where none has. An interleaving is a list of such moves,
//! up to where none is possible. `Values` says what all interleavings of a run have in common.
//!
//! There is no code that runs: [`laws`] has what holds of every interleaving.
#![tactic(auto)]

pub mod laws;
