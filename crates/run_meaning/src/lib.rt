//! What the run of nodes on one bus is, from the round before the start to the round of the stop.
//!
//! `Run` says what a run is: nodes on one bus, with keys and requests of a replay, go from instant to
//! instant up to an end moment or until one asks to stop. An instant is a list of rounds. How the nodes
//! react and what the bus does are parameters. `Steps` says which node's task comes next where picks are
//! given, and lists what happens in this order; `Counts` says how often each procedure ran, and `Done`
//! what steps leave in a record and a meter, all of them or those up to a fault.
//!
//! There is no code that runs: [`laws`] has what holds of every run.
#![tactic(auto)]

pub mod laws;
