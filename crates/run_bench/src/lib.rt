//! What tests of runs stand on: nodes and simulations of sources in memory, of which nothing has happened
//! yet, and what a record and a meter must hold.
//!
//! A source takes all the crates from the lexer to the verifier, on which node_run and sim_core do not stand.
//! A scenario and its sources in memory are read and checked by sim_inputs, and the nodes are run on a bus
//! that keeps its requests in a list, and on one that keeps them in a heap.
#![tactic(auto)]

pub use bench::{Bench, Course, Start, heap_start, plain_start, start_of};
pub use entries::{Entry, are_noted, has_rows};

mod bench;
mod entries;
