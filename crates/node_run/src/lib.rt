//! One node that runs its code, task by task.
//!
//! A [`Node`] is loaded with verified code, begins a round, and does one task at a time: it lends a
//! record, a bus and a meter to the task, which gives its lines to the record and its requests to the
//! bus, under the number of this node alone. The tasks, their order and what each leaves are those of
//! the crate node_rounds, where the reaction is the machine's run of the code (`Code`). A node that is
//! loaded is sound (`Sound`) and stays so, and [`laws`] says that a sound node does each of its tasks.
#![tactic(auto)]

pub use node::{Node, TaskEnd, TaskFault};
pub use node_rounds::{Round, Seen};

mod agenda;
mod host;
pub mod laws;
mod node;
mod procedures;
mod tables;
mod task;
mod wanted;
