//! The stack machine that runs verified code.
//!
//! [`run`] runs one event procedure in a [`Memory`], which holds the cells of a node and the room
//! for the numbers and calls of its runs, and gives the effects to a host. It ends as the machine's
//! definition ends: it is never stuck, and takes memory only for the lines that it writes. A
//! [`Meter`] counts the runs and their turns, a row for each handler.
#![tactic(auto)]

pub use memory::Memory;
pub use meter::{Meter, MeterRow};
pub use runs::run;

mod calls;
mod cases;
mod cells;
mod effects;
mod frame;
mod jumps;
pub mod laws;
mod memory;
mod messages;
mod meter;
mod operands;
mod room;
mod runs;
mod state;
mod step;
