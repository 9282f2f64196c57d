//! What a run of a program's code reacts to, what it does, and how it ends.
//!
//! [`Event`] is what a procedure reacts to, [`Outcome`] is how its run ends, and between the two come its
//! effects, as specs/Effect has them: lines, frames, the wish to stop, and timers that are set or cancelled.
#![tactic(auto)]

pub use event::{Event, Selector};
pub use outcome::{Outcome, TrapKind};

mod event;
mod outcome;
