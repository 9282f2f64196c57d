//! What every layer speaks of: texts, rules and where they are broken, want of memory, and counts of
//! faults.
//!
//! A [`Text`] is bytes that need not be characters. A [`Rule`] is named by a letter and a number, and a
//! [`Blame`] says which one an input breaks and where. [`NoMemory`] is the one error of whatever takes
//! memory. `specs/Fault.antt` says what a count of failed calls may do from one call to the next.
#![tactic(auto)]

pub use blame::{Blame, Rule};
pub use memory::NoMemory;
pub use text::Text;

mod blame;
mod memory;
mod text;
