//! Scenario files: which nodes stand on the bus, and how they are run.
//!
//! A scenario has one item in a line. [`read`] gives what its items say, with the defaults of those
//! that are missing, or the first line that breaks a rule, S01 to S12, with the least rule that it
//! breaks. No file is opened here: the names of the files that a scenario has stand in it as they are.
//!
//! A line becomes fields, the fields an item, and the items a draft of the scenario.
#![tactic(auto)]

pub use reader::read;
pub use refusal::ScenarioRefusal;
pub use scenario::{Epoch, KeyItem, NodeItem, Scenario};

mod draft;
mod fields;
mod item;
mod line;
mod reader;
mod refusal;
mod scenario;
mod value;
