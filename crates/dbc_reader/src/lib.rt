//! Databases of messages and signals, read from DBC files.
//!
//! The statements of a text, which dbc_statements reads, are taken from its beginning to its end. [`read`]
//! gives the messages with their signals that they say, or names the line of the first statement that has
//! no spelling, or that of the first identifier or name for the second time. [`Database`] finds messages by
//! name and by identifier, and signals by name.
//!
//! Only messages, their signals, and which of these are floats are kept; of every other statement
//! the spelling alone is looked at.
#![tactic(auto)]

pub use database::Database;
pub use message::DbcMessage;
pub use reading::read;
pub use refusal::DbcRefusal;
pub use signals::{DbcSignal, Signals};

mod builder;
mod database;
pub mod laws;
mod message;
mod owner;
mod reading;
mod refusal;
mod seed;
mod signals;
