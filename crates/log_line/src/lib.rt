//! Log lines in the form of can-utils' `candump -L`, read and written.
//!
//! A line has a stamp in seconds and microseconds, the name of an interface, and a frame. The reader
//! also takes what other tools write: spaces and tabs between the fields, lower-case digits, dots
//! between pairs of digits, and a direction. Frames that are no classic CAN frames are passed over.
//! [`read_line`] copies the interface, [`view_line`] reads in place and takes no memory. [`write_line`] gives
//! a line, [`append_line`] puts it behind others.
#![tactic(auto)]

pub use line::{Entry, EntryView, Line, LineRefusal, LineView};
pub use reading::{read_line, view_line};
pub use writing::{append_line, write_line};

mod fields;
mod frame_text;
pub mod laws;
mod line;
mod numbers;
mod numerals;
mod reading;
mod stamp;
mod writing;
