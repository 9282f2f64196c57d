//! A message variable of CAPL as cells, and the cells of an event.
//!
//! A message that begins at a cell is that cell and the 13 after it: identifier (a dword whose bit 31
//! marks an extended one), length and remote bit (bytes), channel (a word), direction (a byte), time
//! (a dword) and 8 data bytes. The first cells of a program are those of its event: the message that
//! was on the bus, and the key.
//!
//! The definitions are in specs/: `Message` has the cells, what they hold and the rules by which the
//! fields are written, `Cells` those of an event. What a typed tree means and what the machine does
//! are both said with them. The code here has their kinds alone.
#![tactic(auto)]

pub use cells::begin_with_event;
pub use message::{MESSAGE_KINDS, is_message};

mod cells;
pub mod laws;
mod message;
