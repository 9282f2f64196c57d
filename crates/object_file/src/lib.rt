//! Texts of verified code, to keep it in files.
//!
//! The text of code is its letters, `CAPLOBJ1`, and its lists: cells, initial values, timers, formats,
//! functions, event procedures, instructions and depths, and a list of nothing. A list is the number of
//! its records and the records, a number has its least significant byte first, and a record is what it
//! holds, one after another. [`store`] gives the text of verified code, and [`load`] the code of a text,
//! which it verifies. A text is of one code at most, so what is stored is loaded as the same code. Code
//! has a text unless a format of it is too long for lengths of four bytes.
//!
//! A count of more records than the bytes behind it can hold is refused at once. Else memory is taken as
//! the records come, so it is linear in the text whatever its counts say.
//!
//! Where code comes to hold more, its text has to say it: the selectors of an event procedure have one
//! key for all channels, in `Selector`, and a message that is sent goes out on the channel that its
//! cells name, which `Send` does not repeat. A text of another form begins with other letters.
#![tactic(auto)]

pub use file::{load, store};
pub use refusal::{LoadRefusal, StoreRefusal};

mod file;
mod instruction;
pub mod laws;
mod list;
mod number;
mod object;
mod operand;
mod refusal;
mod stored;
mod table;
