//! Parts of texts: lines, and the numbers that digits stand for.
//!
//! A text here is any bytes. [`first_line`] takes its first line from it, so that a reader goes from
//! line to line without a copy. [`decimal_number`] gives the number of a field up to a limit, and
//! [`number_in_base`] that of digits which are known to be some.
#![tactic(auto)]

pub use line::{FirstLine, first_line};
pub use number::{decimal_number, number_in_base};

mod line;
mod number;
