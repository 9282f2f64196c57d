//! The lines that the program prints, but for those of the log.
//!
//! [`window_line`] shows a text that a node writes, and [`append_window_line`] does so in a list that many
//! lines can use; [`blame_line`] says which rule an input breaks,
//! [`profile_line`] what an event procedure took, and [`summary_line`] what the run of a generated
//! scenario had. Each line ends with a line feed (byte 10) and has none before it: one in a text or in the
//! name of a file is shown as `\n`, and the name of a node has none. Numbers are decimal digits.
#![tactic(auto)]

pub use blame::blame_line;
pub use profile::profile_line;
pub use summary::summary_line;
pub use window::{append_window_line, window_line};

mod blame;
mod number;
mod profile;
mod shown;
mod summary;
mod window;
