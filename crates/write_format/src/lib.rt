//! Formats of CAPL's `write`, and the lines that they make.
//!
//! A format is a text in which codes stand for arguments, as in C's `printf`. [`Format::read`] reads it
//! once, together with what is known of its arguments before the program runs, and refuses it where a
//! code is none of CAPL's or an argument does not fit its code. [`Format::of_owned`] does the same and
//! keeps what it is given. [`render`] then makes a line of it as often as it is written, from the numbers
//! and the cells of that moment; [`render_list`] gives the line as a list of bytes.
//!
//! A code is `%`, flags `-` and `0` in any order, a width of at most 32, and letters:
//!
//! | Letters | Argument | Text |
//! |---|---|---|
//! | `d`, `ld` | a number of up to 32 bits | wrapped to long, decimal |
//! | `u`, `lu` | a number of up to 32 bits | wrapped to dword, decimal |
//! | `x`, `lx`, `X`, `lX`, `o`, `lo` | a number of up to 32 bits | wrapped to dword, hexadecimal or octal |
//! | `I64d`, `I64u`, `I64x` | a number of 64 bits | as int64, as qword, as qword in hexadecimal |
//! | `c` | a number of up to 32 bits | the byte of its value modulo 256 |
//! | `s` | an array of characters, or a text | the bytes before its first 0 |
//!
//! `%%` is the byte `%`. A text below the width is filled with blanks on the left, with `-` on the right;
//! with `0` and without `-` a number is filled with zeros after its sign.
#![tactic(auto)]

pub use argument::ArgKind;
pub use chars::CharCells;
pub use code::{Code, Conversion, Digits, Field};
pub use format::Format;
pub use line::{render, render_list};
pub use piece::{Piece, next_piece};
pub use refusal::FormatRefusal;

mod argument;
mod chars;
mod code;
mod field;
mod format;
pub mod laws;
mod line;
mod piece;
mod reading;
mod refusal;
