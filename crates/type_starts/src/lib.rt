//! What the variables of a program hold at first, as the cells of its typed program begin.
//!
//! [`first_values`] passes over the variables once: a number begins with its constant, an array with its
//! items or the bytes of a text, and a message as it is declared, with each item written by the rule of its
//! field, payload or signal. Cells that begin with 0 are left out.
#![tactic(auto)]

pub use variable::first_values;

mod message;
mod payload;
mod starts;
mod value;
mod variable;
