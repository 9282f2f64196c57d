//! From the trees of a program to its typed program, or to the first rule that it breaks.
//!
//! [`check`] looks at all of a program with the messages of a database. What the rules E09 to E28 are, and
//! which offence is the first, is defined in capl_meaning; what the typed program of an accepted program
//! is, in typed_source.
#![tactic(auto)]

pub use checking::{CheckRefusal, check};

mod checking;
mod events;
mod functions;
mod handlers;
mod typed;
