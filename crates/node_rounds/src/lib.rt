//! The life of a node: its rounds, and the tasks of a round in order.
//!
//! A node reacts to what happens to it: a round begins, a frame is seen, a timer is due, a key is
//! pressed. Each reaction is one task, a run of one event procedure, or of none where a due timer has
//! none. How a node reacts is a parameter of all definitions here, the record `Reacts`: what its code
//! does is one reaction, and what its source means is another.
//!
//! `Procedures` says which procedure an occurrence is for, `Effects` what the effects of a run come to and
//! what tasks leave in a record and on a bus, `Reaction` what a reaction is and how runs of procedures make
//! one, `Round` what the tasks of a node in a round are, and `Follows` when one reaction does what another
//! does. Only the types below are code: [`laws`] has what holds of the definitions.
#![tactic(auto)]

pub use occurrence::{Occurrence, Trigger};
pub use round::{Round, Seen};

pub mod laws;
mod occurrence;
mod round;
