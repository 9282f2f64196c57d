//! The record of a run: what a run leaves, entry by entry.
//!
//! A [`Record`] takes the entries of a run, lines and frames, in order. It may tell them; what it does
//! with an entry, and what a refused entry leaves, are relations, so a record may pass each entry on
//! instead. [`MemRecord`] keeps the list of them.
#![tactic(auto)]

pub use mem_record::MemRecord;
pub use record::{Noted, Record};

mod mem_record;
mod record;
