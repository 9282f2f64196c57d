//! Which rules the declarations and statements of a program break, and the first offence of all.
//!
//! The walks look at every part of a program once and note what it breaks, in any order, as check_names'
//! `note` does. [`first_offence`] joins them with what names break.
#![tactic(auto)]

pub use program::first_offence;

mod around;
mod constant;
mod declaration;
mod form;
mod initialiser;
mod item;
mod label;
mod part;
mod program;
mod site;
mod statement;
